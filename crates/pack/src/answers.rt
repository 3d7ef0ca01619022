// What packing and unpacking answer, and the refusals that are theirs.
use crate::format::Form;
use lexer::{Cursor, Fault, Refusal};

// The pack's form, and the count of nodes.
#[derive(Clone, Copy)]
pub struct Unpacked {
    pub form: Form,
    pub count: usize,
}

// The image's length, and the cursor after the clause's mark.
#[derive(Clone, Copy)]
pub struct PackedClause {
    pub length: usize,
    pub next: Cursor,
}

// Document 02 names no offset for these, so it is 0.
pub(crate) const NO_ROOM: Fault = Fault {
    refusal: Refusal::NoRoom,
    offset: 0,
};

pub(crate) const TOO_LONG: Fault = Fault {
    refusal: Refusal::TooLong,
    offset: 0,
};

pub(crate) const NO_PACK: Fault = Fault {
    refusal: Refusal::NoPack,
    offset: 0,
};

pub(crate) const UNKNOWN_VERSION: Fault = Fault {
    refusal: Refusal::UnknownVersion,
    offset: 0,
};
