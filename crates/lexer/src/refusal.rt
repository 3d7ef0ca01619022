// Why a call is refused: the refusal numbers of documents 01 and 02, by name.
ghost use Rattle.std.specs.Prelude.{◌≡◌};
ghost use Rattle.lexer.specs.Refusal.{number_of};

use crate::cursor::Cursor;

#[derive(Clone, Copy)]
pub enum Refusal {
    EndOfText = 1,
    UnclosedComment = 2,
    NoToken = 3,
    BadQuoted = 4,
    ForeignByte = 5,
    SetAside = 6,
    OutOfLimit = 7,
    NotValid = 8,
    NoRoom = 9,
    TooManyTokens = 10,
    NoReading = 11,
    NoText = 12,
    TooLong = 13,
    NoPack = 14,
    TokenTooLong = 15,
    UnknownVersion = 18,
}

// A refusal, and the offset that it points at.
#[derive(Clone, Copy)]
pub struct Fault {
    pub refusal: Refusal,
    pub offset: usize,
}

// A refusal of a call, with the cursor that the caller gave.
#[derive(Clone, Copy)]
pub struct Refused {
    pub fault: Fault,
    pub cursor: Cursor,
}

// The number of a refusal.
pub fn refusal_number(refusal: Refusal) -> u8
    ensures { result ≡ number_of refusal }
{
    refusal as u8
}
