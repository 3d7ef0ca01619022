// The numbers of the format: document 02, requests 2 and 13.
ghost use Rattle.std.specs.Prelude.{◌≡◌};
ghost use Rattle.pack.specs.Calls.{begins};
ghost use Rattle.pack.specs.Passes.{version_byte, line_size};

// The form of a pack. Form 2 says too on which line the clause stood: the line of its first token plus one, or 0 for not known.
#[derive(Clone, Copy)]
pub enum Form {
    One,
    Two(u16),
}

// The same without the line.
#[derive(Clone, Copy)]
pub enum Version {
    One = 1,
    Two = 2,
}

// Where the two bytes stand that say how long the body is, and where the body starts. Numbers have two bytes, the higher first.
pub(crate) const LENGTH_AT: usize = 1;

pub(crate) const BODY_AT: usize = 3;

// The line's bytes, with which a body of form 2 begins.
const LINE: usize = 2;

// A byte and two numbers: what a pack of form 1 has before its first node, and a node before its spelling.
pub(crate) const FRONT: usize = 5;

pub(crate) const LONGEST_BODY: usize = 65535;

pub(crate) const LONGEST_SPELLING: usize = 65535;

pub(crate) const MOST_NODES: usize = 1023;

// In a slice of nodes each has four: its kind, its arity, the start and the length of its spelling.
pub(crate) const NUMBERS: usize = 4;

impl Version {
    // The first byte of a pack.
    pub(crate) fn byte(self) -> usize
        ensures { result ≡ version_byte self }
    {
        self as usize
    }

    // How many bytes of a body stand before the node count.
    pub(crate) fn line_size(self) -> usize
        ensures { result ≡ line_size self }
    {
        match self {
            Version::One => 0,
            Version::Two => LINE,
        }
    }
}

impl Form {
    // Where the first node stands.
    pub(crate) fn first_node(self) -> usize
        ensures { result ≡ begins self }
    {
        match self {
            Form::One => FRONT,
            Form::Two(_line) => FRONT + LINE,
        }
    }
}
