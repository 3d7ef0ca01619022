// Layout, a byte at a time: what is passed of it is not kept.
ghost use Rattle.std.specs.Prelude.{◌≡◌, ◌≤◌};
ghost use Rattle.lexer.specs.Cursor.{longest};
ghost use Rattle.chunks.specs.Layouts.{opened, slashed, starred, foreign_there, turn, wait_of, ahead};
ghost use Rattle.chunks.specs.declared.layout.Mode.TheVariants.{Blank, Line, Inside};

use lexer::{Fault, Refusal, is_foreign, is_layout};

// Where a reading stands: between layout texts; in a `%` comment; in the bracketed comment whose slash is at that offset. A state, none of whose names is
// a missing value.
#[derive(Clone, Copy)]
pub enum Mode {
    Blank,
    Line,
    Inside(usize),
}

// One byte is passed, and so many more are to be; the mode is the one behind it.
#[derive(Clone, Copy)]
pub struct Turn {
    pub mode: Mode,
    pub more: usize,
}

// Why none is: a token starts; more must be known, and where the text ends it is refused so; refused.
#[derive(Clone, Copy)]
pub enum Why {
    Starts,
    Waits(Fault),
    Stops(Fault),
}

// Behind the opening mark of a comment, whose slash is at `slash`.
#[tactic(auto, unfolding(crate::specs::Layouts::opened))]
fn behind_opening(hand: &[u8], slash: usize) -> Result<Turn, Why>
    requires { slash ≤ longest }
    ensures { result ≡ opened slash hand.now }
{
    match hand {
        [] => Err(Why::Waits(Fault {
            refusal: Refusal::EndOfText,
            offset: slash + 2,
        })),
        [b, ..] if is_foreign(*b) => foreign_there(slash + 2),
        [_, ..] => Ok(Turn {
            mode: Mode::Inside(slash),
            more: 1,
        }),
    }
}

// Behind a slash, which may open a comment.
#[tactic(auto, unfolding(crate::specs::Layouts::slashed))]
fn behind_slash(hand: &[u8], slash: usize) -> Result<Turn, Why>
    requires { slash ≤ longest }
    ensures { result ≡ slashed slash hand.now }
{
    match hand {
        [] => Err(Why::Waits(Fault {
            refusal: Refusal::EndOfText,
            offset: slash + 1,
        })),
        [b, ..] if is_foreign(*b) => foreign_there(slash + 1),
        [b'*', rest @ ..] => behind_opening(rest, slash),
        [_, ..] => Err(Why::Starts),
    }
}

// Behind a star in a comment, which may close it.
#[tactic(auto, unfolding(crate::specs::Layouts::starred))]
fn behind_star(hand: &[u8], slash: usize) -> Result<Turn, Why>
    ensures { result ≡ starred slash hand.now }
{
    match hand {
        [] => Err(Why::Waits(Fault {
            refusal: Refusal::UnclosedComment,
            offset: slash,
        })),
        [b'/', ..] => Ok(Turn {
            mode: Mode::Blank,
            more: 1,
        }),
        [_, ..] => Ok(Turn {
            mode: Mode::Inside(slash),
            more: 0,
        }),
    }
}

fn foreign_there(offset: usize) -> Result<Turn, Why>
    ensures { result ≡ foreign_there offset }
{
    Err(Why::Stops(Fault {
        refusal: Refusal::ForeignByte,
        offset,
    }))
}

// Between layout texts.
#[tactic(auto, unfolding(crate::specs::Layouts::turn))]
fn blank_turn(hand: &[u8], offset: usize) -> Result<Turn, Why>
    requires { offset ≤ longest }
    ensures { result ≡ turn Blank offset hand.now }
{
    match hand {
        [] => Err(Why::Waits(at_end(Mode::Blank, offset))),
        [b, ..] if is_foreign(*b) => foreign_there(offset),
        [b, ..] if is_layout(*b) => Ok(Turn {
            mode: Mode::Blank,
            more: 0,
        }),
        [b'%', ..] => Ok(Turn {
            mode: Mode::Line,
            more: 0,
        }),
        [b'/', rest @ ..] => behind_slash(rest, offset),
        [_, ..] => Err(Why::Starts),
    }
}

// In a `%` comment.
#[tactic(auto, unfolding(crate::specs::Layouts::turn))]
fn line_turn(hand: &[u8], offset: usize) -> Result<Turn, Why>
    requires { offset ≤ longest }
    ensures { result ≡ turn Line offset hand.now }
{
    match hand {
        [] => Err(Why::Waits(at_end(Mode::Line, offset))),
        [b, ..] if is_foreign(*b) => foreign_there(offset),
        [b'\n', ..] => Ok(Turn {
            mode: Mode::Blank,
            more: 0,
        }),
        [_, ..] => Ok(Turn {
            mode: Mode::Line,
            more: 0,
        }),
    }
}

// In the bracketed comment whose slash is at `slash`.
#[tactic(auto, unfolding(crate::specs::Layouts::turn))]
fn comment_turn(hand: &[u8], offset: usize, slash: usize) -> Result<Turn, Why>
    requires { offset ≤ longest }
    ensures { result ≡ turn (Inside slash) offset hand.now }
{
    match hand {
        [] => Err(Why::Waits(at_end(Mode::Inside(slash), offset))),
        [b, ..] if is_foreign(*b) => foreign_there(offset),
        [b'*', rest @ ..] => behind_star(rest, slash),
        [_, ..] => Ok(Turn {
            mode: Mode::Inside(slash),
            more: 0,
        }),
    }
}

// By the bytes at hand, the first of which is at `offset` of the text.
fn next_turn(hand: &[u8], mode: Mode, offset: usize) -> Result<Turn, Why>
    requires { offset ≤ longest }
    ensures { result ≡ turn mode offset hand.now }
{
    match mode {
        Mode::Blank => blank_turn(hand, offset),
        Mode::Line => line_turn(hand, offset),
        Mode::Inside(slash) => comment_turn(hand, offset, slash),
    }
}

// The same, where so many bytes of a turn are still to be passed.
#[tactic(auto, unfolding(crate::specs::Layouts::ahead))]
pub(crate) fn turn_ahead(hand: &[u8], left: usize, mode: Mode, offset: usize) -> Result<Turn, Why>
    requires { offset ≤ longest }
    ensures { result ≡ ahead left mode offset hand.now }
{
    if left == 0 {
        next_turn(hand, mode, offset)
    } else {
        Ok(Turn {
            mode,
            more: left - 1,
        })
    }
}

// What it comes to if the text ends there.
pub(crate) fn at_end(mode: Mode, offset: usize) -> Fault
    ensures { result ≡ wait_of mode offset }
{
    match mode {
        Mode::Blank | Mode::Line => Fault {
            refusal: Refusal::EndOfText,
            offset,
        },
        Mode::Inside(slash) => Fault {
            refusal: Refusal::UnclosedComment,
            offset: slash,
        },
    }
}
