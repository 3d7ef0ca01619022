// Passing over the layout at hand.
ghost use Rattle.std.specs.Prelude.{◌≡◌, length};
ghost use Rattle.lexer.specs.Cursor.{along};
ghost use Rattle.chunks.specs.Layouts.{plain_end};
ghost use Rattle.chunks.specs.Reader.{pass, placed, Passable};

use crate::layout::{Mode, Why, at_end, turn_ahead};
use lexer::{Cursor, skip_char, stretch_end};

// Where it stops, and why: the bytes up to the cursor are passed. The place is wanted whatever stops it, so no reason is an `Err` here.
#[derive(Clone, Copy)]
pub struct Place {
    pub mode: Mode,
    pub cursor: Cursor,
    pub why: Why,
}

// In no stretch.
const NONE: u8 = 0;

// Where the bytes from `at` on end that leave the mode as it is, none of them a newline; `left` of a turn are still to be passed.
#[tactic(auto, unfolding(crate::specs::Layouts::plain_end))]
fn plain_end(hand: &[u8], at: usize, left: usize, mode: Mode) -> usize
    ensures { result ≡ plain_end left mode hand.now at }
{
    if left != 0 {
        return at;
    }
    match mode {
        Mode::Blank => stretch_end(hand, at, b' ', b' ', NONE, NONE),
        Mode::Line => stretch_end(hand, at, b' ', b'~', NONE, NONE),
        Mode::Inside(_) => stretch_end(hand, at, b' ', b'~', b'*', NONE),
    }
}

// Past `n` such bytes. The lexer's own `skip_along` is not handed out: it asks for something, and public calls ask for nothing.
fn past_plain(c: Cursor, n: usize) -> Cursor
    requires { Passable n c }
    ensures { result ≡ along c n }
{
    Cursor {
        offset: c.offset + n,
        line: c.line,
        column: c.column + n,
    }
}

// Over what stands at hand, from the mode and the cursor on.
pub(crate) fn pass_layout(hand: &[u8], mode: Mode, cursor: Cursor) -> Place
    requires { Passable (length hand.now) cursor }
    ensures { placed cursor hand.now result ≡ pass mode 0 cursor hand.now }
{
    let mut at = 0;
    let mut left = 0;
    let mut m = mode;
    let mut c = cursor;
    // `at` goes on by a turn and by the run behind it, and where it stops is the answer: no `for` counts so.
    while at < hand.len() {
        match turn_ahead(&hand[at..], left, m, c.offset) {
            Ok(turn) => {
                let next = turn.mode;
                let passed = skip_char(c, hand[at]);
                let start = at + 1;
                let end = plain_end(hand, start, turn.more, next);
                c = past_plain(passed, end - start);
                at = end;
                left = turn.more;
                m = next;
            }
            Err(why) => {
                return Place {
                    mode: m,
                    cursor: c,
                    why,
                };
            }
        }
    }
    let fault = at_end(m, c.offset);
    Place {
        mode: m,
        cursor: c,
        why: Why::Waits(fault),
    }
}
