// A byte that may be put back, and a cursor moved on.
ghost use Rattle.std.specs.Prelude.{◌≡◌};
ghost use Rattle.chunks.specs.Reader.{moved_by, Sums};
ghost use Rattle.chunks.specs.Verdict.{put_back};

use lexer::Cursor;

// A byte that a number may put back.
pub(crate) fn may_return(b: u8) -> bool
    ensures { result ≡ put_back b }
{
    matches!(b, b'.' | b'e' | b'E' | b'+' | b'-')
}

// The cursor further on by one that began at the start.
pub(crate) fn moved_by(c: Cursor, d: Cursor) -> Cursor
    requires { Sums c d }
    ensures { result ≡ moved_by c d }
{
    Cursor {
        offset: c.offset + d.offset,
        line: c.line + d.line,
        column: if d.line == 0 {
            c.column + d.column
        } else {
            d.column
        },
    }
}
