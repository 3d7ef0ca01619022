// The place in a text: offset, line and column.
ghost use Rattle.std.specs.Prelude.{◌≡◌, ◌-◌};
ghost use Rattle.lexer.specs.Cursor.{step, along, valid, Movable, Along};

#[derive(Clone, Copy)]
pub struct Cursor {
    pub offset: usize,
    pub line: usize,
    pub column: usize,
}

const LONGEST: usize = 65535;

// Whether a text of `n` bytes is not too long and the cursor is valid in it.
pub fn is_valid(n: usize, c: Cursor) -> bool
    ensures { result ≡ valid n c }
{
    if LONGEST < n {
        return false;
    }
    if n < c.offset {
        return false;
    }
    if c.offset < c.line {
        return false;
    }
    c.column <= c.offset
}

// Past one character.
pub fn skip_char(c: Cursor, b: u8) -> Cursor
    requires { Movable c }
    ensures { result ≡ step c b }
{
    if b == b'\n' {
        Cursor {
            offset: c.offset + 1,
            line: c.line + 1,
            column: 0,
        }
    } else {
        Cursor {
            offset: c.offset + 1,
            line: c.line,
            column: c.column + 1,
        }
    }
}

// Past the characters up to `to`, none of them a newline: the fast path of skip_char.
pub(crate) fn skip_along(c: Cursor, to: usize) -> Cursor
    requires { Along c to }
    ensures { result ≡ along c (to - c.offset) }
{
    let n = to - c.offset;
    Cursor {
        offset: c.offset + n,
        line: c.line,
        column: c.column + n,
    }
}
