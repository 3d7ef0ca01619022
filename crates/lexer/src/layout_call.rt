// The layout call.
ghost use Rattle.std.specs.Prelude.{◌≡◌, length, Ok};
ghost use Rattle.lexer.specs.Chars.{is, layout_char};
ghost use Rattle.lexer.specs.Cursor.{Valid, move_to};
ghost use Rattle.lexer.specs.Layout.{layout_text};
ghost use Rattle.lexer.specs.LayoutCall.{layout_kind, layout_given, next_layout, Given};
ghost use Rattle.lexer.specs.Stretch.{run_of};

use crate::classes::is_layout;
use crate::cursor::{Cursor, is_valid, skip_char};
use crate::layout::consume_layout;
use crate::refusal::Refused;
use crate::token::not_valid;

// What a layout text is: layout characters, in a run; a `%` comment; a bracketed comment.
#[derive(Clone, Copy)]
pub enum LayoutKind {
    Blanks,
    SingleLine,
    Bracketed,
}

// What the layout call answers: a layout text, whose span ends where the cursor behind it stands; or none, with the caller's cursor, which is promised here
// too (`layout_given` of specs/LayoutCall).
#[derive(Clone, Copy)]
pub enum LayoutRead {
    Text {
        kind: LayoutKind,
        start: usize,
        next: Cursor,
    },
    Absent {
        cursor: Cursor,
    },
}

// The kind of a layout text that begins with `b`.
fn layout_kind(b: u8) -> LayoutKind
    ensures { result ≡ layout_kind b }
{
    if is_layout(b) {
        LayoutKind::Blanks
    } else if b == b'%' {
        LayoutKind::SingleLine
    } else {
        LayoutKind::Bracketed
    }
}

// Behind the layout characters at the cursor.
fn past_blanks(text: &[u8], cursor: Cursor) -> Cursor
    requires { Valid (length text.now) cursor }
    ensures { result ≡ move_to text.now cursor (run_of (is layout_char) text.now cursor.offset) }
{
    let mut c = cursor;
    for at in cursor.offset..text.len() {
        let b = text[at];
        if !is_layout(b) {
            return c;
        }
        c = skip_char(c, b);
    }
    c
}

// The layout text at the cursor, which ends at `next`.
fn layout_given(text: &[u8], cursor: Cursor, next: Cursor) -> LayoutRead
    requires { Given text.now cursor next }
    ensures { Ok result ≡ layout_given text.now cursor (layout_text text.now cursor.offset) }
{
    let start = cursor.offset;
    let kind = layout_kind(text[start]);
    match kind {
        LayoutKind::Blanks => LayoutRead::Text {
            kind,
            start,
            next: past_blanks(text, cursor),
        },
        LayoutKind::SingleLine => LayoutRead::Text { kind, start, next },
        LayoutKind::Bracketed => LayoutRead::Text { kind, start, next },
    }
}

// What the layout call answers at a valid cursor.
fn layout_at(text: &[u8], cursor: Cursor) -> Result<LayoutRead, Refused>
    requires { Valid (length text.now) cursor }
    ensures { result ≡ layout_given text.now cursor (layout_text text.now cursor.offset) }
{
    match consume_layout(text, cursor) {
        Err(fault) => Err(Refused { fault, cursor }),
        Ok(layout) => match layout {
            None => Ok(LayoutRead::Absent { cursor }),
            Some(next) => Ok(layout_given(text, cursor, next)),
        },
    }
}

// The layout call: one layout text at a time.
pub fn next_layout(text: &[u8], cursor: Cursor) -> Result<LayoutRead, Refused>
    ensures { result ≡ next_layout text.now cursor }
{
    if is_valid(text.len(), cursor) {
        layout_at(text, cursor)
    } else {
        Err(Refused {
            fault: not_valid(),
            cursor,
        })
    }
}
