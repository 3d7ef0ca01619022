// Layout text: blanks and comments.
ghost use Rattle.std.specs.Prelude.{◌≡◌, ◌||◌, ltb, length, ◌+◌};
ghost use Rattle.lexer.specs.Chars.{within, open_paren, point, slash};
ghost use Rattle.lexer.specs.Cursor.{Valid};
ghost use Rattle.lexer.specs.Look.{lookahead};
ghost use Rattle.lexer.specs.Layout.{single_line_comment, comment_text, bracketed_comment, slashed, layout_text, layout_end, moved, stepped, Opening, Slash, Inside};

use crate::chars::{Peek, lookahead_char, peek_char};
use crate::classes::{between, is_layout};
use crate::cursor::{Cursor, skip_along, skip_char};
use crate::refusal::{Fault, Refusal};
use crate::stretch::{NONE, stretch_end};

// Behind the newline that ends a `%` comment, or at the end of the text. The cursor stands in the comment.
fn single_line_comment(text: &[u8], cursor: Cursor) -> Result<Cursor, Fault>
    requires { Valid (length text.now) cursor }
    ensures { result ≡ moved text.now cursor (single_line_comment text.now cursor.offset) }
{
    let mut c = cursor;
    loop {
        let at = stretch_end(text, c.offset, b' ', b'~', NONE, NONE);
        c = skip_along(c, at);
        match peek_char(text, at) {
            Peek::End => return Ok(c),
            Peek::Foreign => {
                return Err(Fault {
                    refusal: Refusal::ForeignByte,
                    offset: at,
                });
            }
            Peek::Byte(b) => {
                c = skip_char(c, b);
                if b == b'\n' {
                    return Ok(c);
                }
            }
        }
    }
}

// Behind the first star that a slash follows. The cursor stands behind the opening mark, whose slash is at `slash`.
fn comment_text(text: &[u8], slash: usize, cursor: Cursor) -> Result<Cursor, Fault>
    requires { Inside (length text.now) slash cursor }
    ensures { result ≡ moved text.now cursor (comment_text text.now slash) }
{
    let mut c = cursor;
    let close = 'comment: loop {
        let at = stretch_end(text, c.offset, b' ', b'~', b'*', NONE);
        c = skip_along(c, at);
        match peek_char(text, at) {
            Peek::End => {
                return Err(Fault {
                    refusal: Refusal::UnclosedComment,
                    offset: slash,
                });
            }
            Peek::Foreign => {
                return Err(Fault {
                    refusal: Refusal::ForeignByte,
                    offset: at,
                });
            }
            Peek::Byte(b) => {
                c = skip_char(c, b);
                if b == b'*' {
                    loop {
                        let next = c.offset;
                        match peek_char(text, next) {
                            Peek::End => {
                                return Err(Fault {
                                    refusal: Refusal::UnclosedComment,
                                    offset: slash,
                                });
                            }
                            Peek::Foreign => {
                                return Err(Fault {
                                    refusal: Refusal::ForeignByte,
                                    offset: next,
                                });
                            }
                            Peek::Byte(d) => {
                                c = skip_char(c, d);
                                if d == b'/' {
                                    break 'comment c;
                                }
                                if d != b'*' {
                                    break;
                                }
                            }
                        }
                    }
                }
            }
        }
    };
    Ok(close)
}

// The bracketed comment whose opening mark stands at the cursor.
fn bracketed_comment(text: &[u8], cursor: Cursor) -> Result<Cursor, Fault>
    requires { Opening text.now cursor }
    ensures { result ≡ moved text.now cursor (bracketed_comment text.now cursor.offset) }
{
    let slash = cursor.offset;
    let inside = slash + 2;
    lookahead_char(text, inside)?;
    comment_text(text, slash, skip_along(cursor, inside))
}

// The comment that the slash at the cursor opens, if it opens one.
fn slash_text(text: &[u8], cursor: Cursor) -> Result<Option<Cursor>, Fault>
    requires { Slash text.now cursor }
    ensures { result ≡ stepped text.now cursor (slashed text.now cursor.offset (lookahead text.now (cursor.offset + 1))) }
{
    let next = cursor.offset + 1;
    if lookahead_char(text, next)? == b'*' {
        Ok(Some(bracketed_comment(text, cursor)?))
    } else {
        Ok(None)
    }
}

// Above the slash, or from the opening parenthesis to the point: no layout begins so, and nearly every token does.
fn begins_no_layout(b: u8) -> bool
    ensures { result ≡ (ltb slash b || within open_paren point b) }
{
    if b'/' < b {
        return true;
    }
    between(b'(', b'.', b)
}

// One layout text.
pub(crate) fn consume_layout(text: &[u8], cursor: Cursor) -> Result<Option<Cursor>, Fault>
    requires { Valid (length text.now) cursor }
    ensures { result ≡ stepped text.now cursor (layout_text text.now cursor.offset) }
{
    let at = cursor.offset;
    let b = lookahead_char(text, at)?;
    if begins_no_layout(b) {
        Ok(None)
    } else if is_layout(b) {
        Ok(Some(skip_char(cursor, b)))
    } else if b == b'%' {
        Ok(Some(single_line_comment(text, skip_char(cursor, b))?))
    } else if b == b'/' {
        slash_text(text, cursor)
    } else {
        Ok(None)
    }
}

// Where layout ends. Spaces are passed over in a run.
pub(crate) fn scan_for_layout(text: &[u8], cursor: Cursor) -> Result<Cursor, Fault>
    requires { Valid (length text.now) cursor }
    ensures { result ≡ moved text.now cursor (layout_end text.now cursor.offset) }
{
    let mut c = cursor;
    loop {
        let at = stretch_end(text, c.offset, b' ', b' ', NONE, NONE);
        c = skip_along(c, at);
        match consume_layout(text, c)? {
            None => return Ok(c),
            Some(next) => {
                c = next;
            }
        }
    }
}
