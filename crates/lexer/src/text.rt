// The text call and the show call.
ghost use Rattle.std.specs.Prelude.{◌+◌, ◌≡◌, length};
ghost use Rattle.lexer.specs.Cursor.{Valid};
ghost use Rattle.lexer.specs.Quoted.{decode};
ghost use Rattle.lexer.specs.Refusal.{fault};
ghost use Rattle.lexer.specs.declared.refusal.Refusal.TheVariants.{NoRoom};
ghost use Rattle.lexer.specs.Text.{leaves, counts, token_text, next_token_text, counted_text, quoted_text, seen, shown, Reads, Begins};
ghost use Rattle.lexer.specs.declared.token.Spelling.{Spelling};

use crate::chars::lookahead_char;
use crate::cursor::{Cursor, is_valid};
use crate::quoted::{measure_quoted, write_quoted};
use crate::refusal::{Fault, Refusal, Refused};
use crate::token::{Found, Source, Spelling, Token, no_token, not_valid, read_token, token_since};

// A part of the source text, or of the scratch.
#[derive(Clone, Copy)]
pub enum Part {
    Source { start: usize, end: usize },
    Scratch { start: usize, end: usize },
}

// What the text call answers: a token, the cursor behind it, and its text.
#[derive(Clone, Copy)]
pub struct TextRead {
    pub token: Token,
    pub next: Cursor,
    pub part: Part,
}

// The bytes of the quoted token at `at` do not fit in the scratch.
fn no_room(at: usize) -> Fault
    ensures { result ≡ fault NoRoom at }
{
    Fault {
        refusal: Refusal::NoRoom,
        offset: at,
    }
}

// A quoted token of `n` bytes: they are decoded to the front of the scratch.
fn decoded_text(
    text: &[u8],
    cursor: Cursor,
    token: Token,
    n: usize,
    next: Cursor,
    scratch: &mut [u8],
) -> Result<TextRead, Refused>
    requires { Reads text.now cursor token (Spelling.Decoded n) next }
    ensures { leaves result scratch.new ≡ token_text text.now cursor scratch.old }
{
    let start = token.start;
    if scratch.len() < n {
        return Err(Refused {
            fault: no_room(start),
            cursor,
        });
    }
    write_quoted(text, start + 1, text[start], start, n, scratch);
    Ok(TextRead {
        token,
        next,
        part: Part::Scratch { start: 0, end: n },
    })
}

// The text of a token that was read, by its spelling.
fn token_text(
    text: &[u8],
    cursor: Cursor,
    token: Token,
    spelling: Spelling,
    next: Cursor,
    scratch: &mut [u8],
) -> Result<TextRead, Refused>
    requires { Reads text.now cursor token spelling next }
    ensures { leaves result scratch.new ≡ token_text text.now cursor scratch.old }
{
    match spelling {
        Spelling::Absent => Err(Refused {
            fault: Fault {
                refusal: Refusal::NoText,
                offset: token.start,
            },
            cursor,
        }),
        Spelling::Source => Ok(TextRead {
            token,
            next,
            part: Part::Source {
                start: token.start,
                end: next.offset,
            },
        }),
        Spelling::Decoded(n) => decoded_text(text, cursor, token, n, next, scratch),
    }
}

// The text of the token at a valid cursor.
fn text_at(text: &[u8], cursor: Cursor, scratch: &mut [u8]) -> Result<TextRead, Refused>
    requires { Valid (length text.now) cursor }
    ensures { leaves result scratch.new ≡ token_text text.now cursor scratch.old }
{
    match read_token(text, cursor, Source::File) {
        Err(fault) => Err(Refused { fault, cursor }),
        Ok(
            Found {
                offset,
                token,
                line,
                spelling,
                column,
            },
        ) => token_text(
            text,
            cursor,
            token_since(token, cursor.offset),
            spelling,
            Cursor {
                offset,
                line,
                column,
            },
            scratch,
        ),
    }
}

// The text call: a quoted item is decoded to the front of the scratch, which a refusal leaves as it was.
pub fn next_token_text(text: &[u8], cursor: Cursor, scratch: &mut [u8]) -> Result<TextRead, Refused>
    ensures { leaves result scratch.new ≡ next_token_text text.now cursor scratch.old }
{
    if is_valid(text.len(), cursor) {
        return text_at(text, cursor, scratch);
    }
    Err(Refused {
        fault: not_valid(),
        cursor,
    })
}

// The quoted token that `quote` begins at `start`: its bytes are decoded to the front of the scratch, where there is room.
fn quoted_bytes(text: &[u8], start: usize, quote: u8, scratch: &mut [u8]) -> Result<usize, Fault>
    requires { Begins text.now start }
    ensures { counts result scratch.new ≡ counted_text start scratch.old (decode quote start text.now (start + 1)) }
{
    let inside = Cursor {
        offset: start + 1,
        line: 0,
        column: 0,
    };
    let length = measure_quoted(text, inside, quote, start)?.length;
    if scratch.len() < length {
        return Err(no_room(start));
    }
    write_quoted(text, start + 1, quote, start, length, scratch);
    Ok(length)
}

// The quoted-text call, for a caller who knows where a quoted token begins: its bytes are decoded to the front of the scratch, which a refusal
// leaves as it was.
pub fn quoted_text(text: &[u8], start: usize, scratch: &mut [u8]) -> Result<usize, Fault>
    ensures { counts result scratch.new ≡ quoted_text text.now start scratch.old }
{
    let here = Cursor {
        offset: start,
        line: 0,
        column: 0,
    };
    if !is_valid(text.len(), here) {
        return Err(not_valid());
    }
    let b = lookahead_char(text, start)?;
    match b {
        b'\'' | b'"' => quoted_bytes(text, start, b, scratch),
        _ => Err(no_token(start)),
    }
}

// The show call: the part itself, uncopied; where it is not there, the empty part at the front of the text. The contract fixes the place, too.
pub fn show<'a>(text: &'a [u8], scratch: &'a [u8], part: Part) -> &'a [u8]
    ensures { seen result ≡ shown text.entry scratch.entry part }
{
    match part {
        Part::Source { start, end } => {
            if end < start {
                return &text[0..0];
            }
            if text.len() < end {
                return &text[0..0];
            }
            &text[start..end]
        }
        Part::Scratch { start, end } => {
            if end < start {
                return &text[0..0];
            }
            if scratch.len() < end {
                return &text[0..0];
            }
            &scratch[start..end]
        }
    }
}
