// Quoted items: escapes, and the text of a quoted token.
ghost use Rattle.std.specs.Prelude.{◌≡◌, length, Err};
ghost use Rattle.std.proofs.lemmas.List.Edits.{sets};
ghost use Rattle.lexer.specs.Cursor.{Valid};
ghost use Rattle.lexer.specs.Digits.{Based};
ghost use Rattle.lexer.specs.Look.{lookahead};
ghost use Rattle.lexer.specs.Refusal.{fault};
ghost use Rattle.lexer.specs.declared.refusal.Refusal.TheVariants.{BadQuoted};
ghost use Rattle.lexer.specs.Quoted.{escape_of, coded, numeric_escape, escape, quote_to, quoted_item, decode, measured, bytes_of, Writes};

use crate::chars::lookahead_char;
use crate::classes::is_quote;
use crate::cursor::{Cursor, skip_along, skip_char};
use crate::digits::{digit, read_digits};
use crate::refusal::{Fault, Refusal};
use crate::stretch::stretch_end;

// One item of a quoted token, with the offset behind it.
#[derive(Clone, Copy)]
pub enum Item {
    Char { code: u8, next: usize },
    Beyond { next: usize },
    Skip { next: usize },
    Close { next: usize },
}

const ALERT: u8 = 7;

const BACKSPACE: u8 = 8;

const VERTICAL_TAB: u8 = 11;

const FORM_FEED: u8 = 12;

// What an escape of one character stands for; 0 where there is none. The letters are tested in three groups: of more at once
// the compiler would make a table.
fn escape_char(b: u8) -> u8
    ensures { result ≡ escape_of b }
{
    if is_quote(b) {
        return b;
    }
    if b == b'\\' {
        return b;
    }
    if b < b'f' {
        return match b {
            b'a' => ALERT,
            b'b' => BACKSPACE,
            _ => 0,
        };
    }
    if b < b's' {
        return match b {
            b'f' => FORM_FEED,
            b'n' => b'\n',
            b'r' => b'\r',
            _ => 0,
        };
    }
    match b {
        b't' => b'\t',
        b'v' => VERTICAL_TAB,
        _ => 0,
    }
}

const LARGEST_CODE: u64 = 127;

// The character of a code, which may be out of limit.
fn code_char(code: u64, next: usize) -> Result<Item, Fault>
    ensures { result ≡ coded code next }
{
    if code == 0 {
        return Ok(Item::Beyond { next });
    }
    if LARGEST_CODE < code {
        return Ok(Item::Beyond { next });
    }
    Ok(Item::Char {
        code: code as u8,
        next,
    })
}

fn bad_quoted(token: usize) -> Result<Item, Fault>
    ensures { result ≡ Err (fault BadQuoted token) }
{
    Err(Fault {
        refusal: Refusal::BadQuoted,
        offset: token,
    })
}

// An octal or hexadecimal escape, whose digits start at `at`.
fn escape_sequence_to_char(text: &[u8], at: usize, base: u64, token: usize) -> Result<Item, Fault>
    requires { Based base 0 }
    ensures { result ≡ numeric_escape base token text.now at }
{
    let read = read_digits(text, at, base, 0);
    let end = read.end;
    if lookahead_char(text, end)? != b'\\' {
        return bad_quoted(token);
    }
    if end == at {
        return bad_quoted(token);
    }
    code_char(read.value, end + 1)
}

// What a backslash before `at` escapes.
fn escape_sequence(text: &[u8], at: usize, token: usize) -> Result<Item, Fault>
    ensures { result ≡ escape token text.now at }
{
    let b = lookahead_char(text, at)?;
    if b == b'\n' {
        return Ok(Item::Skip { next: at + 1 });
    }
    if digit(b) < 8 {
        return escape_sequence_to_char(text, at, 8, token);
    }
    if b == b'x' {
        return escape_sequence_to_char(text, at + 1, 16, token);
    }
    let code = escape_char(b);
    if code == 0 {
        return bad_quoted(token);
    }
    Ok(Item::Char { code, next: at + 1 })
}

// What a quote before `at` is: the first of two, or the closing one.
fn after_quote(text: &[u8], at: usize, quote: u8) -> Result<Item, Fault>
    ensures { result ≡ quote_to quote at (lookahead text.now at) }
{
    if lookahead_char(text, at)? == quote {
        return Ok(Item::Char {
            code: quote,
            next: at + 1,
        });
    }
    Ok(Item::Close { next: at })
}

// The item at `at` of the token at `token`, which `quote` began.
pub(crate) fn quoted_item(text: &[u8], at: usize, quote: u8, token: usize) -> Result<Item, Fault>
    ensures { result ≡ quoted_item quote token text.now at }
{
    let b = lookahead_char(text, at)?;
    if b == b'\n' {
        return bad_quoted(token);
    }
    if b == b'\t' {
        return bad_quoted(token);
    }
    if b == b'\r' {
        return bad_quoted(token);
    }
    if b == quote {
        return after_quote(text, at + 1, quote);
    }
    if b == b'\\' {
        return escape_sequence(text, at + 1, token);
    }
    Ok(Item::Char {
        code: b,
        next: at + 1,
    })
}

// How many bytes a quoted token stands for, and the cursor behind it.
#[derive(Clone, Copy)]
pub struct Measure {
    pub length: usize,
    pub next: Cursor,
}

// The cursor stands behind the opening quote of the token at `token`.
pub(crate) fn measure_quoted(
    text: &[u8],
    cursor: Cursor,
    quote: u8,
    token: usize,
) -> Result<Measure, Fault>
    requires { Valid (length text.now) cursor }
    ensures { result ≡ measured text.now cursor (decode quote token text.now cursor.offset) }
{
    let mut c = cursor;
    let mut n: usize = 0;
    let mut beyond = false;
    loop {
        let at = stretch_end(text, c.offset, b' ', b'~', quote, b'\\');
        n += at - c.offset;
        c = skip_along(c, at);
        match quoted_item(text, at, quote, token)? {
            Item::Close { next } => {
                if beyond {
                    return Err(Fault {
                        refusal: Refusal::OutOfLimit,
                        offset: token,
                    });
                }
                return Ok(Measure {
                    length: n,
                    next: skip_along(c, next),
                });
            }
            Item::Skip { next: _ } => {
                c = skip_char(skip_char(c, b'\\'), b'\n');
            }
            Item::Char { code: _, next } => {
                c = skip_along(c, next);
                n += 1;
            }
            Item::Beyond { next } => {
                c = skip_along(c, next);
                beyond = true;
            }
        }
    }
}

// The decoded bytes, `n` of them, at the front of the scratch. The items start at `from`.
pub(crate) fn write_quoted(
    text: &[u8],
    from: usize,
    quote: u8,
    token: usize,
    n: usize,
    scratch: &mut [u8],
)
    requires { Writes quote token text.now from n (length scratch.old) }
    ensures { scratch.new ≡ sets scratch.old 0 (bytes_of (decode quote token text.now from)) }
{
    let mut at = from;
    let mut i: usize = 0;
    // An item that is skipped writes nothing, so there are more turns than bytes: no `for` counts so.
    while i < n {
        let Ok(item) = quoted_item(text, at, quote, token) else {
            return;
        };
        match item {
            Item::Beyond { next: _ } => return,
            Item::Close { next: _ } => return,
            Item::Skip { next } => {
                at = next;
            }
            Item::Char { code, next } => {
                scratch[i] = code;
                i += 1;
                at = next;
            }
        }
    }
}
