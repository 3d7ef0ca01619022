// Tokens, and the token call.
ghost use Rattle.std.specs.Prelude.{◌≡◌, true, false, cond, ◌+◌, ◌<◌, eqb, length, Ok, Some};
ghost use Rattle.lexer.specs.Chars.{single_quote};
ghost use Rattle.lexer.specs.Cursor.{Valid, move_to};
ghost use Rattle.lexer.specs.Refusal.{fault};
ghost use Rattle.lexer.specs.declared.refusal.Refusal.TheVariants.{NoToken, OutOfLimit};
ghost use Rattle.lexer.specs.declared.token.Source.TheVariants.{File};
ghost use Rattle.lexer.specs.declared.kind.Kind.TheVariants.{Name, String};
ghost use Rattle.lexer.specs.Number.{number_token};
ghost use Rattle.lexer.specs.Quoted.{decode};
ghost use Rattle.lexer.specs.Look.{lookahead};
ghost use Rattle.lexer.specs.Token.{mark, is_mark, bar_token, end_token, valued, numbered, sourced, plain_token, text_of, kept, plain_lexeme, quoted_to, quoted_lexeme, lexeme_to, behind_layout, token_since, read_lexeme, answered, not_valid, token_here, next_token, spelled_to, found, At, AtDigit, Unmarked, Begins, Quotes, Passing};

use crate::chars::{Peek, lookahead_char, peek_char};
use crate::classes::{between, is_alphabetic, is_digit, is_layout, is_quote};
use crate::cursor::{Cursor, is_valid, skip_along, skip_char};
use crate::digits::BEYOND;
use crate::float::float_value;
use crate::kind::{Kind, Plain, Value};
use crate::layout::scan_for_layout;
use crate::name::{graphic_token, symbol_name, valueless, word_token};
use crate::number::{NumberToken, Numeral, number_token};
use crate::quoted::{Measure, measure_quoted};
use crate::refusal::{Fault, Refusal, Refused};

// A token, whose span ends where the cursor behind it stands. The layout before it, perhaps none, began at `layout`.
#[derive(Clone, Copy)]
pub struct Token {
    pub kind: Kind,
    pub value: Value,
    pub start: usize,
    pub layout: usize,
}

// What the text is: a file, or what was typed into a field, where a number may reach the end.
#[derive(Clone, Copy)]
pub enum Source {
    File,
    Field,
}

// What the token call answers: a token, and the cursor behind it.
#[derive(Clone, Copy)]
pub struct TokenRead {
    pub token: Token,
    pub next: Cursor,
}

// ( ) , [ ] { }
fn is_mark(b: u8) -> bool
    ensures { result ≡ is_mark (mark false b) }
{
    if between(b'(', b')', b) {
        return true;
    }
    if b == b',' {
        return true;
    }
    if between(b'[', b']', b) {
        return b != b'\\';
    }
    if between(b'{', b'}', b) {
        return b != b'|';
    }
    false
}

// The kind of a mark. By the marks' order, so that the compiler chooses a value and makes no jump.
fn mark_kind(b: u8, layout: bool) -> Kind
    requires { is_mark (mark false b) ≡ true }
    ensures { Some result ≡ mark layout b }
{
    if b < b')' {
        return if layout { Kind::Open } else { Kind::OpenCT };
    }
    if b < b',' {
        return Kind::Close;
    }
    if b < b'[' {
        return Kind::Comma;
    }
    if b < b']' {
        return Kind::OpenList;
    }
    if b < b'{' {
        return Kind::CloseList;
    }
    if b < b'}' {
        return Kind::OpenCurly;
    }
    Kind::CloseCurly
}

fn mark_of(b: u8, layout: bool) -> Option<Kind>
    ensures { result ≡ mark layout b }
{
    if is_mark(b) {
        Some(mark_kind(b, layout))
    } else {
        None
    }
}

// The bar at `at`, or two.
fn bar_token(text: &[u8], at: usize) -> Result<Plain, Fault>
    requires { at < length text.now }
    ensures { result ≡ bar_token text.now at }
{
    let next = at + 1;
    if lookahead_char(text, next)? == b'|' {
        Ok(valueless(Kind::DoubleBar, at + 2))
    } else {
        Ok(valueless(Kind::HeadTailSeparator, next))
    }
}

// The point at `at`: the end mark, with a newline behind it, or a name.
fn end_token(text: &[u8], at: usize) -> Result<Plain, Fault>
    requires { at < length text.now }
    ensures { result ≡ end_token text.now at }
{
    let next = at + 1;
    match peek_char(text, next) {
        Peek::End => Ok(valueless(Kind::End, next)),
        Peek::Foreign => Err(Fault {
            refusal: Refusal::ForeignByte,
            offset: next,
        }),
        Peek::Byte(b) => {
            if b == b'\n' {
                Ok(valueless(Kind::End, at + 2))
            } else if is_layout(b) {
                Ok(valueless(Kind::End, next))
            } else if b == b'%' {
                Ok(valueless(Kind::End, next))
            } else {
                graphic_token(text, at)
            }
        }
    }
}

fn out_of_limit(at: usize) -> Fault
    ensures { result ≡ fault OutOfLimit at }
{
    Fault {
        refusal: Refusal::OutOfLimit,
        offset: at,
    }
}

// The value of the numeral at `at`, if it is within its limit.
fn number_value(at: usize, end: usize, numeral: Numeral) -> Result<Plain, Fault>
    ensures { result ≡ valued at end numeral }
{
    match numeral {
        Numeral::Integer(n) => {
            if n < BEYOND {
                Ok(Plain {
                    kind: Kind::Number,
                    value: Value::Integer(n),
                    end,
                })
            } else {
                Err(out_of_limit(at))
            }
        }
        Numeral::Float {
            digits,
            minus,
            exponent,
            fraction,
        } => match float_value(digits, minus, exponent, fraction) {
            Some(v) => Ok(Plain {
                kind: Kind::Number,
                value: Value::Float(v),
                end,
            }),
            None => Err(out_of_limit(at)),
        },
    }
}

// In a field a number that reaches the end of the text is whole.
fn in_source(number: Result<NumberToken, Fault>, source: Source) -> Result<NumberToken, Fault>
    ensures { result ≡ sourced source number }
{
    match source {
        Source::File => number,
        Source::Field => match number? {
            NumberToken::Whole { numeral, end } => Ok(NumberToken::Whole { numeral, end }),
            NumberToken::Partial { numeral, end } => Ok(NumberToken::Whole { numeral, end }),
        },
    }
}

// The number that the digit at `at` begins. One call serves whole numbers of both sources, so that the compiler lays it in.
fn whole_number(text: &[u8], at: usize, source: Source) -> Result<Plain, Fault>
    requires { AtDigit text.now at }
    ensures { result ≡ numbered at (sourced source (number_token text.now at)) }
{
    match in_source(number_token(text, at), source)? {
        NumberToken::Whole { numeral, end } => number_value(at, end, numeral),
        NumberToken::Partial { numeral: _, end } => Err(Fault {
            refusal: Refusal::EndOfText,
            offset: end,
        }),
    }
}

// The token at `at` that begins with `b`, which is no mark and begins no word.
fn unmarked_token(text: &[u8], at: usize, source: Source, b: u8) -> Result<Plain, Fault>
    requires { Unmarked text.now at b }
    ensures { result ≡ plain_token source text.now at false b }
{
    if is_digit(b) {
        whole_number(text, at, source)
    } else if b == b'.' {
        end_token(text, at)
    } else if b == b'|' {
        bar_token(text, at)
    } else {
        symbol_name(text, at, b)
    }
}

// The token at `at` that begins with `b` and is not quoted. Words and marks come first: they are nearly all tokens.
fn plain_read(text: &[u8], at: usize, layout: bool, source: Source, b: u8) -> Result<Plain, Fault>
    requires { At text.now at b }
    ensures { result ≡ plain_token source text.now at layout b }
{
    if is_alphabetic(b) {
        return word_token(text, at, b);
    }
    match mark_of(b, layout) {
        Some(kind) => Ok(valueless(kind, at + 1)),
        None => unmarked_token(text, at, source, b),
    }
}

// What a token's text is: its own bytes, so many decoded ones, or none. Three outcomes, and the text call does another thing for each, so no Option.
#[derive(Clone, Copy)]
pub enum Spelling {
    Source,
    Decoded(usize),
    Absent,
}

// A token with its spelling and the cursor behind it. The cursor's fields stand apart: side by side the processor would
// be made to load two at once that were stored one by one, and wait until they have reached the cache.
#[derive(Clone, Copy)]
pub struct Found {
    pub offset: usize,
    pub token: Token,
    pub line: usize,
    pub spelling: Spelling,
    pub column: usize,
}

fn spelled(token: Token, spelling: Spelling, next: Cursor) -> Found
    ensures { Ok result ≡ spelled_to token spelling next }
{
    Found {
        offset: next.offset,
        token,
        line: next.line,
        spelling,
        column: next.column,
    }
}

// Of a token that is not quoted. No `From`: a quoted name has the same kind and another spelling.
fn spelling_of(kind: Kind) -> Spelling
    ensures { result ≡ kept (text_of kind) }
{
    match kind {
        Kind::Name | Kind::Variable => Spelling::Source,
        _ => Spelling::Absent,
    }
}

// The cursor behind a token that is not quoted: only its last character can be a newline, the end mark's.
fn past_token(text: &[u8], c: Cursor, end: usize) -> Cursor
    requires { Passing text.now c end }
    ensures { result ≡ move_to text.now c end }
{
    let last = end - 1;
    skip_char(skip_along(c, last), text[last])
}

// The token at the cursor that begins with `b` and is not quoted.
fn plain_found(text: &[u8], c: Cursor, layout: bool, source: Source, b: u8) -> Result<Found, Fault>
    requires { Begins text.now c b }
    ensures { result ≡ found text.now c (plain_lexeme c.offset (plain_token source text.now c.offset layout b)) }
{
    let at = c.offset;
    let Plain { kind, value, end } = plain_read(text, at, layout, source, b)?;
    Ok(spelled(
        Token {
            kind,
            value,
            start: at,
            layout: at,
        },
        spelling_of(kind),
        past_token(text, c, end),
    ))
}

// The quoted token at the cursor, which `quote` begins.
fn quoted_token(text: &[u8], c: Cursor, quote: u8, kind: Kind) -> Result<Found, Fault>
    requires { Begins text.now c quote }
    ensures { result ≡ found text.now c (quoted_to kind c.offset (decode quote c.offset text.now (c.offset + 1))) }
{
    let at = c.offset;
    let Measure { length, next } = measure_quoted(text, skip_char(c, quote), quote, at)?;
    Ok(spelled(
        Token {
            kind,
            value: Value::Nothing,
            start: at,
            layout: at,
        },
        Spelling::Decoded(length),
        next,
    ))
}

pub(crate) fn no_token(at: usize) -> Fault
    ensures { result ≡ fault NoToken at }
{
    Fault {
        refusal: Refusal::NoToken,
        offset: at,
    }
}

// What a single or a double quote begins.
fn quoted_kind(b: u8) -> Kind
    ensures { result ≡ cond (eqb b single_quote) Name String }
{
    if b == b'\'' { Kind::Name } else { Kind::String }
}

// The token at the cursor that begins with the quote `b`; a back quote begins none. One call serves the two others: the
// kind is chosen without a branch.
fn quoted_found(text: &[u8], c: Cursor, b: u8) -> Result<Found, Fault>
    requires { Quotes text.now c b }
    ensures { result ≡ found text.now c (quoted_lexeme text.now c.offset b) }
{
    if b == b'`' {
        Err(no_token(c.offset))
    } else {
        quoted_token(text, c, b, quoted_kind(b))
    }
}

// The token at the cursor.
fn token_at(text: &[u8], c: Cursor, layout: bool, source: Source) -> Result<Found, Fault>
    requires { Valid (length text.now) c }
    ensures { result ≡ found text.now c (lexeme_to source text.now c.offset layout (lookahead text.now c.offset)) }
{
    let b = lookahead_char(text, c.offset)?;
    if is_quote(b) {
        quoted_found(text, c, b)
    } else {
        plain_found(text, c, layout, source, b)
    }
}

// The token behind the layout at a valid cursor.
pub(crate) fn read_token(text: &[u8], cursor: Cursor, source: Source) -> Result<Found, Fault>
    requires { Valid (length text.now) cursor }
    ensures { result ≡ found text.now cursor (behind_layout source text.now cursor.offset) }
{
    let c = scan_for_layout(text, cursor)?;
    token_at(text, c, cursor.offset < c.offset, source)
}

// The token, with the layout before it that began at `from`. It is put in where the token is handed out, as in the definition.
pub(crate) fn token_since(token: Token, from: usize) -> Token
    ensures { result ≡ token_since from token }
{
    let kind = token.kind;
    let value = token.value;
    Token {
        kind,
        value,
        start: token.start,
        layout: from,
    }
}

// What the token call answers at a valid cursor.
fn answer_at(text: &[u8], cursor: Cursor, source: Source) -> Result<TokenRead, Refused>
    requires { Valid (length text.now) cursor }
    ensures { result ≡ answered text.now cursor (read_lexeme source text.now cursor.offset) }
{
    match read_token(text, cursor, source) {
        Err(fault) => Err(Refused { fault, cursor }),
        Ok(
            Found {
                offset,
                token,
                line,
                spelling: _,
                column,
            },
        ) => Ok(TokenRead {
            token: token_since(token, cursor.offset),
            next: Cursor {
                offset,
                line,
                column,
            },
        }),
    }
}

// The token of a file at a valid cursor.
fn answer_here(text: &[u8], cursor: Cursor, layout: bool) -> Result<TokenRead, Refused>
    requires { Valid (length text.now) cursor }
    ensures { result ≡ answered text.now cursor (lexeme_to File text.now cursor.offset layout (lookahead text.now cursor.offset)) }
{
    match token_at(text, cursor, layout, Source::File) {
        Err(fault) => Err(Refused { fault, cursor }),
        Ok(
            Found {
                offset,
                token,
                line,
                spelling: _,
                column,
            },
        ) => Ok(TokenRead {
            token,
            next: Cursor {
                offset,
                line,
                column,
            },
        }),
    }
}

// The token of a file at the cursor, where no layout is passed over; `layout` says whether layout stands before it.
pub fn token_here(text: &[u8], cursor: Cursor, layout: bool) -> Result<TokenRead, Refused>
    ensures { result ≡ token_here layout text.now cursor }
{
    if is_valid(text.len(), cursor) {
        answer_here(text, cursor, layout)
    } else {
        Err(Refused {
            fault: not_valid(),
            cursor,
        })
    }
}

// Refusal 8.
pub(crate) fn not_valid() -> Fault
    ensures { result ≡ not_valid }
{
    Fault {
        refusal: Refusal::NotValid,
        offset: 0,
    }
}

// The token call.
pub fn next_token(text: &[u8], cursor: Cursor, source: Source) -> Result<TokenRead, Refused>
    ensures { result ≡ next_token source text.now cursor }
{
    if is_valid(text.len(), cursor) {
        answer_at(text, cursor, source)
    } else {
        Err(Refused {
            fault: not_valid(),
            cursor,
        })
    }
}
