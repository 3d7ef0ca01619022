// Numbers.
ghost use Rattle.std.specs.Prelude.{◌≡◌, ◌+◌, ◌<◌, min, length};
ghost use Rattle.lexer.specs.Digits.{beyond};
ghost use Rattle.lexer.specs.Look.{peek};
ghost use Rattle.lexer.specs.Refusal.{fault};
ghost use Rattle.lexer.specs.declared.refusal.Refusal.TheVariants.{ForeignByte};
ghost use Rattle.lexer.specs.declared.chars.Peek.{Peek};
ghost use Rattle.lexer.specs.Number.{radix_constant, character_code_constant, zero_to, exponent_digits, sign_to, letter_to, exponent, float, fraction, point_to, integer_to, number_token, number_end, held_exponent, held_number, Radix, Read, Led};

use crate::chars::{Peek, lookahead_char, peek_char};
use crate::digits::{BEYOND, Digits, digit, read_digits};
use crate::quoted::{Item, quoted_item};
use crate::refusal::{Fault, Refusal};

// What a number's digits say: an integer; or all digits of a float, whether its exponent has a minus, the exponent, and how many digits are the
// fraction's.
#[derive(Clone, Copy)]
pub enum Numeral {
    Integer(u64),
    Float {
        digits: u64,
        minus: bool,
        exponent: u64,
        fraction: u64,
    },
}

// A number that is whole, or one that reaches the end of the text.
#[derive(Clone, Copy)]
pub enum NumberToken {
    Whole { numeral: Numeral, end: usize },
    Partial { numeral: Numeral, end: usize },
}

// A float's exponent: none; none, with the end of the text; one that is whole, or that reaches the end of the text.
#[derive(Clone, Copy)]
pub enum Exponent {
    Absent,
    Ended,
    Whole { minus: bool, value: u64, end: usize },
    Partial { minus: bool, value: u64, end: usize },
}

fn foreign_byte(offset: usize) -> Fault
    ensures { result ≡ fault ForeignByte offset }
{
    Fault {
        refusal: Refusal::ForeignByte,
        offset,
    }
}

fn integer(value: u64, end: usize) -> NumberToken
    ensures { result ≡ NumberToken.Whole (Numeral.Integer value) end }
{
    NumberToken::Whole {
        numeral: Numeral::Integer(value),
        end,
    }
}

// The hexadecimal, octal or binary constant whose 0 is at `zero`: one body over the base.
fn radix_constant(text: &[u8], zero: usize, base: u64) -> Result<NumberToken, Fault>
    requires { Radix (length text.now) base zero }
    ensures { result ≡ held_number (radix_constant base text.now zero) }
{
    let first = zero + 2;
    let b = lookahead_char(text, first)?;
    if base <= digit(b) {
        return Ok(integer(0, zero + 1));
    }
    let read = read_digits(text, first, base, 0);
    let end = read.end;
    match peek_char(text, end) {
        Peek::Foreign => Err(foreign_byte(end)),
        Peek::End => Ok(integer(read.value, end)),
        Peek::Byte(_) => Ok(integer(read.value, end)),
    }
}

// A character's code. That it is far below what is held is said here once: a plain cast would leave that to the proof of its caller.
fn wide(b: u8) -> u64
    ensures { result ≡ min b beyond }
{
    b as u64
}

// The character code constant whose 0 is at `zero`.
fn character_code_constant(text: &[u8], zero: usize) -> Result<NumberToken, Fault>
    requires { zero + 1 < length text.now }
    ensures { result ≡ held_number (character_code_constant text.now zero) }
{
    match quoted_item(text, zero + 2, b'\'', zero)? {
        Item::Char { code, next } => Ok(integer(wide(code), next)),
        Item::Beyond { next } => Ok(integer(BEYOND, next)),
        Item::Skip { next: _ } => Err(Fault {
            refusal: Refusal::SetAside,
            offset: zero,
        }),
        Item::Close { next: _ } => Ok(integer(0, zero + 1)),
    }
}

// The number whose digits are exactly the 0 at `zero`, behind which stands `b`.
fn zero_led(text: &[u8], zero: usize, b: u8) -> Result<NumberToken, Fault>
    requires { zero + 1 < length text.now }
    ensures { result ≡ held_number (zero_to text.now zero b) }
{
    match b {
        b'x' => radix_constant(text, zero, 16),
        b'o' => radix_constant(text, zero, 8),
        b'b' => radix_constant(text, zero, 2),
        b'\'' => character_code_constant(text, zero),
        _ => Ok(integer(0, zero + 1)),
    }
}

// The exponent's digits, which start at `at`.
fn exponent_digits(text: &[u8], at: usize, minus: bool) -> Result<Exponent, Fault>
    ensures { result ≡ held_exponent (exponent_digits text.now minus at) }
{
    let read = read_digits(text, at, 10, 0);
    let end = read.end;
    let value = read.value;
    match peek_char(text, end) {
        Peek::Foreign => Err(foreign_byte(end)),
        Peek::End => Ok(Exponent::Partial { minus, value, end }),
        Peek::Byte(_) => Ok(Exponent::Whole { minus, value, end }),
    }
}

// Behind the exponent's sign, or its letter where it has no sign.
fn exponent_sign(text: &[u8], at: usize, minus: bool) -> Result<Exponent, Fault>
    ensures { result ≡ held_exponent (sign_to text.now minus at (peek text.now at)) }
{
    match peek_char(text, at) {
        Peek::End => Ok(Exponent::Absent),
        Peek::Foreign => Err(foreign_byte(at)),
        Peek::Byte(b) => {
            if digit(b) < 10 {
                return exponent_digits(text, at, minus);
            }
            Ok(Exponent::Absent)
        }
    }
}

// Behind the exponent's letter.
fn exponent_letter(text: &[u8], at: usize) -> Result<Exponent, Fault>
    ensures { result ≡ held_exponent (letter_to text.now at (peek text.now at)) }
{
    match peek_char(text, at) {
        Peek::End => Ok(Exponent::Absent),
        Peek::Foreign => Err(foreign_byte(at)),
        Peek::Byte(b) => match b {
            b'+' => exponent_sign(text, at + 1, false),
            b'-' => exponent_sign(text, at + 1, true),
            _ => exponent_sign(text, at, false),
        },
    }
}

fn exponent_part(text: &[u8], at: usize) -> Result<Exponent, Fault>
    ensures { result ≡ held_exponent (exponent text.now at) }
{
    match peek_char(text, at) {
        Peek::End => Ok(Exponent::Ended),
        Peek::Foreign => Err(foreign_byte(at)),
        Peek::Byte(b) => match b {
            b'e' | b'E' => exponent_letter(text, at + 1),
            _ => Ok(Exponent::Absent),
        },
    }
}

// A float of those digits, of which `fraction` stand behind the point; they end at `end`.
fn float_token(
    digits: u64,
    fraction: u64,
    end: usize,
    exponent: Result<Exponent, Fault>,
) -> Result<NumberToken, Fault>
    ensures { result ≡ float digits fraction end exponent }
{
    match exponent? {
        Exponent::Absent => Ok(NumberToken::Whole {
            numeral: Numeral::Float {
                digits,
                minus: false,
                exponent: 0,
                fraction,
            },
            end,
        }),
        Exponent::Ended => Ok(NumberToken::Partial {
            numeral: Numeral::Float {
                digits,
                minus: false,
                exponent: 0,
                fraction,
            },
            end,
        }),
        Exponent::Whole { minus, value, end } => Ok(NumberToken::Whole {
            numeral: Numeral::Float {
                digits,
                minus,
                exponent: value,
                fraction,
            },
            end,
        }),
        Exponent::Partial { minus, value, end } => Ok(NumberToken::Partial {
            numeral: Numeral::Float {
                digits,
                minus,
                exponent: value,
                fraction,
            },
            end,
        }),
    }
}

// The float whose integer's digits are `whole`, with a point and a digit behind them.
fn fraction_part(text: &[u8], whole: Digits) -> Result<NumberToken, Fault>
    requires { Read text.now whole }
    ensures { result ≡ held_number (fraction text.now whole) }
{
    let first = whole.end + 1;
    let read = read_digits(text, first, 10, whole.value);
    let end = read.end;
    float_token(
        read.value,
        (end - first) as u64,
        end,
        exponent_part(text, end),
    )
}

// Behind the point: a float, or the integer without the point.
fn point_token(text: &[u8], whole: Digits) -> Result<NumberToken, Fault>
    requires { Read text.now whole }
    ensures { result ≡ held_number (point_to text.now whole (peek text.now (whole.end + 1))) }
{
    let next = whole.end + 1;
    match peek_char(text, next) {
        Peek::End => Ok(integer(whole.value, whole.end)),
        Peek::Foreign => Err(foreign_byte(next)),
        Peek::Byte(b) => {
            if digit(b) < 10 {
                return fraction_part(text, whole);
            }
            Ok(integer(whole.value, whole.end))
        }
    }
}

// The number behind whose leading digits, `whole`, stands `b`.
fn integer_led(text: &[u8], at: usize, whole: Digits, b: u8) -> Result<NumberToken, Fault>
    requires { Led text.now at whole }
    ensures { result ≡ held_number (integer_to text.now at whole (Peek.Byte b)) }
{
    match b {
        b'_' => Err(Fault {
            refusal: Refusal::SetAside,
            offset: at,
        }),
        b'.' => point_token(text, whole),
        _ => {
            if whole.end != at + 1 {
                return Ok(integer(whole.value, whole.end));
            }
            if whole.value != 0 {
                return Ok(integer(whole.value, whole.end));
            }
            zero_led(text, at, b)
        }
    }
}

// The number that the digit at `at` begins.
pub(crate) fn number_token(text: &[u8], at: usize) -> Result<NumberToken, Fault>
    requires { at < length text.now }
    ensures { result ≡ held_number (number_token text.now at) }
{
    let whole = read_digits(text, at, 10, 0);
    let end = whole.end;
    match peek_char(text, end) {
        Peek::End => Ok(NumberToken::Partial {
            numeral: Numeral::Integer(whole.value),
            end,
        }),
        Peek::Foreign => Err(foreign_byte(end)),
        Peek::Byte(b) => integer_led(text, at, whole, b),
    }
}

// 0 where it is refused, as the contract of `number_end` has it, which is public.
fn end_of(number: Result<NumberToken, Fault>) -> usize
    ensures { result ≡ number_end number }
{
    match number {
        Ok(NumberToken::Whole { numeral: _, end }) => end,
        Ok(NumberToken::Partial { numeral: _, end }) => end,
        Err(_) => 0,
    }
}

// Where the number at `at` ends, whatever its value; 0 where it is refused.
pub fn number_end(text: &[u8], at: usize) -> usize
    ensures { result ≡ number_end (number_token text.now at) }
{
    if text.len() <= at {
        return at;
    }
    end_of(number_token(text, at))
}
