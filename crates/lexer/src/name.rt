// Names and variables that are not quoted.
ghost use Rattle.std.specs.Prelude.{ℕ, ◌≡◌, ◌+◌, ◌<◌, drop, length, Ok};
ghost use Rattle.lexer.specs.Chars.{class_of, within, small_letter, decimal_digit, graphic_token_char};
ghost use Rattle.lexer.specs.Look.{lookahead};
ghost use Rattle.lexer.specs.declared.kind.Value.TheVariants.{Nothing};
ghost use Rattle.lexer.specs.Name.{run_stop, run_end, run_token, whole_token, graphic_token, solo_name, symbol_name, word_kind, word_token};

use crate::classes::{is_alphanumeric, is_foreign, is_graphic, is_small};
use crate::kind::{Kind, Plain, Value};
use crate::refusal::{Fault, Refusal};

// A run stops before the byte `b`, unless that is foreign.
fn run_stop(at: usize, b: u8) -> Result<usize, Fault>
    ensures { result ≡ run_stop at (class_of b) }
{
    if is_foreign(b) {
        Err(Fault {
            refusal: Refusal::ForeignByte,
            offset: at,
        })
    } else {
        Ok(at)
    }
}

// The characters that a run goes over.
trait Class {
    ghost low: { ℕ };

    ghost high: { ℕ };

    // Whether a byte's class is from the low one to the high one.
    fn contains(b: u8) -> bool
        ensures { result ≡ within low high (class_of b) };
}

// Letters, digits and underscores.
struct Alphanumeric;

impl Class for Alphanumeric {
    ghost low = { small_letter };

    ghost high = { decimal_digit };

    fn contains(b: u8) -> bool {
        is_alphanumeric(b)
    }
}

struct Graphic;

impl Class for Graphic {
    ghost low = { graphic_token_char };

    ghost high = { graphic_token_char };

    fn contains(b: u8) -> bool {
        is_graphic(b)
    }
}

// Where the characters of the class end.
fn run_end<C: Class>(text: &[u8], from: usize) -> Result<usize, Fault>
    ensures { result ≡ run_end C.low C.high from (drop from text.now) }
{
    for at in from..text.len() {
        let b = text[at];
        if !C::contains(b) {
            return run_stop(at, b);
        }
    }
    Err(Fault {
        refusal: Refusal::EndOfText,
        offset: from.max(text.len()),
    })
}

// A token that ends where a run ends.
fn run_token(kind: Kind, run: Result<usize, Fault>) -> Result<Plain, Fault>
    ensures { result ≡ run_token kind run }
{
    let end = run?;
    Ok(valueless(kind, end))
}

// A token without a value, up to `end`.
pub(crate) fn valueless(kind: Kind, end: usize) -> Plain
    ensures { Ok result ≡ whole_token kind Nothing end }
{
    Plain {
        kind,
        value: Value::Nothing,
        end,
    }
}

pub(crate) fn graphic_token(text: &[u8], at: usize) -> Result<Plain, Fault>
    requires { at < length text.now }
    ensures { result ≡ graphic_token text.now at }
{
    run_token(Kind::Name, run_end::<Graphic>(text, at + 1))
}

// The name that the solo character `b` is, from `at` to `end`, if it is one.
fn solo_name(at: usize, end: usize, b: u8) -> Result<Plain, Fault>
    ensures { result ≡ solo_name at end b }
{
    match b {
        b'!' | b';' => Ok(valueless(Kind::Name, end)),
        _ => Err(Fault {
            refusal: Refusal::NoToken,
            offset: at,
        }),
    }
}

// What a letter or an underscore begins.
fn word_kind(b: u8) -> Kind
    ensures { result ≡ word_kind b }
{
    if is_small(b) {
        Kind::Name
    } else {
        Kind::Variable
    }
}

// The name or variable that the letter or underscore `b` at `at` begins. One loop serves both: the kind is chosen without a branch.
pub(crate) fn word_token(text: &[u8], at: usize, b: u8) -> Result<Plain, Fault>
    requires { at < length text.now }
    ensures { result ≡ word_token text.now at b }
{
    run_token(word_kind(b), run_end::<Alphanumeric>(text, at + 1))
}

// The name that begins with `b`, at `at`, which is no small letter. Whether `b` is graphic, the run itself tells.
pub(crate) fn symbol_name(text: &[u8], at: usize, b: u8) -> Result<Plain, Fault>
    requires { lookahead text.now at ≡ Ok b }
    ensures { result ≡ symbol_name text.now at b }
{
    let end = run_end::<Graphic>(text, at)?;
    if end == at {
        solo_name(at, at + 1, b)
    } else {
        Ok(valueless(Kind::Name, end))
    }
}
