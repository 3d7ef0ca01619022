// How a case is read. Its header line is `CALL OFFSET LINE COLUMN ROOM LENGTH`, one space between two fields.
ghost use Rattle.std.specs.Prelude.{◌≤◌, IfOk, length};

use crate::Malformed;
use lexer::Cursor;
use pack::Version;

// More digits than a usize can have are refused, so that a header has a largest length.
const MOST_DIGITS: usize = 20;
// The letter of the call, five numbers with a space before each, the newline.
const LARGEST_HEADER: usize = 1 + 5 * (1 + MOST_DIGITS) + 1;

const LARGEST_LENGTH: usize = 70000;
// A header, a body and its newline: what the input buffer has to hold at once.
pub const LARGEST_CASE: usize = LARGEST_HEADER + LARGEST_LENGTH + 1;

// The calls of the tokenizer and of the clause reader. A plural is a run of calls, each from the cursor that the last one gave.
#[derive(Clone, Copy)]
pub enum Reading {
    Token,
    Tokens,
    FieldToken,
    Layouts,
    Text,
    Clause,
    Clauses,
}

// What a case calls.
#[derive(Clone, Copy)]
pub enum Call {
    Read(Reading),
    Deliver,
    Pack(Version),
    Unpack,
    Nodes(Version),
    // to this version
    Move(Version),
}

impl TryFrom<u8> for Call {
    type Error = Malformed;

    fn try_from(letter: u8) -> Result<Self, Malformed> {
        match letter {
            b't' => Ok(Call::Read(Reading::Token)),
            b'T' => Ok(Call::Read(Reading::Tokens)),
            b'n' => Ok(Call::Read(Reading::FieldToken)),
            b'b' => Ok(Call::Read(Reading::Layouts)),
            b'x' => Ok(Call::Read(Reading::Text)),
            b'c' => Ok(Call::Read(Reading::Clause)),
            b'C' => Ok(Call::Read(Reading::Clauses)),
            b's' => Ok(Call::Deliver),
            b'p' => Ok(Call::Pack(Version::One)),
            b'P' => Ok(Call::Pack(Version::Two)),
            b'u' => Ok(Call::Unpack),
            b'k' => Ok(Call::Nodes(Version::One)),
            b'K' => Ok(Call::Nodes(Version::Two)),
            b'm' => Ok(Call::Move(Version::Two)),
            b'M' => Ok(Call::Move(Version::One)),
            _ => Err(Malformed),
        }
    }
}

// A case: what is called, from this cursor, with so much room, on these bytes.
#[derive(Clone, Copy)]
pub struct Case<'a> {
    pub call: Call,
    pub cursor: Cursor,
    pub room: usize,
    pub body: &'a [u8],
}

// The number with one digit more.
fn with_digit(value: usize, digit: u8) -> Option<usize> {
    let digit = char::from(digit).to_digit(10)?;
    value.checked_mul(10)?.checked_add(digit as usize)
}

// The number that all these digits are.
pub(crate) fn whole_number(digits: &[u8]) -> Result<usize, Malformed> {
    if digits.is_empty() {
        return Err(Malformed);
    }
    digits
        .iter()
        .try_fold(0, |value, &digit| with_digit(value, digit))
        .ok_or(Malformed)
}

// The number in front that the byte `stop` ends, and what is behind it.
fn read_number(text: &[u8], stop: u8) -> Result<(usize, &[u8]), Malformed>
    ensures { IfOk result (λ p. length p.1.now ≤ length text.now) }
{
    let end = text
        .iter()
        .take(MOST_DIGITS + 1)
        .position(|&b| b == stop)
        .ok_or(Malformed)?;
    let value = whole_number(&text[..end])?;
    Ok((value, &text[end + 1..]))
}

fn read_call(text: &[u8]) -> Result<(Call, &[u8]), Malformed>
    ensures { IfOk result (λ p. length p.1.now ≤ length text.now) }
{
    let (&[letter, space], rest) = text.split_first_chunk::<2>().ok_or(Malformed)?;
    if space != b' ' {
        return Err(Malformed);
    }
    Ok((Call::try_from(letter)?, rest))
}

fn read_cursor(text: &[u8]) -> Result<(Cursor, &[u8]), Malformed>
    ensures { IfOk result (λ p. length p.1.now ≤ length text.now) }
{
    let (offset, rest) = read_number(text, b' ')?;
    let (line, rest) = read_number(rest, b' ')?;
    let (column, rest) = read_number(rest, b' ')?;
    Ok((
        Cursor {
            offset,
            line,
            column,
        },
        rest,
    ))
}

// As many bytes as the header says and a newline, and what is behind it.
fn read_body(text: &[u8], count: usize) -> Result<(&[u8], &[u8]), Malformed>
    ensures { IfOk result (λ p. length p.1.now ≤ length text.now) }
{
    if count > LARGEST_LENGTH {
        return Err(Malformed);
    }
    let (body, rest) = text.split_at_checked(count).ok_or(Malformed)?;
    match rest.split_first() {
        Some((&b'\n', behind)) => Ok((body, behind)),
        _ => Err(Malformed),
    }
}

// The case in front, and what is behind it.
pub(crate) fn read_case(text: &[u8]) -> Result<(Case<'_>, &[u8]), Malformed>
    ensures { IfOk result (λ p. length p.1.now ≤ length text.now) }
{
    let (call, rest) = read_call(text)?;
    let (cursor, rest) = read_cursor(rest)?;
    let (room, rest) = read_number(rest, b' ')?;
    let (length, rest) = read_number(rest, b'\n')?;
    let (body, behind) = read_body(rest, length)?;
    Ok((
        Case {
            call,
            cursor,
            room,
            body,
        },
        behind,
    ))
}
