// The fields of a token, of a token with its text, of a layout text and of a clause, in the order of the structs of `include/thrinvage.h`, for the crates
// that make up the C interface. Those of a refusal are left as they were, but for its offset. What is public takes an array whose length is in its type and
// asks for nothing; the private functions serve all lengths, and ask for the room.
#![tactic(auto)]

ghost use Rattle.std.specs.Prelude.{◌≡◌};
ghost use Rattle.std.proofs.lemmas.List.Edits.{sets};
ghost use Rattle.lexer.specs.Refusal.{number_of};
ghost use Rattle.fields.specs.Fields.{cursor_at, leaves, source_of, kind_number, value_kind, value_bits, bits_of, refused_fields, cursor_fields, kind_fields, token_fields, part_fields, count_fields, counted_leaves, layout_number, layout_fields, answer_leaves, answer_text_leaves, layout_leaves, Room};

use lexer::{
    Cursor, Fault, LayoutKind, LayoutRead, Part, Refused, Source, TextRead, Token, TokenRead,
    Value, refusal_number,
};

// Where each struct of the C interface has the offset of a refusal.
const REFUSED_AT: usize = 3;

// What a struct has behind the cursor. Of a layout text: its kind and its start. Of a clause: the nodes of its tree, or the bytes of its line.
const KIND: usize = 4;

const START: usize = 5;

const COUNT: usize = 4;

// The kind of a layout text that is not there.
const NO_LAYOUT: u64 = 0;

// What is returned where nothing is refused.
pub const READ: u32 = 0;

// The number of a field.
const FIELD: u32 = 1;

// What a text is, by its number. Every other than a field's is a file's: the stricter rule. A function and no `From`: neither type is this crate's, and such an
// impl is refused.
pub fn source_of(number: u32) -> Source
    ensures { result ≡ source_of number }
{
    if number == FIELD {
        Source::Field
    } else {
        Source::File
    }
}

// A cursor, by its numbers: C has no other form of it.
pub fn cursor_at(offset: usize, line: usize, column: usize) -> Cursor
    ensures { result ≡ cursor_at offset line column }
{
    Cursor {
        offset,
        line,
        column,
    }
}

// The bits of a double that is no NaN. No token's value is one, since it is nearest to a fraction: the test stands in for carrying that proof here.
fn bits_of(x: f64) -> u64
    ensures { result ≡ bits_of x }
{
    if x.is_nan() { 0 } else { x.to_bits() }
}

// The number of a value's kind, which C reads. A match: variants that hold something have no number of their own.
fn value_kind(value: Value) -> u64
    ensures { result ≡ value_kind value }
{
    match value {
        Value::Nothing => 0,
        Value::Integer(_) => 1,
        Value::Float(_) => 2,
    }
}

// The value, which C reads as one number whatever its kind; 0 where there is none.
fn value_bits(value: Value) -> u64
    ensures { result ≡ value_bits value }
{
    match value {
        Value::Nothing => 0,
        Value::Integer(n) => n,
        Value::Float(x) => bits_of(x),
    }
}

// A refusal's number, as it is returned: C gets a number where Rust gets an enum.
pub fn fault_number(fault: Fault) -> u32
    ensures { result ≡ number_of fault.refusal }
{
    refusal_number(fault.refusal) as u32
}

// A refusal: its offset is put down, and its number handed back.
fn put_refused(fault: Fault, fields: &mut [u64]) -> u32
    requires { Room 5 fields.old }
    ensures { leaves result fields.new ≡ refused_fields fault fields.old }
{
    fields[REFUSED_AT] = fault.offset as u64;
    fault_number(fault)
}

// The cursor behind what was read, and no refusal.
fn cursor_fields(next: Cursor) -> [u64; 4]
    ensures { result ≡ cursor_fields next }
{
    [next.offset as u64, next.line as u64, next.column as u64, 0]
}

// A token's kind, its start, its value and where the layout before it began. A kind's number is its place in the enum.
fn kind_fields(token: Token) -> [u64; 5]
    ensures { result ≡ kind_fields token }
{
    [
        token.kind as u64,
        token.start as u64,
        value_kind(token.value),
        value_bits(token.value),
        token.layout as u64,
    ]
}

fn put_token(token: Token, next: Cursor, fields: &mut [u64])
    requires { Room 9 fields.old }
    ensures { fields.new ≡ sets fields.old 0 (token_fields token next) }
{
    fields[..4].copy_from_slice(&cursor_fields(next));
    fields[4..9].copy_from_slice(&kind_fields(token));
}

// Where a token's text stands.
fn part_fields(part: Part) -> [u64; 3]
    ensures { result ≡ part_fields part }
{
    match part {
        Part::Source { start, end } => [0, start as u64, end as u64],
        Part::Scratch { start, end } => [1, start as u64, end as u64],
    }
}

pub fn put_answer(answer: Result<TokenRead, Refused>, fields: &mut [u64; 9]) -> u32
    ensures { leaves result fields.new ≡ answer_leaves answer fields.old }
{
    match answer {
        Err(refused) => put_refused(refused.fault, fields),
        Ok(TokenRead { token, next }) => {
            put_token(token, next, fields);
            READ
        }
    }
}

pub fn put_text(answer: Result<TextRead, Refused>, fields: &mut [u64; 12]) -> u32
    ensures { leaves result fields.new ≡ answer_text_leaves answer fields.old }
{
    match answer {
        Err(refused) => put_refused(refused.fault, fields),
        Ok(TextRead { token, next, part }) => {
            put_token(token, next, fields);
            fields[9..].copy_from_slice(&part_fields(part));
            READ
        }
    }
}

// The number of a layout text's kind; 0 is that of none.
fn layout_number(kind: LayoutKind) -> u64
    ensures { result ≡ layout_number kind }
{
    kind as u64 + 1
}

// What stands between a start and the cursor behind it, and the number of its kind.
fn put_span(kind: u64, start: usize, next: Cursor, fields: &mut [u64; 6])
    ensures { fields.new ≡ sets fields.old 0 (layout_fields kind start next) }
{
    fields[..4].copy_from_slice(&cursor_fields(next));
    fields[KIND] = kind;
    fields[START] = start as u64;
}

// Where no layout text is, an empty span at the caller's cursor is.
pub fn put_layout(answer: Result<LayoutRead, Refused>, fields: &mut [u64; 6]) -> u32
    ensures { leaves result fields.new ≡ layout_leaves answer fields.old }
{
    match answer {
        Err(refused) => put_refused(refused.fault, fields),
        Ok(LayoutRead::Absent { cursor }) => {
            put_span(NO_LAYOUT, cursor.offset, cursor, fields);
            READ
        }
        Ok(LayoutRead::Text { kind, start, next }) => {
            put_span(layout_number(kind), start, next, fields);
            READ
        }
    }
}

// A refused clause.
pub fn put_fault(fault: Fault, fields: &mut [u64; 5]) -> u32
    ensures { leaves result fields.new ≡ refused_fields fault fields.old }
{
    put_refused(fault, fields)
}

// What was counted of a clause, and the cursor behind it.
pub fn put_count(count: usize, next: Cursor, fields: &mut [u64; 5])
    ensures { fields.new ≡ sets fields.old 0 (count_fields count next) }
{
    fields[..4].copy_from_slice(&cursor_fields(next));
    fields[COUNT] = count as u64;
}

// The one or the other.
pub fn put_counted(answer: Result<(usize, Cursor), Refused>, fields: &mut [u64; 5]) -> u32
    ensures { leaves result fields.new ≡ counted_leaves answer fields.old }
{
    match answer {
        Err(refused) => put_fault(refused.fault, fields),
        Ok((count, next)) => {
            put_count(count, next, fields);
            READ
        }
    }
}
