// The calls of the tokenizer and of the clause reader, and their answers as lines.
ghost use Rattle.std.specs.Prelude.{◌≤◌};
ghost use Rattle.probe.specs.Room.{largest_room};
ghost use Rattle.probe.specs.Nearer.{Nearer};

use crate::Malformed;
use crate::header::{Case, Reading};
use crate::output::Output;
use lexer::{
    Cursor, Fault, Kind, LayoutKind, LayoutRead, Refused, Source, TextRead, Token, TokenRead, Value,
};
use reader::ClauseRead;

// What is lent is a part of an array of the largest room: there is no heap.
const LARGEST_ROOM: usize = 4096;
// What lent bytes hold before the call.
pub const FILL: u8 = 165;
// What the lent tree holds before the call.
const TREE_FILL: u16 = 43690;

// The names of docs/PROBE.md. A `Display` of the kind would be the lexer's to write.
fn kind_name(kind: Kind) -> &'static str {
    match kind {
        Kind::Name => "name",
        Kind::Variable => "variable",
        Kind::String => "string",
        Kind::Number => "number",
        Kind::Open => "open",
        Kind::OpenCT => "open_ct",
        Kind::Close => "close",
        Kind::OpenList => "open_list",
        Kind::CloseList => "close_list",
        Kind::OpenCurly => "open_curly",
        Kind::CloseCurly => "close_curly",
        Kind::HeadTailSeparator => "bar",
        Kind::DoubleBar => "double_bar",
        Kind::Comma => "comma",
        Kind::End => "end",
    }
}

pub(crate) fn put_cursor(out: &mut Output, cursor: Cursor) {
    out.put_number(cursor.offset as u64);
    out.put_number(cursor.line as u64);
    out.put_number(cursor.column as u64);
}

// The bits of a token's value. A NaN has no fixed bits, and the lexer hands none out: the test stands in for a proof of that. `fields` has the same line:
// shared, it would be a public function of a third crate.
fn bits(x: f64) -> u64 {
    if x.is_nan() { 0 } else { x.to_bits() }
}

// As docs/PROBE.md has it. A `Display` of the value would be the lexer's to write.
fn put_value(out: &mut Output, value: Value) {
    match value {
        Value::Nothing => out.put_text(" -"),
        Value::Integer(n) => out.put_number(n),
        Value::Float(x) => {
            out.put_text(" f");
            out.put_hex(bits(x), 16);
        }
    }
}

// What a `token` and a `text` line begin with: KIND START OFFSET LINE COLUMN.
fn put_token(out: &mut Output, token: Token, next: Cursor) {
    out.put_text(kind_name(token.kind));
    out.put_number(token.start as u64);
    put_cursor(out, next);
}

// What both end with: where the layout before the token began.
fn put_layout_start(out: &mut Output, token: Token) {
    out.put_number(token.layout as u64);
    out.put(b'\n');
}

pub(crate) fn token_line(out: &mut Output, read: TokenRead) {
    out.put_text("token ");
    put_token(out, read.token, read.next);
    put_value(out, read.token.value);
    put_layout_start(out, read.token);
}

pub(crate) fn refused_line(out: &mut Output, refused: Refused) {
    out.put_text("refused");
    out.put_number(u64::from(lexer::refusal_number(refused.fault.refusal)));
    out.put_number(refused.fault.offset as u64);
    put_cursor(out, refused.cursor);
    out.put(b'\n');
}

// The calls that have no caller's cursor.
pub(crate) fn refused_at_start(out: &mut Output, fault: Fault) {
    let cursor = Cursor {
        offset: 0,
        line: 0,
        column: 0,
    };
    refused_line(out, Refused { fault, cursor });
}

// The answer of the token call.
fn token_answer(out: &mut Output, answer: Result<TokenRead, Refused>) {
    match answer {
        Ok(read) => token_line(out, read),
        Err(refused) => refused_line(out, refused),
    }
}

// Token calls of a file, each from the cursor that the last one gave, until one is refused. Each cursor stands behind the one before, so a refusal comes.
fn token_answers(out: &mut Output, text: &[u8], cursor: Cursor) {
    let mut at = cursor;
    loop {
        match lexer::next_token(text, at, Source::File) {
            Ok(read) => {
                token_line(out, read);
                at = read.next;
            }
            Err(refused) => return refused_line(out, refused),
        }
    }
}

fn layout_kind_name(kind: LayoutKind) -> &'static str {
    match kind {
        LayoutKind::Blanks => "blanks",
        LayoutKind::SingleLine => "line_comment",
        LayoutKind::Bracketed => "bracketed_comment",
    }
}

fn layout_line(out: &mut Output, kind: &str, start: usize, next: Cursor) {
    out.put_text("layout ");
    out.put_text(kind);
    out.put_number(start as u64);
    put_cursor(out, next);
    out.put(b'\n');
}

// Layout calls, each from the cursor that the last one gave, until one gives none or is refused. Each cursor stands behind the one before, so that comes.
// Where no layout text is, an empty one of the kind `none` is told.
fn layout_answers(out: &mut Output, text: &[u8], cursor: Cursor) {
    let mut at = cursor;
    loop {
        match lexer::next_layout(text, at) {
            Ok(LayoutRead::Text { kind, start, next }) => {
                layout_line(out, layout_kind_name(kind), start, next);
                at = next;
            }
            Ok(LayoutRead::Absent { cursor }) => {
                return layout_line(out, "none", cursor.offset, cursor);
            }
            Err(refused) => return refused_line(out, refused),
        }
    }
}

fn text_line(out: &mut Output, read: TextRead, shown: &[u8]) {
    out.put_text("text ");
    put_token(out, read.token, read.next);
    out.put(b' ');
    out.put_pairs(shown);
    put_layout_start(out, read.token);
}

// The text call and the show call.
fn text_answer(out: &mut Output, case: Case<'_>)
    requires { case.room ≤ largest_room }
{
    let mut lent = [FILL; LARGEST_ROOM];
    let scratch = &mut lent[..case.room];
    match lexer::next_token_text(case.body, case.cursor, scratch) {
        Ok(read) => text_line(out, read, lexer::show(case.body, scratch, read.part)),
        Err(refused) => refused_line(out, refused),
    }
    out.put_text("scratch ");
    out.put_pairs(scratch);
    out.put(b'\n');
}

// What was counted of a clause, nodes or bytes, and the cursor behind it.
pub(crate) fn counted_line(out: &mut Output, name: &str, count: usize, next: Cursor) {
    out.put_text(name);
    out.put_number(count as u64);
    put_cursor(out, next);
    out.put(b'\n');
}

// The answer of the clause call, and the tree that it left.
fn clause_lines(out: &mut Output, answer: Result<ClauseRead, Refused>, tree: &[u16]) {
    match answer {
        Ok(read) => counted_line(out, "clause", read.nodes, read.next),
        Err(refused) => refused_line(out, refused),
    }
    out.put_text("tree");
    out.put_numbers(tree);
    out.put(b'\n');
}

// The clause call, with this tree, filled anew.
fn clause_call(
    out: &mut Output,
    text: &[u8],
    cursor: Cursor,
    tree: &mut [u16],
) -> Result<ClauseRead, Refused>
    ensures { Nearer text.now cursor result }
{
    tree.fill(TREE_FILL);
    let answer = reader::read_clause(text, cursor, tree);
    clause_lines(out, answer, tree);
    answer
}

fn clause_answer(out: &mut Output, case: Case<'_>)
    requires { case.room ≤ largest_room }
{
    let mut lent = [TREE_FILL; LARGEST_ROOM];
    let _ = clause_call(out, case.body, case.cursor, &mut lent[..case.room]);
}

// Clause calls, each from the cursor that the last one gave, until one is refused. Each cursor stands behind the one before, so a refusal comes.
fn clause_answers(out: &mut Output, case: Case<'_>)
    requires { case.room ≤ largest_room }
{
    let mut lent = [TREE_FILL; LARGEST_ROOM];
    let tree = &mut lent[..case.room];
    let text = case.body;
    let mut at = case.cursor;
    while let Ok(read) = clause_call(out, text, at, tree) {
        at = read.next;
    }
}

// The answers to one case whose room is admitted.
fn put_answers(out: &mut Output, reading: Reading, case: Case<'_>)
    requires { case.room ≤ largest_room }
{
    let text = case.body;
    let cursor = case.cursor;
    match reading {
        Reading::Token => token_answer(out, lexer::next_token(text, cursor, Source::File)),
        Reading::Tokens => token_answers(out, text, cursor),
        Reading::FieldToken => token_answer(out, lexer::next_token(text, cursor, Source::Field)),
        Reading::Layouts => layout_answers(out, text, cursor),
        Reading::Text => text_answer(out, case),
        Reading::Clause => clause_answer(out, case),
        Reading::Clauses => clause_answers(out, case),
    }
}

// The answers to one case of these calls.
pub(crate) fn reading_case(
    out: &mut Output,
    reading: Reading,
    case: Case<'_>,
) -> Result<(), Malformed> {
    if case.room > LARGEST_ROOM {
        return Err(Malformed);
    }
    put_answers(out, reading, case);
    Ok(())
}
