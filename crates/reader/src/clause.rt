// The clause call.
ghost use Rattle.std.specs.Prelude.{◌≡◌, true, cond, ◌-◌, ◌≤◌, length, Err};
ghost use Rattle.lexer.specs.Cursor.{valid};
ghost use Rattle.lexer.specs.Refusal.{fault, refused_at};
ghost use Rattle.lexer.specs.declared.refusal.Refusal.TheVariants.{NoReading};
ghost use Rattle.reader.specs.Token.{is_lowest};
ghost use Rattle.reader.specs.Ops.{operators};
ghost use Rattle.reader.specs.Roles.{roles_of};
ghost use Rattle.reader.specs.Machine as M;
ghost use Rattle.reader.specs.Layout.{sight_of, state_of, out_of};
ghost use Rattle.reader.specs.Clause.{most_tokens, is_end, clause_tokens, first_offset, Outcome};
ghost use Rattle.reader.specs.Gather.{few_tokens, token_from, sight_from, dead_mode, clause_run, result_of, came, nodes_of, written, by_nodes, by_tokens, by_result, leaves, left_by, quoted_bytes, ReadFrom, NameFrom, QuotedAt, Taking, Beginning, GoingOn, Longer, Finished, Finishing};
ghost use Rattle.reader.specs.declared.clause.Failure.{Failure};

use crate::machine::{Mode, Sight, Stop, put_tree, start, step};
use crate::ops::roles_of;
use crate::roles::{NO_ROLES, Roles};
use lexer::{
    Cursor, Fault, Kind, LARGEST_MAGNITUDE, Refusal, Refused, Source, Token, TokenRead, Value,
    copy_slice, is_valid, next_token, quoted_text,
};

// The nodes of a clause, and the cursor behind it.
#[derive(Clone, Copy)]
pub struct ClauseRead {
    pub nodes: usize,
    pub next: Cursor,
}

// No operator's name is longer.
const LONGEST_NAME: usize = 3;

// The roles of the quoted name at `start`: what does not fit in the scratch, an array, since there is no heap, is no operator.
fn quoted_roles(text: &[u8], start: usize) -> Roles
    requires { QuotedAt text.now start }
    ensures { result ≡ roles_of operators (quoted_bytes text.now start) }
{
    let mut scratch = [0u8; LONGEST_NAME];
    match quoted_text(text, start, &mut scratch) {
        Err(_) => NO_ROLES,
        Ok(length) => roles_of(&scratch, 0, length),
    }
}

// The roles of the name that was read at the cursor. It is quoted exactly if a single quote begins it.
fn name_roles(text: &[u8], c: Cursor, token: Token, next: Cursor) -> Roles
    requires { NameFrom text.now c token next }
    ensures { result ≡ roles_of operators (token_from text.now c).text }
{
    let start = token.start;
    if text[start] == b'\'' {
        return quoted_roles(text, start);
    }
    roles_of(text, start, next.offset)
}

// What the machine sees of a name.
fn see_name(text: &[u8], c: Cursor, token: Token, next: Cursor) -> Sight
    requires { NameFrom text.now c token next }
    ensures { sight_of result ≡ sight_from text.now c }
{
    Sight::Name {
        end: next.offset,
        roles: name_roles(text, c, token, next),
    }
}

// Has it the magnitude of the lowest integer, which stands only behind its minus?
fn is_lowest(value: Value) -> bool
    ensures { result ≡ is_lowest value }
{
    match value {
        Value::Integer(n) => n == LARGEST_MAGNITUDE,
        _ => false,
    }
}

// What the machine sees of the token that was read at the cursor.
fn see_token(text: &[u8], c: Cursor, token: Token, next: Cursor) -> Sight
    requires { ReadFrom text.now c token next }
    ensures { sight_of result ≡ sight_from text.now c }
{
    match token.kind {
        Kind::Name => see_name(text, c, token, next),
        Kind::Variable | Kind::String => Sight::VarOrString,
        Kind::Number => Sight::Number {
            start: token.start,
            lowest: is_lowest(token.value),
        },
        Kind::Open => Sight::Round(false),
        Kind::OpenCT => Sight::Round(true),
        Kind::Close => Sight::Stop(Stop::Close),
        Kind::OpenList => Sight::Square,
        Kind::CloseList => Sight::Stop(Stop::CloseList),
        Kind::OpenCurly => Sight::Brace,
        Kind::CloseCurly => Sight::Stop(Stop::CloseCurly),
        Kind::HeadTailSeparator => Sight::Stop(Stop::Bar),
        Kind::DoubleBar => Sight::Stop(Stop::DoubleBar),
        Kind::Comma => Sight::Stop(Stop::Comma),
        Kind::End => Sight::Stop(Stop::EndMark),
    }
}

pub(crate) fn is_end(kind: Kind) -> bool
    ensures { result ≡ is_end kind }
{
    matches!(kind, Kind::End)
}

// Where the last token starts that the machine took alive: this one, at an offset, or, where it is dead already, the one before. Of a clause that is refused
// with 11 it is the first token that cannot stand.
fn last_alive(mode: Mode, latest: usize, at: usize) -> usize
    ensures { result ≡ cond (dead_mode mode) latest at }
{
    match mode {
        Mode::Dead => latest,
        _ => at,
    }
}

// The machine behind tokens of a clause: where the last starts that it took alive, the cursor behind them, and whether an end mark is their last.
#[derive(Clone, Copy)]
pub struct Taken {
    pub latest: usize,
    pub mode: Mode,
    pub next: Cursor,
    pub whole: bool,
}

// The tokens from one index to another, or to an end mark before it, are read and put to the machine, one after the other. The loop hands the mode
// round by itself: through an enum of a turn's ways out the compiler would copy it in memory at each token.
fn take_tokens(
    text: &[u8],
    before: Taken,
    from: u16,
    to: u16,
    frames: &mut [u64],
    nodes: &mut [u32],
) -> Result<Taken, Fault>
    requires { Taking text.now before.next from to before.mode frames.old nodes.old }
    ensures { result_of result frames.new nodes.new ≡ clause_run (to - from) from before.latest (state_of before.mode frames.old nodes.old) text.now before.next }
{
    let mut mode = before.mode;
    let mut c = before.next;
    let mut latest = before.latest;
    for index in from..to {
        match next_token(text, c, Source::File) {
            Err(refused) => return Err(refused.fault),
            Ok(TokenRead { token, next }) => {
                latest = last_alive(mode, latest, token.start);
                let sight = see_token(text, c, token, next);
                mode = step(mode, index, sight, frames, nodes);
                if is_end(token.kind) {
                    return Ok(Taken {
                        latest,
                        mode,
                        next,
                        whole: true,
                    });
                }
                c = next;
            }
        }
    }
    Ok(Taken {
        latest,
        mode,
        next: c,
        whole: false,
    })
}

// The tokens from the first on, up to an index.
fn first_tokens(
    text: &[u8],
    cursor: Cursor,
    to: u16,
    frames: &mut [u64],
    nodes: &mut [u32],
) -> Result<Taken, Fault>
    requires { Beginning text.now cursor to frames.old nodes.old }
    ensures { result_of result frames.new nodes.new ≡ clause_run to 0 0 M.start text.now cursor }
{
    let before = Taken {
        latest: 0,
        mode: start(frames, nodes),
        next: cursor,
        whole: false,
    };
    take_tokens(text, before, 0, to, frames, nodes)
}

// The offset of the first token; 0 where none can be read, as in the definition. It goes by the machine's loop, which takes this token alive: a second place
// that calls the token call would keep the compiler from laying that call into the loop.
pub(crate) fn first_offset(text: &[u8], cursor: Cursor) -> usize
    requires { valid (length text.now) cursor ≡ true }
    ensures { result ≡ first_offset text.now cursor }
{
    // Room for one token: arrays, since there is no heap.
    let mut frames = [0u64; 2];
    let mut nodes = [0u32; 2];
    match first_tokens(text, cursor, 1, &mut frames, &mut nodes) {
        Ok(taken) => taken.latest,
        Err(_) => 0,
    }
}

// Why a clause is refused. AtFirst: the refusal points at its first token.
#[derive(Clone, Copy)]
pub enum Failure {
    At(Fault),
    AtFirst(Refusal),
}

impl From<Fault> for Failure {
    ghost from_gives = { λ w e. e ≡ Failure.At w };

    fn from(fault: Fault) -> Failure {
        Failure::At(fault)
    }
}

// No clause begins with the tokens up to the one at this offset.
fn no_reading(at: usize) -> Result<ClauseRead, Failure>
    ensures { result ≡ Err (Failure.At (fault NoReading at)) }
{
    Err(Failure::At(Fault {
        refusal: Refusal::NoReading,
        offset: at,
    }))
}

// The machine stands behind the end mark, with so many nodes out.
fn write_clause(
    count: usize,
    next: Cursor,
    nodes: &[u32],
    tree: &mut [u16],
) -> Result<ClauseRead, Failure>
    requires { Finished count nodes.now }
    ensures { came result tree.new ≡ written tree.old next (out_of nodes.now count) }
{
    if tree.len() < 2 * count {
        return Err(Failure::AtFirst(Refusal::NoRoom));
    }
    put_tree(count, nodes, tree);
    Ok(ClauseRead { nodes: count, next })
}

// What the machine behind the end mark says.
fn finish_clause(
    taken: Taken,
    frames: &[u64],
    nodes: &[u32],
    tree: &mut [u16],
) -> Result<ClauseRead, Failure>
    requires { Finishing taken.mode frames.now nodes.now }
    ensures { came result tree.new ≡ by_nodes tree.old taken.latest taken.next (nodes_of (state_of taken.mode frames.now nodes.now)) }
{
    match taken.mode {
        Mode::Done(count) => write_clause(count, taken.next, nodes, tree),
        _ => no_reading(taken.latest),
    }
}

// So many tokens are taken in short arrays first, the fast path: to fill long ones with zeros takes as long as to read five tokens. Arrays, since there is no
// heap.
const FEW: u16 = 64;

// The most tokens that a clause may have, its end mark among them.
const MOST: u16 = 1024;

// The tokens behind those that the short arrays served, with the machine there.
fn more_tokens(
    text: &[u8],
    first: Taken,
    held: &[u64],
    out: &[u32],
    frames: &mut [u64],
    nodes: &mut [u32],
) -> Result<Taken, Fault>
    requires { GoingOn text.now first.next first.mode held.now out.now frames.old nodes.old }
    ensures { result_of result frames.new nodes.new ≡ clause_run (most_tokens - few_tokens) few_tokens first.latest (state_of first.mode held.now out.now) text.now first.next }
{
    copy_slice(&mut frames[..held.len()], held);
    copy_slice(&mut nodes[..out.len()], out);
    take_tokens(text, first, FEW, MOST, frames, nodes)
}

// A clause of more tokens than the short arrays served. The machine takes a word for each token at most, and one before the first.
fn long_clause(
    text: &[u8],
    first: Taken,
    held: &[u64],
    out: &[u32],
    tree: &mut [u16],
) -> Result<ClauseRead, Failure>
    requires { Longer text.now first.mode first.next held.now out.now }
    ensures { came result tree.new ≡ by_result tree.old (clause_run (most_tokens - few_tokens) few_tokens first.latest (state_of first.mode held.now out.now) text.now first.next) }
{
    let mut frames = [0u64; 1025];
    let mut nodes = [0u32; 1025];
    let all = more_tokens(text, first, held, out, &mut frames, &mut nodes)?;
    if all.whole {
        return finish_clause(all, &frames, &nodes, tree);
    }
    Err(Failure::AtFirst(Refusal::TooManyTokens))
}

// The clause at a valid cursor.
fn clause_at(text: &[u8], cursor: Cursor, tree: &mut [u16]) -> Result<ClauseRead, Failure>
    requires { valid (length text.now) cursor ≡ true }
    ensures { came result tree.new ≡ by_tokens tree.old (clause_tokens text.now cursor) }
{
    let mut frames = [0u64; 65];
    let mut nodes = [0u32; 65];
    let taken = first_tokens(text, cursor, FEW, &mut frames, &mut nodes)?;
    if taken.whole {
        return finish_clause(taken, &frames, &nodes, tree);
    }
    long_clause(text, taken, &frames, &nodes, tree)
}

// A refusal, with the caller's cursor.
pub(crate) fn refused(refusal: Refusal, offset: usize, cursor: Cursor) -> Refused
    ensures { result ≡ refused_at (fault refusal offset) cursor }
{
    Refused {
        fault: Fault { refusal, offset },
        cursor,
    }
}

// What it comes to, as the call answers.
fn answer_at(text: &[u8], cursor: Cursor, tree: &mut [u16]) -> Result<ClauseRead, Refused>
    requires { valid (length text.now) cursor ≡ true }
    ensures { leaves result tree.new ≡ left_by text.now cursor (by_tokens tree.old (clause_tokens text.now cursor)) }
{
    match clause_at(text, cursor, tree) {
        Ok(read) => Ok(read),
        Err(Failure::At(fault)) => Err(Refused { fault, cursor }),
        Err(Failure::AtFirst(refusal)) => Err(refused(refusal, first_offset(text, cursor), cursor)),
    }
}

// The clause call.
pub fn read_clause(text: &[u8], cursor: Cursor, tree: &mut [u16]) -> Result<ClauseRead, Refused>
    ensures { Outcome text.now cursor tree.old result tree.new }
{
    if is_valid(text.len(), cursor) {
        return answer_at(text, cursor, tree);
    }
    Err(refused(Refusal::NotValid, 0, cursor))
}
