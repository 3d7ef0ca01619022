// The machine of specs/Machine over two lent slices: one word a frame, and one a node. One token a call, the state by value.
ghost use Rattle.std.specs.Prelude.{◌≡◌, ◌+◌, ◌/◌, ◌%◌, ◌<◌, ◌≤◌, cond, ◌∷◌, length};
ghost use Rattle.std.proofs.lemmas.List.Edits.{sets};
ghost use Rattle.reader.specs.Ops.{roled};
ghost use Rattle.reader.specs.Tree.{packed, plain};
ghost use Rattle.reader.specs.Kinds.{kind_as};
ghost use Rattle.reader.specs.Machine as M;
ghost use Rattle.reader.specs.Machine.{nd, opened, red, bound, separates, have, dead, stop_of, glues, push_as, closing, comma_step, stop_step, infix_step, glued_step, want_step, have_step, prefix_as, prefix_step, op_step, pend_step, shuts, empty_kind, begun_step, above_all, laid, size};
ghost use Rattle.reader.specs.Layout.{tag_of, index_of, prio_of, bound_of, frame_as, frame_of, node_of, frames_of, out_of, red_of, pre_of, inf_of, stop_as, halt_of, sight_of, shape_of, state_of, Room, most, Held, stop_takes, takes, Ready, Copies};

use crate::kinds::{NodeKind, packed};
use crate::roles::{Infix, Prefix, Roles};

// How many words of each slice are in use. How many more must have room differs by function, so that stands in the contracts: no invariant could say it.
#[derive(Clone, Copy)]
pub struct Spot {
    pub depth: usize,
    pub count: usize,
}

// What neither starts a term nor is a name.
#[derive(Clone, Copy)]
pub enum Stop {
    Close,
    CloseList,
    CloseCurly,
    Bar,
    DoubleBar,
    Comma,
    EndMark,
}

// What is seen of a token. Number: has it the lowest integer's magnitude. Round: is it OpenCT.
#[derive(Clone, Copy)]
pub enum Sight {
    Name { end: usize, roles: Roles },
    Number { start: usize, lowest: bool },
    VarOrString,
    Round(bool),
    Square,
    Brace,
    Stop(Stop),
}

// `[` or `{`
#[derive(Clone, Copy)]
pub enum Shape {
    Squares,
    Braces,
}

// A name whose role is open.
#[derive(Clone, Copy)]
pub struct Pending {
    pub index: u16,
    pub end: usize,
    pub roles: Roles,
}

// The machine's states, without its stacks.
#[derive(Clone, Copy)]
pub enum Mode {
    Want(Spot),
    Pend(Spot, Pending),
    Begun(Spot, Shape, u16),
    Have(Spot),
    Dead,
    Done(usize),
}

// What a frame is: an operator that waits for its operand, or a bracket that is open. A frame's word has the place in this list.
#[derive(Clone, Copy)]
pub enum Tag {
    Prefix,
    Infix,
    Top,
    Round,
    Curly,
    Call,
    List,
    Tail,
}

// The bound of an operand in a place of 1200, above every priority, and in a place of 999.
const ABOVE_ALL: u64 = 1201;

const IN_ARGUMENT: u64 = 1000;

// The comma as an operator, xfy: its priority and bounds.
const COMMA: u16 = 1000;

const COMMA_LEFT: u64 = 1000;

const COMMA_RIGHT: u64 = 1001;

// The stacks have a word a frame and a word a node (docs/DECISIONS.md): they are fixed arrays, which each clause clears (docs/PERFORMANCE.md).
// The parts of a frame's word: tag (3 bits), token index (16), priority or place number (16), bound.
fn tag_of(w: u64) -> Tag
    ensures { result ≡ tag_of w }
{
    match w % 8 {
        0 => Tag::Prefix,
        1 => Tag::Infix,
        2 => Tag::Top,
        3 => Tag::Round,
        4 => Tag::Curly,
        5 => Tag::Call,
        6 => Tag::List,
        _ => Tag::Tail,
    }
}

fn index(w: u64) -> u16
    ensures { result ≡ index_of w }
{
    (w / 8 % 65536) as u16
}

fn priority(w: u64) -> u64
    ensures { result ≡ prio_of w }
{
    w / 524288 % 65536
}

// The number of the place, of a bracket's word.
fn place(w: u64) -> u16
    ensures { result ≡ prio_of w }
{
    (w / 524288 % 65536) as u16
}

fn limit(w: u64) -> u64
    ensures { result ≡ bound_of w }
{
    w / 34359738368
}

fn frame(t: Tag, i: u16, q: u16, b: u64) -> u64
    requires { b ≤ 65536 }
    ensures { frame_of result ≡ frame_as t i q b }
{
    (t as u64) + 8 * (i as u64) + 524288 * (q as u64) + 34359738368 * b
}

// A node's word: token index, then packed kind and arity (16 bits).
fn node(i: u16, w: u16) -> u32
    ensures { node_of result ≡ nd i w }
{
    65536 * (i as u32) + (w as u32)
}

// The nodes of the operators on top whose priority is below the bound are out. The loop pops one stack and pushes on the other: no iterator says where both stand.
fn reduce(from: Spot, bound: u64, frames: &[u64], nodes: &mut [u32]) -> Spot
    requires { Room frames.now nodes.old from.depth from.count 0 }
    ensures { red_of frames.now nodes.new result ≡ M.reduce packed bound (frames_of frames.now from.depth) (out_of nodes.old from.count) }
{
    let mut depth = from.depth;
    let mut count = from.count;
    while 0 < depth {
        let w = frames[depth - 1];
        let word = match tag_of(w) {
            Tag::Prefix => packed(NodeKind::Prefix, 1),
            Tag::Infix => packed(NodeKind::Infix, 2),
            _ => return Spot { depth, count },
        };
        if bound <= priority(w) {
            return Spot { depth, count };
        }
        nodes[count] = node(index(w), word);
        depth -= 1;
        count += 1;
    }
    Spot { depth, count }
}

// A node more.
fn put_node(s: Spot, i: u16, k: NodeKind, a: u16, frames: &[u64], nodes: &mut [u32]) -> Spot
    requires room { Room frames.now nodes.old s.depth s.count 1 }
    requires a_bound { a ≤ most }
    ensures { red_of frames.now nodes.new result ≡ red (frames_of frames.now s.depth) (nd i (packed (kind_as k) a) ∷ out_of nodes.old s.count) }
{
    let depth = s.depth;
    let count = s.count;
    nodes[count] = node(i, packed(k, a));
    Spot {
        depth,
        count: count + 1,
    }
}

// A frame more.
fn put_frame(s: Spot, t: Tag, i: u16, q: u16, b: u64, frames: &mut [u64], nodes: &[u32]) -> Spot
    requires room { Room frames.old nodes.now s.depth s.count 1 }
    requires b_bound { b ≤ 65536 }
    ensures { red_of frames.new nodes.now result ≡ red (frame_as t i q b ∷ frames_of frames.old s.depth) (out_of nodes.now s.count) }
{
    let depth = s.depth;
    let count = s.count;
    frames[depth] = frame(t, i, q, b);
    Spot {
        depth: depth + 1,
        count,
    }
}

// The bound of the operand that comes next; without a frame 0, below which there is no priority.
fn top_bound(frames: &[u64]) -> u64
    ensures { result ≡ bound (frames_of frames.now (length frames.now)) }
{
    let Some(&w) = frames.last() else {
        return 0;
    };
    match tag_of(w) {
        Tag::Prefix | Tag::Infix => limit(w),
        Tag::Top | Tag::Round | Tag::Curly => ABOVE_ALL,
        Tag::Call | Tag::List | Tag::Tail => IN_ARGUMENT,
    }
}

// Does the bracket on top take commas as separators?
fn separating(frames: &[u64]) -> bool
    ensures { result ≡ separates (frames_of frames.now (length frames.now)) }
{
    let Some(&w) = frames.last() else {
        return false;
    };
    matches!(tag_of(w), Tag::Call | Tag::List | Tag::Tail)
}

// A term has ended with the node.
fn have_node(s: Spot, i: u16, k: NodeKind, a: u16, frames: &[u64], nodes: &mut [u32]) -> Mode
    requires room { Room frames.now nodes.old s.depth s.count 1 }
    requires a_bound { a ≤ most }
    ensures { state_of result frames.now nodes.new ≡ have (frames_of frames.now s.depth) (nd i (packed (kind_as k) a) ∷ out_of nodes.old s.count) }
{
    Mode::Have(put_node(s, i, k, a, frames, nodes))
}

// A place begins in the bracket t.
fn want_in(s: Spot, t: Tag, i: u16, q: u16, frames: &mut [u64], nodes: &[u32]) -> Mode
    requires { Room frames.old nodes.now s.depth s.count 1 }
    ensures { state_of result frames.new nodes.now ≡ M.want (frame_as t i q 0 ∷ frames_of frames.old s.depth) (out_of nodes.now s.count) }
{
    Mode::Want(put_frame(s, t, i, q, 0, frames, nodes))
}

// What a stop does at the frame w, which is off the stack.
fn at_frame(s: Spot, w: u64, x: Stop, frames: &mut [u64], nodes: &mut [u32]) -> Mode
    requires room { Room frames.old nodes.old s.depth s.count 1 }
    requires few { size (frame_of w) ≤ most }
    ensures { state_of result frames.new nodes.new ≡ closing packed (stop_as x) (red (frame_of w ∷ frames_of frames.old s.depth) (out_of nodes.old s.count)) }
{
    let i = index(w);
    let n = place(w);
    match (x, tag_of(w)) {
        (Stop::Close, Tag::Round) => Mode::Have(s),
        (Stop::Close, Tag::Call) => have_node(s, i, NodeKind::Call, n + 1, frames, nodes),
        (Stop::CloseList, Tag::List) => have_node(s, i, NodeKind::List, n + 1, frames, nodes),
        (Stop::CloseList, Tag::Tail) => have_node(s, i, NodeKind::ListTail, n + 1, frames, nodes),
        (Stop::CloseCurly, Tag::Curly) => have_node(s, i, NodeKind::Curly, 1, frames, nodes),
        (Stop::Bar, Tag::List) => want_in(s, Tag::Tail, i, n + 1, frames, nodes),
        (Stop::Comma, Tag::Call) => want_in(s, Tag::Call, i, n + 1, frames, nodes),
        (Stop::Comma, Tag::List) => want_in(s, Tag::List, i, n + 1, frames, nodes),
        (Stop::EndMark, Tag::Top) => Mode::Done(s.count),
        _ => Mode::Dead,
    }
}

// A stop where a place may end: nothing of the place waits any more.
fn close_with(s: Spot, x: Stop, frames: &mut [u64], nodes: &mut [u32]) -> Mode
    requires { Held frames.old nodes.old s.depth s.count 0 }
    ensures { state_of result frames.new nodes.new ≡ closing packed (stop_as x) (red_of frames.old nodes.old s) }
{
    let depth = s.depth;
    if depth == 0 {
        return Mode::Dead;
    }
    let below = Spot {
        depth: depth - 1,
        count: s.count,
    };
    at_frame(below, frames[depth - 1], x, frames, nodes)
}

// A stop other than the comma where an operand has ended: all operators of the place are complete.
fn close_place(s: Spot, x: Stop, frames: &mut [u64], nodes: &mut [u32]) -> Mode
    requires { Held frames.old nodes.old s.depth s.count 0 }
    ensures { state_of result frames.new nodes.new ≡ closing packed (stop_as x) (M.reduce packed above_all (frames_of frames.old s.depth) (out_of nodes.old s.count)) }
{
    let q = reduce(s, ABOVE_ALL, frames, nodes);
    close_with(q, x, frames, nodes)
}

// An infix operator waits, if its priority is below the bound.
fn push_infix(s: Spot, i: u16, p: u16, b: u64, frames: &mut [u64], nodes: &[u32]) -> Mode
    requires room { Room frames.old nodes.now s.depth s.count 1 }
    requires b_bound { b ≤ 65536 }
    ensures { state_of result frames.new nodes.now ≡ push_as i p b (red_of frames.old nodes.now s) }
{
    if top_bound(&frames[..s.depth]) <= (p as u64) {
        return Mode::Dead;
    }
    Mode::Want(put_frame(s, Tag::Infix, i, p, b, frames, nodes))
}

fn comma_step(s: Spot, i: u16, frames: &mut [u64], nodes: &mut [u32]) -> Mode
    requires { Held frames.old nodes.old s.depth s.count 1 }
    ensures { state_of result frames.new nodes.new ≡ comma_step packed i (M.reduce packed 1000 (frames_of frames.old s.depth) (out_of nodes.old s.count)) }
{
    let q = reduce(s, COMMA_LEFT, frames, nodes);
    if separating(&frames[..q.depth]) {
        return close_with(q, Stop::Comma, frames, nodes);
    }
    push_infix(q, i, COMMA, COMMA_RIGHT, frames, nodes)
}

fn stop_step(s: Spot, i: u16, x: Stop, frames: &mut [u64], nodes: &mut [u32]) -> Mode
    requires { Held frames.old nodes.old s.depth s.count (stop_takes x) }
    ensures { state_of result frames.new nodes.new ≡ stop_step packed (stop_as x) i (frames_of frames.old s.depth) (out_of nodes.old s.count) }
{
    match x {
        Stop::Comma => comma_step(s, i, frames, nodes),
        _ => close_place(s, x, frames, nodes),
    }
}

fn infix_as(
    s: Spot,
    i: u16,
    p: u16,
    left: u64,
    b: u64,
    frames: &mut [u64],
    nodes: &mut [u32],
) -> Mode
    requires room { Room frames.old nodes.old s.depth s.count 1 }
    requires b_bound { b ≤ 65536 }
    ensures { state_of result frames.new nodes.new ≡ push_as i p b (M.reduce packed left (frames_of frames.old s.depth) (out_of nodes.old s.count)) }
{
    let q = reduce(s, left, frames, nodes);
    push_infix(q, i, p, b, frames, nodes)
}

// A name where an operand has ended.
fn infix_step(s: Spot, i: u16, role: Option<Infix>, frames: &mut [u64], nodes: &mut [u32]) -> Mode
    requires { Room frames.old nodes.old s.depth s.count 1 }
    ensures { state_of result frames.new nodes.new ≡ infix_step packed i (inf_of role) (frames_of frames.old s.depth) (out_of nodes.old s.count) }
{
    match role {
        None => Mode::Dead,
        Some(Infix::Xfx(p)) => infix_as(s, i, p, p as u64, p as u64, frames, nodes),
        Some(Infix::Xfy(p)) => infix_as(s, i, p, p as u64, (p as u64) + 1, frames, nodes),
        Some(Infix::Yfx(p)) => infix_as(s, i, p, (p as u64) + 1, p as u64, frames, nodes),
    }
}

// A token where an operand has ended.
fn have_step(s: Spot, i: u16, k: Sight, frames: &mut [u64], nodes: &mut [u32]) -> Mode
    requires { Held frames.old nodes.old s.depth s.count (takes k) }
    ensures { state_of result frames.new nodes.new ≡ have_step packed (frames_of frames.old s.depth) (out_of nodes.old s.count) i (sight_of k) }
{
    match k {
        Sight::Name { roles, .. } => infix_step(s, i, roles.infix, frames, nodes),
        Sight::Stop(x) => stop_step(s, i, x, frames, nodes),
        _ => Mode::Dead,
    }
}

// A term's first token.
fn want_step(s: Spot, i: u16, k: Sight, frames: &mut [u64], nodes: &mut [u32]) -> Mode
    requires { Room frames.old nodes.old s.depth s.count (takes k) }
    ensures { state_of result frames.new nodes.new ≡ want_step packed (frames_of frames.old s.depth) (out_of nodes.old s.count) i (sight_of k) }
{
    match k {
        Sight::Name { end, roles } => Mode::Pend(
            s,
            Pending {
                index: i,
                end,
                roles,
            },
        ),
        Sight::Number { lowest: true, .. } => Mode::Dead,
        Sight::Number { .. } => have_node(s, i, NodeKind::Plain, 0, frames, nodes),
        Sight::VarOrString => have_node(s, i, NodeKind::Plain, 0, frames, nodes),
        Sight::Round(_) => want_in(s, Tag::Round, 0, 0, frames, nodes),
        Sight::Square => Mode::Begun(s, Shape::Squares, i),
        Sight::Brace => Mode::Begun(s, Shape::Braces, i),
        Sight::Stop(_) => Mode::Dead,
    }
}

// Is it an OpenCT, or a number glued to the minus?
fn glued(minus: bool, end: usize, k: Sight) -> bool
    ensures { result ≡ glues minus end (sight_of k) }
{
    match k {
        Sight::Number { start, .. } => minus && end == start,
        Sight::Round(ct) => ct,
        _ => false,
    }
}

// After a name that an OpenCT or a glued number follows.
fn glued_step(s: Spot, i: u16, k: Sight, frames: &mut [u64], nodes: &mut [u32]) -> Mode
    requires { Room frames.old nodes.old s.depth s.count 1 }
    ensures { state_of result frames.new nodes.new ≡ glued_step packed i (frames_of frames.old s.depth) (out_of nodes.old s.count) (sight_of k) }
{
    match k {
        Sight::Number { .. } => have_node(s, i, NodeKind::Negative, 0, frames, nodes),
        Sight::Round(_) => want_in(s, Tag::Call, i, 0, frames, nodes),
        _ => Mode::Dead,
    }
}

// A frame more, and the token j is the first under it.
fn want_under(
    s: Spot,
    t: Tag,
    i: u16,
    q: u16,
    b: u64,
    j: u16,
    k: Sight,
    frames: &mut [u64],
    nodes: &mut [u32],
) -> Mode
    requires room { Room frames.old nodes.old s.depth s.count (takes k + 1) }
    requires b_bound { b ≤ 65536 }
    ensures { state_of result frames.new nodes.new ≡ want_step packed (frame_as t i q b ∷ frames_of frames.old s.depth) (out_of nodes.old s.count) j (sight_of k) }
{
    let under = put_frame(s, t, i, q, b, frames, nodes);
    want_step(under, j, k, frames, nodes)
}

// A prefix operator waits, if its priority is below the bound, and the token j begins its operand.
fn prefix_as(
    s: Spot,
    i: u16,
    p: u16,
    b: u64,
    j: u16,
    k: Sight,
    frames: &mut [u64],
    nodes: &mut [u32],
) -> Mode
    requires room { Room frames.old nodes.old s.depth s.count (takes k + 1) }
    requires b_bound { b ≤ 65536 }
    ensures { state_of result frames.new nodes.new ≡ prefix_as packed i p b (frames_of frames.old s.depth) (out_of nodes.old s.count) j (sight_of k) }
{
    if top_bound(&frames[..s.depth]) <= (p as u64) {
        return Mode::Dead;
    }
    want_under(s, Tag::Prefix, i, p, b, j, k, frames, nodes)
}

fn prefix_step(
    s: Spot,
    i: u16,
    role: Option<Prefix>,
    j: u16,
    k: Sight,
    frames: &mut [u64],
    nodes: &mut [u32],
) -> Mode
    requires { Room frames.old nodes.old s.depth s.count (takes k + 1) }
    ensures { state_of result frames.new nodes.new ≡ prefix_step packed i (pre_of role) (frames_of frames.old s.depth) (out_of nodes.old s.count) j (sight_of k) }
{
    match role {
        None => Mode::Dead,
        Some(Prefix::Fx(p)) => prefix_as(s, i, p, p as u64, j, k, frames, nodes),
        Some(Prefix::Fy(p)) => prefix_as(s, i, p, (p as u64) + 1, j, k, frames, nodes),
    }
}

// An operator name that stands alone, and a stop.
fn alone_step(s: Spot, i: u16, x: Stop, frames: &mut [u64], nodes: &mut [u32]) -> Mode
    requires { Held frames.old nodes.old s.depth s.count 1 }
    ensures { state_of result frames.new nodes.new ≡ closing packed (stop_as x) (red (frames_of frames.old s.depth) (nd i (packed plain 0) ∷ out_of nodes.old s.count)) }
{
    let q = put_node(s, i, NodeKind::Plain, 0, frames, nodes);
    close_with(q, x, frames, nodes)
}

// Is a token a stop, and which?
fn halting(k: Sight) -> Option<Stop>
    ensures { halt_of result ≡ stop_of (sight_of k) }
{
    match k {
        Sight::Stop(x) => Some(x),
        _ => None,
    }
}

// After an operator name that nothing glued follows.
fn op_step(
    s: Spot,
    i: u16,
    role: Option<Prefix>,
    j: u16,
    k: Sight,
    frames: &mut [u64],
    nodes: &mut [u32],
) -> Mode
    requires { Held frames.old nodes.old s.depth s.count (takes k + 1) }
    ensures { state_of result frames.new nodes.new ≡ op_step packed (stop_of (sight_of k)) i (pre_of role) (frames_of frames.old s.depth) (out_of nodes.old s.count) j (sight_of k) }
{
    match halting(k) {
        None => prefix_step(s, i, role, j, k, frames, nodes),
        Some(x) => alone_step(s, i, x, frames, nodes),
    }
}

// A name with no role.
fn plain_step(s: Spot, i: u16, j: u16, k: Sight, frames: &mut [u64], nodes: &mut [u32]) -> Mode
    requires { Held frames.old nodes.old s.depth s.count (takes k + 1) }
    ensures { state_of result frames.new nodes.new ≡ have_step packed (frames_of frames.old s.depth) (nd i (packed plain 0) ∷ out_of nodes.old s.count) j (sight_of k) }
{
    let q = put_node(s, i, NodeKind::Plain, 0, frames, nodes);
    have_step(q, j, k, frames, nodes)
}

// Is a name with these roles an operator?
fn has_role(roles: Roles) -> bool
    ensures { result ≡ roled (pre_of roles.prefix) (inf_of roles.«infix») }
{
    roles.prefix.is_some() || roles.infix.is_some()
}

// The token after a name that stands where an operand is expected.
fn pend_step(s: Spot, p: Pending, j: u16, k: Sight, frames: &mut [u64], nodes: &mut [u32]) -> Mode
    requires { Held frames.old nodes.old s.depth s.count (takes k + 1) }
    ensures { state_of result frames.new nodes.new ≡ pend_step packed p.index p.end p.roles.minus (pre_of p.roles.prefix) (inf_of p.roles.«infix») (frames_of frames.old s.depth) (out_of nodes.old s.count) j (sight_of k) }
{
    let roles = p.roles;
    if glued(roles.minus, p.end, k) {
        return glued_step(s, p.index, k, frames, nodes);
    }
    if has_role(roles) {
        return op_step(s, p.index, roles.prefix, j, k, frames, nodes);
    }
    plain_step(s, p.index, j, k, frames, nodes)
}

// The bracket opens, and the token j begins its first place.
fn first_step(
    s: Spot,
    h: Shape,
    i: u16,
    j: u16,
    k: Sight,
    frames: &mut [u64],
    nodes: &mut [u32],
) -> Mode
    requires { Room frames.old nodes.old s.depth s.count (takes k + 1) }
    ensures { state_of result frames.new nodes.new ≡ want_step packed (opened (M.inside (shape_of h) i) ∷ frames_of frames.old s.depth) (out_of nodes.old s.count) j (sight_of k) }
{
    match h {
        Shape::Squares => want_under(s, Tag::List, i, 0, 0, j, k, frames, nodes),
        Shape::Braces => want_under(s, Tag::Curly, i, 0, 0, j, k, frames, nodes),
    }
}

// Does the stop close the bracket at once?
fn shuts_at_once(h: Shape, x: Stop) -> bool
    ensures { result ≡ shuts (shape_of h) (stop_as x) }
{
    matches!(
        (h, x),
        (Shape::Squares, Stop::CloseList) | (Shape::Braces, Stop::CloseCurly)
    )
}

// A stop right after `[` or `{`.
fn empty_step(s: Spot, h: Shape, i: u16, x: Stop, frames: &[u64], nodes: &mut [u32]) -> Mode
    requires { Room frames.now nodes.old s.depth s.count 1 }
    ensures { state_of result frames.now nodes.new ≡ cond (shuts (shape_of h) (stop_as x)) (have (frames_of frames.now s.depth) (nd i (packed (empty_kind (shape_of h)) 0) ∷ out_of nodes.old s.count)) dead }
{
    if !shuts_at_once(h, x) {
        return Mode::Dead;
    }
    match h {
        Shape::Squares => have_node(s, i, NodeKind::EmptyList, 0, frames, nodes),
        Shape::Braces => have_node(s, i, NodeKind::EmptyCurly, 0, frames, nodes),
    }
}

// The token after `[` or `{`.
fn begun_step(
    s: Spot,
    h: Shape,
    i: u16,
    j: u16,
    k: Sight,
    frames: &mut [u64],
    nodes: &mut [u32],
) -> Mode
    requires { Room frames.old nodes.old s.depth s.count (takes k + 1) }
    ensures { state_of result frames.new nodes.new ≡ begun_step packed (shape_of h) i (frames_of frames.old s.depth) (out_of nodes.old s.count) j (sight_of k) }
{
    match halting(k) {
        None => first_step(s, h, i, j, k, frames, nodes),
        Some(x) => empty_step(s, h, i, x, frames, nodes),
    }
}

// Before the first token.
pub(crate) fn start(frames: &mut [u64], nodes: &[u32]) -> Mode
    requires { Room frames.old nodes.now 0 0 1 }
    ensures { state_of result frames.new nodes.now ≡ M.start }
{
    want_in(Spot { depth: 0, count: 0 }, Tag::Top, 0, 0, frames, nodes)
}

// One token: its index in the clause, and what is seen of it.
pub(crate) fn step(
    mode: Mode,
    index: u16,
    sight: Sight,
    frames: &mut [u64],
    nodes: &mut [u32],
) -> Mode
    requires { Ready mode sight frames.old nodes.old }
    ensures { state_of result frames.new nodes.new ≡ M.step packed (state_of mode frames.old nodes.old) index (sight_of sight) }
{
    match mode {
        Mode::Want(s) => want_step(s, index, sight, frames, nodes),
        Mode::Pend(s, p) => pend_step(s, p, index, sight, frames, nodes),
        Mode::Begun(s, h, i) => begun_step(s, h, i, index, sight, frames, nodes),
        Mode::Have(s) => have_step(s, index, sight, frames, nodes),
        Mode::Dead | Mode::Done(_) => Mode::Dead,
    }
}

fn node_index(w: u32) -> u16
    ensures { result ≡ w / 65536 }
{
    (w / 65536) as u16
}

// A node's kind and arity, packed.
fn node_word(w: u32) -> u16
    ensures { result ≡ w % 65536 }
{
    (w % 65536) as u16
}

// The numbers of a tree, two a node.
pub(crate) fn put_tree(count: usize, nodes: &[u32], tree: &mut [u16])
    requires { Copies nodes.now tree.old count }
    ensures { tree.new ≡ sets tree.old 0 (laid (out_of nodes.now count)) }
{
    for (j, &w) in nodes[..count].iter().enumerate() {
        tree[2 * j] = node_index(w);
        tree[2 * j + 1] = node_word(w);
    }
}
