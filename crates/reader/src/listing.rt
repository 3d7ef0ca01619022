// One line of the listing. The tree's numbers are read from the last node to the first, and the line is written from its end.
ghost use Rattle.std.specs.Prelude.{◌≡◌, [], ◌∷◌, length, take, ◌-◌, ◌*◌};
ghost use Rattle.lexer.specs.Cursor.{part};
ghost use Rattle.reader.specs.Kinds.{kind_as};
ghost use Rattle.reader.specs.Listing.{shape_of, last_separator, quoted_comma, spelling, word, front, back, Span, Spanned, put, put_before, Room, SpanRoom, SpannedRoom, NodeRoom, Node, own, own_all, shape_at, measured, Measurable, Rooted, root_at, SomeTerm, TermPut, SomeTerms, TermsPut, SomeListable, Lists};

use crate::kinds::{KIND_UNIT, NodeKind};
use lexer::copy_slice;

// A text, and where its tokens start and end.
#[derive(Clone, Copy)]
pub(crate) struct Tokens<'a> {
    pub(crate) text: &'a [u8],
    pub(crate) starts: &'a [u16],
    pub(crate) ends: &'a [u16],
}

// How a node is printed.
#[derive(Clone, Copy)]
pub enum Shape {
    Word,
    Negative,
    Call,
    Square,
    Tail,
    Curly,
}

// What is left before a term: nodes of the tree, and bytes of the line. The nodes are counted beside the tree: a slice of those that are left, two numbers a
// node, is no plainer, since each walk would halve its length.
#[derive(Clone, Copy)]
pub struct Before {
    pub nodes: usize,
    pub at: usize,
}

// A node: its token, how it is printed, and how many children it has.
#[derive(Clone, Copy)]
pub struct Root {
    pub token: usize,
    pub shape: Shape,
    pub arity: u16,
}

fn shape_of(kind: NodeKind) -> Shape
    ensures { result ≡ shape_of (kind_as kind) }
{
    match kind {
        NodeKind::Plain => Shape::Word,
        NodeKind::Negative => Shape::Negative,
        NodeKind::Call | NodeKind::Prefix | NodeKind::Infix => Shape::Call,
        NodeKind::List | NodeKind::EmptyList => Shape::Square,
        NodeKind::ListTail => Shape::Tail,
        NodeKind::Curly | NodeKind::EmptyCurly => Shape::Curly,
    }
}

// The shape of a node, by its second number.
fn shape_at(packed: u16) -> Shape
    ensures { result ≡ shape_at packed }
{
    match NodeKind::try_from(usize::from(packed / KIND_UNIT)) {
        Ok(kind) => shape_of(kind),
        Err(_) => Shape::Curly,
    }
}

// What stands between the last two children.
fn last_separator(shape: Shape) -> u8
    ensures { result ≡ last_separator shape }
{
    match shape {
        Shape::Tail => b'|',
        _ => b',',
    }
}

// ---- writing: each puts bytes at the end of `out`, and answers where they start

fn put_char(out: &mut [u8], char: u8) -> usize
    requires { Room (char ∷ []) (length out.old) (length out.old) }
    ensures { put result out.new ≡ put_before (char ∷ []) (length out.old) out.old }
{
    let place = out.len() - 1;
    out[place] = char;
    place
}

fn put_part(text: &[u8], from: usize, to: usize, out: &mut [u8]) -> usize
    requires { SpanRoom text.now from to (part from to text.now) (length out.old) (length out.old) }
    ensures { put result out.new ≡ put_before (part from to text.now) (length out.old) out.old }
{
    let place = out.len() - (to - from);
    copy_slice(&mut out[place..], &text[from..to]);
    place
}

fn put_comma(out: &mut [u8]) -> usize
    requires { Room quoted_comma (length out.old) (length out.old) }
    ensures { put result out.new ≡ put_before quoted_comma (length out.old) out.old }
{
    let place = out.len() - 3;
    out[place..].copy_from_slice(b"','");
    place
}

fn put_spelling(text: &[u8], from: usize, to: usize, out: &mut [u8]) -> usize
    requires { SpanRoom text.now from to (spelling text.now from to) (length out.old) (length out.old) }
    ensures { put result out.new ≡ put_before (spelling text.now from to) (length out.old) out.old }
{
    if text[from] == b',' {
        return put_comma(out);
    }
    put_part(text, from, to, out)
}

// What stands behind the children.
fn put_back(shape: Shape, out: &mut [u8]) -> usize
    requires { Room (back shape) (length out.old) (length out.old) }
    ensures { put result out.new ≡ put_before (back shape) (length out.old) out.old }
{
    match shape {
        Shape::Word | Shape::Negative => out.len(),
        Shape::Call => put_char(out, b')'),
        Shape::Square | Shape::Tail => put_char(out, b']'),
        Shape::Curly => put_char(out, b'}'),
    }
}

// ---- measuring, before a byte is written: a refusal leaves the lent slice as it was. A trait for what is done with the bytes, with its law and an impl for
// each, would be longer than these

fn spelling_length(text: &[u8], from: usize, to: usize) -> usize
    requires { Span text.now from to }
    ensures { result ≡ length (spelling text.now from to) }
{
    if text[from] == b',' {
        return 3;
    }
    to - from
}

fn back_length(shape: Shape) -> usize
    ensures { result ≡ length (back shape) }
{
    match shape {
        Shape::Word | Shape::Negative => 0,
        _ => 1,
    }
}

impl Tokens<'_> {
    fn put_word(&self, first: usize, last: usize, out: &mut [u8]) -> usize
        requires { SpannedRoom self.now.text.now self.now.starts.now self.now.ends.now first last (length out.old) (length out.old) }
        ensures { put result out.new ≡ put_before (word self.now.text.now self.now.starts.now self.now.ends.now first last) (length out.old) out.old }
    {
        let from = usize::from(self.starts[first]);
        let to = usize::from(self.ends[last]);
        put_spelling(self.text, from, to, out)
    }

    // What stands before the children.
    fn put_front(&self, shape: Shape, token: usize, out: &mut [u8]) -> usize
        requires { NodeRoom self.now.text.now self.now.starts.now self.now.ends.now shape token (length out.old) (length out.old) }
        ensures { put result out.new ≡ put_before (front (word self.now.text.now self.now.starts.now self.now.ends.now) shape token) (length out.old) out.old }
    {
        match shape {
            Shape::Word => self.put_word(token, token, out),
            Shape::Negative => self.put_word(token, token + 1, out),
            Shape::Call => {
                let open = put_char(out, b'(');
                self.put_word(token, token, &mut out[..open])
            }
            Shape::Square | Shape::Tail => put_char(out, b'['),
            Shape::Curly => put_char(out, b'{'),
        }
    }

    fn word_length(&self, first: usize, last: usize) -> usize
        requires { Spanned self.now.text.now self.now.starts.now self.now.ends.now first last }
        ensures { result ≡ length (word self.now.text.now self.now.starts.now self.now.ends.now first last) }
    {
        let from = usize::from(self.starts[first]);
        let to = usize::from(self.ends[last]);
        spelling_length(self.text, from, to)
    }

    fn front_length(&self, shape: Shape, token: usize) -> usize
        requires { Node self.now.text.now self.now.starts.now self.now.ends.now shape token }
        ensures { result ≡ length (front (word self.now.text.now self.now.starts.now self.now.ends.now) shape token) }
    {
        match shape {
            Shape::Word => self.word_length(token, token),
            Shape::Negative => self.word_length(token, token + 1),
            Shape::Call => self.word_length(token, token) + 1,
            Shape::Square | Shape::Tail | Shape::Curly => 1,
        }
    }

    // The bytes of a node itself: what stands before, between and behind its children.
    fn node_length(&self, token: u16, packed: u16) -> usize
        requires { Node self.now.text.now self.now.starts.now self.now.ends.now (shape_at packed) token }
        ensures { result ≡ own (word self.now.text.now self.now.starts.now self.now.ends.now) token packed }
    {
        let shape = shape_at(packed);
        let front = self.front_length(shape, usize::from(token));
        let separators = usize::from(packed % KIND_UNIT).saturating_sub(1);
        front + separators + back_length(shape)
    }

    // How long the line is, if it is no longer than `room`.
    fn line_length(&self, tree: &[u16], nodes: usize, room: usize) -> Option<usize>
        requires { Measurable self.now.text.now self.now.starts.now self.now.ends.now tree.now nodes }
        ensures { result ≡ measured room (own_all (word self.now.text.now self.now.starts.now self.now.ends.now) (take (nodes * 2) tree.now)) }
    {
        let mut left = room;
        for node in 0..nodes {
            let at = node * 2;
            left = left.checked_sub(self.node_length(tree[at], tree[at + 1]))?;
        }
        Some(room - left)
    }
}

// ---- the tree, from its last node

// The last of the first `nodes` nodes.
fn root_of(tree: &[u16], nodes: usize) -> Root
    requires { Rooted tree.now nodes }
    ensures { result ≡ root_at tree.now nodes }
{
    let at = (nodes - 1) * 2;
    let packed = tree[at + 1];
    Root {
        token: usize::from(tree[at]),
        shape: shape_at(packed),
        arity: packed % KIND_UNIT,
    }
}

// The term whose root is the last of the first `nodes` nodes.
#[cycle(put_term_put_terms)]
fn put_term(tokens: &Tokens<'_>, tree: &[u16], nodes: usize, out: &mut [u8]) -> Before
    requires { SomeTerm tokens.now.text.now tokens.now.starts.now tokens.now.ends.now tree.now nodes (length out.old) (length out.old) }
    ensures { TermPut tokens.now.text.now tokens.now.starts.now tokens.now.ends.now tree.now nodes (length out.old) out.old result out.new }
{
    let root = root_of(tree, nodes);
    let shape = root.shape;
    let inside = put_back(shape, out);
    let separator = last_separator(shape);
    let left = put_terms(
        tokens,
        tree,
        nodes - 1,
        root.arity,
        separator,
        &mut out[..inside],
    );
    Before {
        nodes: left.nodes,
        at: tokens.put_front(shape, root.token, &mut out[..left.at]),
    }
}

// `count` terms, the last of which ends with the last of the first `nodes` nodes; the separator stands before that one.
#[cycle(put_term_put_terms)]
fn put_terms(
    tokens: &Tokens<'_>,
    tree: &[u16],
    nodes: usize,
    count: u16,
    separator: u8,
    out: &mut [u8],
) -> Before
    requires { SomeTerms tokens.now.text.now tokens.now.starts.now tokens.now.ends.now tree.now nodes (length out.old) count separator (length out.old) }
    ensures { TermsPut tokens.now.text.now tokens.now.starts.now tokens.now.ends.now tree.now nodes (length out.old) count separator out.old result out.new }
{
    if count == 0 {
        return Before {
            nodes,
            at: out.len(),
        };
    }
    let left = put_term(tokens, tree, nodes, out);
    if count == 1 {
        return left;
    }
    let place = put_char(&mut out[..left.at], separator);
    put_terms(tokens, tree, left.nodes, count - 1, b',', &mut out[..place])
}

// The line of the tree, at the front of `out`: so many bytes of it, or none where it is longer than that.
pub(crate) fn list_line(
    tokens: &Tokens<'_>,
    tree: &[u16],
    nodes: usize,
    out: &mut [u8],
) -> Option<usize>
    requires { SomeListable tokens.now.text.now tokens.now.starts.now tokens.now.ends.now tree.now nodes }
    ensures { Lists tokens.now.text.now tokens.now.starts.now tokens.now.ends.now tree.now nodes out.old result out.new }
{
    let length = tokens.line_length(tree, nodes, out.len())?;
    put_term(tokens, tree, nodes, &mut out[..length]);
    Some(length)
}
