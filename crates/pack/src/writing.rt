// Packing: the nodes are weighed first, and written only if they are acceptable and fit.
ghost use Rattle.std.specs.Prelude.{◌+◌, ◌-◌, ◌≡◌, ◌∷◌, ◌++◌, length, take, drop};
ghost use Rattle.std.proofs.lemmas.List.Edits.{sets};
ghost use Rattle.pack.specs.Node.{a_node};
ghost use Rattle.pack.specs.Image.{two, node_bytes};
ghost use Rattle.pack.specs.Calls.{begins, PackOutcome};
ghost use Rattle.pack.specs.Passes.{weighed, Weighing, PutWord, PutFront, PutPart, PutNode, laid, PutNodes, Weighs, Light, head_bytes, PutHead, PackBegun};

use crate::answers::{NO_PACK, NO_ROOM, TOO_LONG};
use crate::format::{
    BODY_AT, FRONT, Form, LONGEST_BODY, LONGEST_SPELLING, MOST_NODES, NUMBERS, Version,
};
use crate::kinds::stack;
use crate::nodes::{Given, given_at};
use lexer::{Fault, copy_slice};

// How many bytes the nodes take in an image, if they are a tree that unpacking would accept. One pass over the nodes: a tree that stands takes as many before it
// as its arity says, and one is left at the end.
fn weigh(bytes: &[u8], nodes: &[u32], count: usize) -> Option<usize>
    requires { Weighing nodes.now count }
    ensures { result ≡ weighed bytes.now count 0 0 nodes.now }
{
    let mut trees: usize = 0;
    let mut size: usize = 0;
    for i in 0..count {
        let it = given_at(nodes, NUMBERS * i);
        if LONGEST_SPELLING < it.size {
            return None;
        }
        if bytes.len() < it.start + it.size {
            return None;
        }
        trees = stack(trees, it.kind, it.arity)?;
        size = size + FRONT + it.size;
    }
    if trees == 1 {
        return Some(size);
    }
    None
}

// ---- each puts bytes at `at`: a part of the image lent to each, from there on, would have to be cut anew at every call, and be no plainer

// Two bytes, the higher first.
pub(crate) fn put_word(out: &mut [u8], at: usize, n: usize)
    requires { PutWord (length out.old) at n }
    ensures { out.new ≡ sets out.old at (two n) }
{
    out[at..at + 2].copy_from_slice(&(n as u16).to_be_bytes());
}

// A part of the bytes.
pub(crate) fn put_part(bytes: &[u8], from: usize, size: usize, out: &mut [u8], at: usize)
    requires { PutPart (length bytes.now) from size (length out.old) at }
    ensures { out.new ≡ sets out.old at (take size (drop from bytes.now)) }
{
    copy_slice(&mut out[at..at + size], &bytes[from..from + size]);
}

// A byte and two numbers: what stands before a pack's first node, and before a node's spelling.
pub(crate) fn put_front(out: &mut [u8], at: usize, kind: usize, arity: usize, size: usize)
    requires { PutFront (length out.old) at kind arity size }
    ensures { out.new ≡ sets out.old at (kind ∷ (two arity ++ two size)) }
{
    out[at] = kind as u8;
    put_word(out, at + 1, arity);
    put_word(out, at + 3, size);
}

// A node with its spelling.
pub(crate) fn put_node(bytes: &[u8], it: Given, out: &mut [u8], at: usize)
    requires { PutNode (length bytes.now) it (length out.old) at }
    ensures { out.new ≡ sets out.old at (node_bytes (a_node it.kind it.arity (take it.size (drop it.start bytes.now)))) }
{
    put_front(out, at, it.kind, it.arity, it.size);
    put_part(bytes, it.start, it.size, out, at + FRONT);
}

// The nodes, one behind the other. `SpannedTree::put` does the same with nodes of a tree: a trait for how a node is read, with its law and two impls, would be longer
// than both loops.
fn put_nodes(bytes: &[u8], nodes: &[u32], count: usize, out: &mut [u8], from: usize)
    requires { PutNodes bytes.now nodes.now count (length out.old) from }
    ensures { out.new ≡ sets out.old from (laid bytes.now count nodes.now) }
{
    let mut at = from;
    for i in 0..count {
        let it = given_at(nodes, NUMBERS * i);
        put_node(bytes, it, out, at);
        at = at + FRONT + it.size;
    }
}

// What stands before the nodes: the version, the body's length, in form 2 the line, and the node count.
fn put_head(form: Form, body: usize, count: usize, out: &mut [u8])
    requires { PutHead form body count (length out.old) }
    ensures { out.new ≡ sets out.old 0 (head_bytes form body count) }
{
    match form {
        Form::One => put_front(out, 0, Version::One.byte(), body, count),
        Form::Two(line) => {
            put_front(out, 0, Version::Two.byte(), body, usize::from(line));
            put_word(out, FRONT, count);
        }
    }
}

// What stands before the nodes of a pack that fits, or why it is refused; `size` is what the nodes take.
pub(crate) fn begin_pack(
    form: Form,
    count: usize,
    size: usize,
    out: &mut [u8],
) -> Result<usize, Fault>
    requires { Light count size }
    ensures { PackBegun form count (begins form - 3 + size) out.old result out.new }
{
    let body = form.first_node() - BODY_AT + size;
    if LONGEST_BODY < body {
        return Err(TOO_LONG);
    }
    if out.len() < body + BODY_AT {
        return Err(NO_ROOM);
    }
    put_head(form, body, count, out);
    Ok(body + BODY_AT)
}

// The pack of nodes that were weighed, if it fits.
fn write_pack(
    bytes: &[u8],
    nodes: &[u32],
    count: usize,
    size: usize,
    form: Form,
    out: &mut [u8],
) -> Result<usize, Fault>
    requires { Weighs bytes.now nodes.now count size }
    ensures { PackOutcome form bytes.now nodes.now count out.old result out.new }
{
    let length = begin_pack(form, count, size, out)?;
    put_nodes(bytes, nodes, count, out, form.first_node());
    Ok(length)
}

// The pack of the nodes that the numbers name: four each, with the spelling as a part of the bytes. Their count stands beside them, as in the C interface.
pub fn pack_nodes(
    bytes: &[u8],
    nodes: &[u32],
    count: usize,
    form: Form,
    out: &mut [u8],
) -> Result<usize, Fault>
    ensures { PackOutcome form bytes.now nodes.now count out.old result out.new }
{
    if MOST_NODES < count {
        return Err(NO_PACK);
    }
    if nodes.len() / NUMBERS < count {
        return Err(NO_PACK);
    }
    let size = weigh(bytes, nodes, count).ok_or(NO_PACK)?;
    write_pack(bytes, nodes, count, size, form, out)
}
