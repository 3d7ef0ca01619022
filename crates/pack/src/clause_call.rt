// A clause, from its text, as a pack.
ghost use Rattle.std.specs.Prelude.{◌≡◌, ◌≤◌, ◌==◌, length, count_by};
ghost use Rattle.std.proofs.lemmas.List.Edits.{sets};
ghost use Rattle.lexer.specs.Chars.{newline};
ghost use Rattle.reader.specs.LineCall.{ReadTree};
ghost use Rattle.pack.specs.Calls.{Written};
ghost use Rattle.pack.specs.ClauseCall.{last_of, form_at, clause_form, ClausePack};
ghost use Rattle.pack.specs.Image.{nodes_bytes};
ghost use Rattle.pack.specs.Walk.{NodeAt, GivenNode, Walk, SomeWalk, TreeWeighs, nodes_of, PutTree, Ahead, LineAt};

use crate::answers::PackedClause;
use crate::format::{FRONT, Form, Version};
use crate::kinds::KIND_UNIT;
use crate::nodes::Given;
use crate::writing::{begin_pack, put_node};
use lexer::{Cursor, Fault, Refused};
use reader::{ClauseRead, NodeKind, read_clause, span_tokens};

// The last token of a node's spelling: a negative number runs on to the number.
fn last_of(kind: usize, token: usize) -> usize
    requires { token ≤ 65535 }
    ensures { result ≡ last_of kind token }
{
    if kind == NodeKind::Negative as usize {
        return token + 1;
    }
    token
}

// A clause's tree: so many nodes, two numbers each, over the spans of its tokens.
#[derive(Clone, Copy)]
struct SpannedTree<'a> {
    tree: &'a [u16],
    count: usize,
    starts: &'a [u16],
    ends: &'a [u16],
}

impl SpannedTree<'_> {
    // A node, with its spelling as a part of the text.
    fn given(&self, at: usize) -> Given
        requires { NodeAt self.now.tree.now at self.now.starts.now self.now.ends.now }
        ensures { GivenNode self.now.tree.now at self.now.starts.now self.now.ends.now result }
    {
        let token = usize::from(self.tree[at]);
        let packed = usize::from(self.tree[at + 1]);
        let last = last_of(packed / KIND_UNIT, token);
        let start = usize::from(self.starts[token]);
        Given {
            kind: packed / KIND_UNIT,
            arity: packed % KIND_UNIT,
            start,
            size: usize::from(self.ends[last]) - start,
        }
    }

    // The bytes that the nodes take. There is nothing to test: a clause's nodes are acceptable.
    fn weigh(&self) -> usize
        requires { SomeWalk self.now.tree.now self.now.count self.now.starts.now self.now.ends.now }
        ensures { TreeWeighs self.now.tree.now self.now.count self.now.starts.now self.now.ends.now result }
    {
        let mut size: usize = 0;
        for i in 0..self.count {
            size = size + FRONT + self.given(2 * i).size;
        }
        size
    }

    // The nodes, one behind the other.
    fn put(&self, text: &[u8], out: &mut [u8], from: usize)
        requires { PutTree text.now self.now.tree.now self.now.count self.now.starts.now self.now.ends.now (length out.old) from }
        ensures { out.new ≡ sets out.old from (nodes_bytes (nodes_of text.now self.now.starts.now self.now.ends.now self.now.count self.now.tree.now)) }
    {
        let mut place = from;
        for i in 0..self.count {
            let it = self.given(2 * i);
            put_node(text, it, out, place);
            place = place + FRONT + it.size;
        }
    }

    // The pack of it, if it fits.
    fn pack(&self, text: &[u8], form: Form, out: &mut [u8]) -> Result<usize, Fault>
        requires { Walk text.now self.now.tree.now 0 self.now.count self.now.starts.now self.now.ends.now }
        ensures { Written form (nodes_of text.now self.now.starts.now self.now.ends.now self.now.count self.now.tree.now) out.old result out.new }
    {
        let length = begin_pack(form, self.count, self.weigh(), out)?;
        self.put(text, out, form.first_node());
        Ok(length)
    }
}

// How many of the bytes are newlines.
fn newlines(text: &[u8]) -> usize
    ensures { result ≡ count_by (λ x. x == newline) text.now }
{
    text.iter().filter(|b| **b == b'\n').count()
}

// The line of a token that starts at `start`, counted on from the cursor. Behind the token is too late: a quoted item may go on over a line's end.
fn line_at(text: &[u8], cursor: Cursor, start: usize) -> usize
    requires { Ahead text.now cursor start }
    ensures { LineAt text.now cursor start result }
{
    cursor.line + newlines(&text[cursor.offset..start])
}

// The form of the pack of a clause whose first token starts at `start`.
fn form_at(text: &[u8], cursor: Cursor, start: usize, version: Version) -> Form
    requires { Ahead text.now cursor start }
    ensures { result ≡ form_at version text.now cursor start }
{
    match version {
        Version::One => Form::One,
        Version::Two => Form::Two((line_at(text, cursor, start) + 1) as u16),
    }
}

// The pack of the clause that was read into the tree. The arrays hold as many spans as a clause can have tokens, since there is no heap.
fn pack_read(
    text: &[u8],
    cursor: Cursor,
    tree: &[u16],
    read: ClauseRead,
    version: Version,
    out: &mut [u8],
) -> Result<PackedClause, Refused>
    requires { ReadTree text.now cursor tree.now read.nodes read.next }
    ensures { ClausePack (clause_form version text.now cursor) text.now cursor out.old result out.new }
{
    let mut starts = [0u16; 1024];
    let mut ends = [0u16; 1024];
    span_tokens(text, cursor, &mut starts, &mut ends);
    let form = form_at(text, cursor, usize::from(starts[0]), version);
    let spanned = SpannedTree {
        tree,
        count: read.nodes,
        starts: &starts,
        ends: &ends,
    };
    match spanned.pack(text, form, out) {
        Ok(length) => Ok(PackedClause {
            length,
            next: read.next,
        }),
        Err(fault) => Err(Refused { fault, cursor }),
    }
}

// The clause call, and the pack of what it read: a clause has at most 1,023 nodes, so the tree has room, an array, since there is no heap.
pub fn pack_clause(
    text: &[u8],
    cursor: Cursor,
    version: Version,
    out: &mut [u8],
) -> Result<PackedClause, Refused>
    ensures { ClausePack (clause_form version text.now cursor) text.now cursor out.old result out.new }
{
    let mut tree = [0u16; 2048];
    let read = read_clause(text, cursor, &mut tree)?;
    pack_read(text, cursor, &tree, read, version, out)
}
