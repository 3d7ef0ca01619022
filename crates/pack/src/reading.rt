// Unpacking: an image is read twice, first to see that it is a pack, then for its numbers.
ghost use Rattle.std.specs.Prelude.{◌≡◌, drop};
ghost use Rattle.std.proofs.lemmas.List.Edits.{sets};
ghost use Rattle.pack.specs.Calls.{UnpackOutcome, EitherOutcome};
ghost use Rattle.pack.specs.Passes.{Inside, First, Word, Headed, scanned, Scanning, counted, Skips, listed, Listing, SomePack, PackListed, form_in, Begins, Judgement, version_in};

use crate::answers::{NO_PACK, NO_ROOM, UNKNOWN_VERSION, Unpacked};
use crate::format::{BODY_AT, FRONT, Form, LENGTH_AT, MOST_NODES, NUMBERS, Version};
use crate::kinds::stack;
use crate::nodes::{Given, put_given};
use lexer::Fault;

// What stands before a node's spelling.
#[derive(Clone, Copy)]
pub struct Head {
    pub kind: usize,
    pub arity: usize,
    pub size: usize,
}

// The version byte.
fn version_of(s: &[u8]) -> usize
    requires { Inside s.now 0 1 }
    ensures { First s.now result }
{
    usize::from(s[0])
}

// Two bytes, the higher first.
fn word_at(s: &[u8], at: usize) -> usize
    requires { Inside s.now at 2 }
    ensures { Word s.now at result }
{
    usize::from(u16::from_be_bytes([s[at], s[at + 1]]))
}

fn head_at(s: &[u8], at: usize) -> Head
    requires { Inside s.now at 5 }
    ensures { Headed s.now at result }
{
    Head {
        kind: usize::from(s[at]),
        arity: word_at(s, at + 1),
        size: word_at(s, at + 3),
    }
}

// Whether so many nodes, and nothing else, stand from `from` on, and make one tree.
fn scan(s: &[u8], from: usize, count: usize) -> bool
    requires { Scanning s.now from count }
    ensures { result ≡ scanned count 0 (drop from s.now) }
{
    let mut at = from;
    let mut trees: usize = 0;
    for _ in 0..count {
        if s.len() - at < FRONT {
            return false;
        }
        let head = head_at(s, at);
        if s.len() - at - FRONT < head.size {
            return false;
        }
        let Some(next) = stack(trees, head.kind, head.arity) else {
            return false;
        };
        trees = next;
        at = at + FRONT + head.size;
    }
    if at < s.len() {
        return false;
    }
    trees == 1
}

// The node count of a pack whose body has `skip` bytes before it. The version is not looked at.
fn count_nodes(s: &[u8], skip: usize) -> Option<usize>
    requires { Skips skip }
    ensures { result ≡ counted skip s.now }
{
    if s.len() < skip + FRONT {
        return None;
    }
    if word_at(s, LENGTH_AT) != s.len() - BODY_AT {
        return None;
    }
    let count = word_at(s, skip + BODY_AT);
    if MOST_NODES < count {
        return None;
    }
    if scan(s, skip + FRONT, count) {
        return Some(count);
    }
    None
}

// The numbers of so many nodes from `from` on, four each, at the front of the slice.
fn put_numbers(s: &[u8], from: usize, count: usize, nodes: &mut [u32])
    requires { Listing s.now from count nodes.old }
    ensures { nodes.new ≡ sets nodes.old 0 (listed count from (drop from s.now)) }
{
    let mut at = from;
    for i in 0..count {
        let head = head_at(s, at);
        let it = Given {
            kind: head.kind,
            arity: head.arity,
            start: at + FRONT,
            size: head.size,
        };
        put_given(it, nodes, NUMBERS * i);
        at = at + FRONT + head.size;
    }
}

// The numbers of a pack of so many nodes, if they fit.
fn list_pack(image: &[u8], pack: Unpacked, nodes: &mut [u32]) -> Result<Unpacked, Fault>
    requires { SomePack image.now pack }
    ensures { PackListed image.now pack.form nodes.old result nodes.new }
{
    if nodes.len() / NUMBERS < pack.count {
        return Err(NO_ROOM);
    }
    put_numbers(image, pack.form.first_node(), pack.count, nodes);
    Ok(pack)
}

// The form that the first bytes of a pack say.
fn form_in(s: &[u8], version: Version) -> Form
    requires { Inside s.now 0 5 }
    ensures { result ≡ form_in version s.now }
{
    match version {
        Version::One => Form::One,
        Version::Two => Form::Two(word_at(s, BODY_AT) as u16),
    }
}

// What an image of this version is to a call that knows it.
fn judge_nodes(image: &[u8], version: Version) -> Result<Unpacked, Fault>
    requires { Begins image.now version }
    ensures { Judgement version image.now result }
{
    let count = count_nodes(image, version.line_size()).ok_or(NO_PACK)?;
    Ok(Unpacked {
        form: form_in(image, version),
        count,
    })
}

// What an image is to a call that knows one version.
pub(crate) fn judge(image: &[u8], version: Version) -> Result<Unpacked, Fault>
    ensures { Judgement version image.now result }
{
    if image.is_empty() {
        return Err(NO_PACK);
    }
    if version_of(image) != version.byte() {
        return Err(UNKNOWN_VERSION);
    }
    judge_nodes(image, version)
}

// The nodes of a pack of form 1, as masts in the field read it: four numbers each, with the spelling as a part of the image.
pub fn unpack(image: &[u8], nodes: &mut [u32]) -> Result<Unpacked, Fault>
    ensures { UnpackOutcome image.now nodes.old result nodes.new }
{
    match judge(image, Version::One) {
        Err(_fault) => Err(NO_PACK),
        Ok(pack) => list_pack(image, pack, nodes),
    }
}

// The version to judge an image by: one that is neither 1 nor 2 is not that of form 1 either, and is refused so.
fn version_in(image: &[u8]) -> Version
    ensures { result ≡ version_in image.now }
{
    if image.is_empty() {
        return Version::One;
    }
    if version_of(image) == Version::Two.byte() {
        return Version::Two;
    }
    Version::One
}

// The nodes of a pack of either form, in the same way.
pub fn unpack_either(image: &[u8], nodes: &mut [u32]) -> Result<Unpacked, Fault>
    ensures { EitherOutcome image.now nodes.old result nodes.new }
{
    let pack = judge(image, version_in(image))?;
    list_pack(image, pack, nodes)
}
