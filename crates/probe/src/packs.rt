// The calls that pack and unpack, and their answers as lines.
use crate::Malformed;
use crate::answers::{FILL, counted_line, refused_at_start, refused_line};
use crate::header::Case;
use crate::output::Output;
use lexer::Fault;
use pack::{Form, Unpacked, Version};

// Room for the longest image, 65,538 bytes, and more. What is lent is a part of an array, since there is no heap.
const LARGEST_IMAGE: usize = 70000;
// Room for the most nodes, 1,023, and one more.
const LARGEST_NODES: usize = 1024;
// kind, arity, start and length
const NODE_NUMBERS: usize = 4;
// More nodes than can be packed.
const MOST_GIVEN: usize = 1100;
// The bytes of a number in a body.
const WORD: usize = 2;
// The bytes of a node in a body, without its spelling.
const NODE_BYTES: usize = NODE_NUMBERS * WORD;
// What the lent nodes hold before the call.
const NODE_FILL: u32 = 43690;

fn image_line(out: &mut Output, image: &[u8]) {
    out.put_text("image ");
    out.put_pairs(image);
    out.put(b'\n');
}

// ---- packing of a clause

pub(crate) fn pack_case(
    out: &mut Output,
    version: Version,
    case: Case<'_>,
) -> Result<(), Malformed> {
    let mut lent = [FILL; LARGEST_IMAGE];
    let (image, _) = lent.split_at_mut_checked(case.room).ok_or(Malformed)?;
    match pack::pack_clause(case.body, case.cursor, version, image) {
        Ok(packed) => counted_line(out, "pack", packed.length, packed.next),
        Err(refused) => refused_line(out, refused),
    }
    image_line(out, image);
    Ok(())
}

// ---- unpacking

// The version byte and the line field, as docs/PROBE.md has them. A `Display` of the form would be pack's to write.
fn put_form(out: &mut Output, form: Form) {
    match form {
        Form::One => out.put_text(" 1 0"),
        Form::Two(line) => {
            out.put_text(" 2");
            out.put_number(u64::from(line));
        }
    }
}

// A form follows the count, and no cursor: no `counted_line`.
fn nodes_line(out: &mut Output, unpacked: Unpacked) {
    out.put_text("nodes");
    out.put_number(unpacked.count as u64);
    put_form(out, unpacked.form);
    out.put(b'\n');
}

// The room counts nodes.
pub(crate) fn unpack_case(out: &mut Output, case: Case<'_>) -> Result<(), Malformed> {
    if case.room > LARGEST_NODES {
        return Err(Malformed);
    }
    let mut lent = [NODE_FILL; NODE_NUMBERS * LARGEST_NODES];
    let nodes = &mut lent[..NODE_NUMBERS * case.room];
    match pack::unpack_either(case.body, nodes) {
        Ok(unpacked) => nodes_line(out, unpacked),
        Err(fault) => refused_at_start(out, fault),
    }
    out.put_text("slice");
    out.put_numbers(nodes);
    out.put(b'\n');
    Ok(())
}

// ---- packing of given nodes, and the moves

// The length of the image that was written, or why there is none; and the image's room.
fn pack_lines(out: &mut Output, name: &str, answer: Result<usize, Fault>, image: &[u8]) {
    match answer {
        Ok(length) => {
            out.put_text(name);
            out.put_number(length as u64);
            out.put(b'\n');
        }
        Err(fault) => refused_at_start(out, fault),
    }
    image_line(out, image);
}

fn move_image(to: Version, image: &[u8], moved: &mut [u8]) -> Result<usize, Fault> {
    match to {
        Version::One => pack::move_down(image, moved),
        Version::Two => pack::move_up(image, moved),
    }
}

// The move to this version.
pub(crate) fn move_case(out: &mut Output, to: Version, case: Case<'_>) -> Result<(), Malformed> {
    let mut lent = [FILL; LARGEST_IMAGE];
    let (moved, _) = lent.split_at_mut_checked(case.room).ok_or(Malformed)?;
    let answer = move_image(to, case.body, moved);
    pack_lines(out, "move", answer, moved);
    Ok(())
}

// The number in front, the greater half first, and what is behind it.
fn read_word(body: &[u8]) -> Result<(u16, &[u8]), Malformed> {
    let (&word, rest) = body.split_first_chunk::<WORD>().ok_or(Malformed)?;
    Ok((u16::from_be_bytes(word), rest))
}

// As many numbers as the slice holds.
fn read_words(words: &[u8], numbers: &mut [u32]) {
    for (number, &word) in numbers.iter_mut().zip(words.as_chunks::<WORD>().0) {
        *number = u32::from(u16::from_be_bytes(word));
    }
}

// The count of nodes, their numbers, and the bytes that the spellings are parts of.
fn given_case(out: &mut Output, form: Form, body: &[u8], room: usize) -> Result<(), Malformed> {
    let (count, rest) = read_word(body)?;
    let count = usize::from(count);
    if count > MOST_GIVEN {
        return Err(Malformed);
    }
    let (words, bytes) = rest.split_at_checked(NODE_BYTES * count).ok_or(Malformed)?;
    let mut given = [0u32; NODE_NUMBERS * MOST_GIVEN];
    let nodes = &mut given[..NODE_NUMBERS * count];
    read_words(words, nodes);
    let mut lent = [FILL; LARGEST_IMAGE];
    let (image, _) = lent.split_at_mut_checked(room).ok_or(Malformed)?;
    let answer = pack::pack_nodes(bytes, nodes, count, form, image);
    pack_lines(out, "pack", answer, image);
    Ok(())
}

// Form 2 has the line before them.
pub(crate) fn nodes_case(
    out: &mut Output,
    version: Version,
    case: Case<'_>,
) -> Result<(), Malformed> {
    match version {
        Version::One => given_case(out, Form::One, case.body, case.room),
        Version::Two => {
            let (line, rest) = read_word(case.body)?;
            given_case(out, Form::Two(line), rest, case.room)
        }
    }
}
