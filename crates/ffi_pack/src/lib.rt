// The calls of `pack` in the C interface, of form 1. They stand in a crate of their own, and so in an LLVM module of their own: a program that packs nothing does
// not link them, and one that speaks form 1 alone links nothing of form 2, which is in `ffi_forms`.
#![tactic(auto)]

ghost use Rattle.fields.specs.Fields.{cursor_at};
ghost use Rattle.fields_pack.specs.Told.{ClausePackLeft, PackNodesLeft};
ghost use Rattle.pack.specs.declared.format.Form.TheVariants.{One};
ghost use Rattle.pack.specs.declared.format.Version.{Version};
ghost use Rattle.ffi_pack.specs.Packs.{UnpackLeft};

use fields::cursor_at;
use fields_pack::{put_clause_pack, put_pack};
use pack::{Form, Version, pack_clause, pack_nodes, unpack};

#[unsafe(no_mangle)]
pub extern "C" fn thrinvage_pack_clause(
    text: &[u8],
    offset: usize,
    line: usize,
    column: usize,
    out: &mut [u8],
    clause: &mut [u64; 5],
) -> u32
    ensures { ClausePackLeft Version.One text.now (cursor_at offset line column) out.old out.new clause.old clause.new result }
{
    put_clause_pack(
        pack_clause(text, cursor_at(offset, line, column), Version::One, out),
        clause,
    )
}

// The count stands beside the nodes in the C interface.
#[unsafe(no_mangle)]
pub extern "C" fn thrinvage_pack_nodes(
    bytes: &[u8],
    nodes: &[u32],
    count: usize,
    out: &mut [u8],
    packed: &mut [u64; 1],
) -> u32
    ensures { PackNodesLeft One bytes.now nodes.now count out.old out.new packed.old packed.new result }
{
    put_pack(pack_nodes(bytes, nodes, count, Form::One, out), packed)
}

#[unsafe(no_mangle)]
pub extern "C" fn thrinvage_unpack(image: &[u8], nodes: &mut [u32], count: &mut [u64; 1]) -> u32
    ensures { UnpackLeft image.now nodes.old nodes.new count.old count.new result }
{
    put_pack(unpack(image, nodes).map(|unpacked| unpacked.count), count)
}
