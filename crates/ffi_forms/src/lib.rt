// The calls of `pack` in the C interface that know form 2: packing in it, the reader of both forms, the moves between them. A name of form 1 keeps its meaning: who
// speaks that alone goes on with `ffi_pack`, and links nothing of this module.
#![tactic(auto)]

ghost use Rattle.std.specs.Prelude.{◌≡◌};
ghost use Rattle.fields.specs.Fields.{cursor_at, leaves};
ghost use Rattle.fields_pack.specs.Told.{ClausePackLeft, PackNodesLeft};
ghost use Rattle.pack.specs.declared.format.Form.TheVariants.{Two};
ghost use Rattle.pack.specs.declared.format.Version.{Version};
ghost use Rattle.ffi_forms.specs.Either.{form_fields, either_leaves, EitherLeft, MoveUpLeft, MoveDownLeft};

use fields::{READ, cursor_at, fault_number};
use fields_pack::{put_clause_pack, put_pack};
use lexer::Fault;
use pack::{Form, Unpacked, Version, move_down, move_up, pack_clause, pack_nodes, unpack_either};

// Where the header's struct has the count of nodes, behind the form's number and its line.
const COUNT: usize = 2;

fn form_fields(form: Form) -> [u64; 2]
    ensures { result ≡ form_fields form }
{
    match form {
        Form::One => [1, 0],
        Form::Two(line) => [2, line as u64],
    }
}

fn put_either(answer: Result<Unpacked, Fault>, told: &mut [u64; 3]) -> u32
    ensures { leaves result told.new ≡ either_leaves answer told.old }
{
    match answer {
        Err(fault) => fault_number(fault),
        Ok(Unpacked { form, count }) => {
            told[..COUNT].copy_from_slice(&form_fields(form));
            told[COUNT] = count as u64;
            READ
        }
    }
}

#[unsafe(no_mangle)]
pub extern "C" fn thrinvage_pack_clause_form_2(
    text: &[u8],
    offset: usize,
    line: usize,
    column: usize,
    out: &mut [u8],
    clause: &mut [u64; 5],
) -> u32
    ensures { ClausePackLeft Version.Two text.now (cursor_at offset line column) out.old out.new clause.old clause.new result }
{
    put_clause_pack(
        pack_clause(text, cursor_at(offset, line, column), Version::Two, out),
        clause,
    )
}

// The count stands beside the nodes in the C interface.
#[unsafe(no_mangle)]
pub extern "C" fn thrinvage_pack_nodes_form_2(
    bytes: &[u8],
    nodes: &[u32],
    count: usize,
    line: u16,
    out: &mut [u8],
    packed: &mut [u64; 1],
) -> u32
    ensures { PackNodesLeft (Two line) bytes.now nodes.now count out.old out.new packed.old packed.new result }
{
    put_pack(
        pack_nodes(bytes, nodes, count, Form::Two(line), out),
        packed,
    )
}

#[unsafe(no_mangle)]
pub extern "C" fn thrinvage_unpack_either(
    image: &[u8],
    nodes: &mut [u32],
    unpacked: &mut [u64; 3],
) -> u32
    ensures { EitherLeft image.now nodes.old nodes.new unpacked.old unpacked.new result }
{
    put_either(unpack_either(image, nodes), unpacked)
}

#[unsafe(no_mangle)]
pub extern "C" fn thrinvage_move_up(image: &[u8], out: &mut [u8], moved: &mut [u64; 1]) -> u32
    ensures { MoveUpLeft image.now out.old out.new moved.old moved.new result }
{
    put_pack(move_up(image, out), moved)
}

#[unsafe(no_mangle)]
pub extern "C" fn thrinvage_move_down(image: &[u8], out: &mut [u8], moved: &mut [u64; 1]) -> u32
    ensures { MoveDownLeft image.now out.old out.new moved.old moved.new result }
{
    put_pack(move_down(image, out), moved)
}
