// The clause call of the C interface. It stands in a crate of its own, and so in an LLVM module of its own, as the token call does in `ffi_token`: the
// tokenizer is inlined into the loop over a clause's tokens.
#![tactic(auto)]

ghost use Rattle.fields.specs.Fields.{cursor_at};
ghost use Rattle.ffi_clause.specs.Clauses.{ClauseLeft};

use fields::{cursor_at, put_counted};
use reader::read_clause;

#[unsafe(no_mangle)]
pub extern "C" fn thrinvage_read_clause(
    text: &[u8],
    offset: usize,
    line: usize,
    column: usize,
    tree: &mut [u16],
    clause: &mut [u64; 5],
) -> u32
    ensures { ClauseLeft text.now (cursor_at offset line column) tree.old tree.new clause.old clause.new result }
{
    let answer = read_clause(text, cursor_at(offset, line, column), tree);
    put_counted(answer.map(|read| (read.nodes, read.next)), clause)
}
