// The C interface: the calls of `lexer` and `reader` over numbers, byte slices and lent arrays of fixed layout. `include/thrinvage.h` documents each
// function, each field and each number for those who call it. Nothing is asked of the caller: each contract ties a function to the call it is named after.
// The token call is in `ffi_token`, the clause call in `ffi_clause`.
#![tactic(auto)]

ghost use Rattle.std.specs.Prelude.{◌≡◌};
ghost use Rattle.lexer.specs.Text.{next_token_text};
ghost use Rattle.fields.specs.Fields.{cursor_at};
ghost use Rattle.ffi.specs.Parts.{left, text_leaves, LineLeft};

use fields::{cursor_at, put_counted, put_text};
use lexer::next_token_text;
use reader::list_clause;

// C calls each by its name, with numbers for the cursor: however alike they are, they stay apart.
#[unsafe(no_mangle)]
pub extern "C" fn thrinvage_next_token_text(
    text: &[u8],
    offset: usize,
    line: usize,
    column: usize,
    scratch: &mut [u8],
    token: &mut [u64; 12],
) -> u32
    ensures { left result scratch.new token.new ≡ text_leaves (next_token_text text.now (cursor_at offset line column) scratch.old) token.old }
{
    put_text(
        next_token_text(text, cursor_at(offset, line, column), scratch),
        token,
    )
}

#[unsafe(no_mangle)]
pub extern "C" fn thrinvage_list_clause(
    text: &[u8],
    offset: usize,
    line: usize,
    column: usize,
    out: &mut [u8],
    clause: &mut [u64; 5],
) -> u32
    ensures { LineLeft text.now (cursor_at offset line column) out.old out.new clause.old clause.new result }
{
    let answer = list_clause(text, cursor_at(offset, line, column), out);
    put_counted(answer.map(|read| (read.length, read.next)), clause)
}
