// The token call of the C interface. It stands in a crate of its own, and so in an LLVM module of its own: called from one place, the tokenizer is inlined
// into it, and no answer goes through memory on the way. `ffi` has the other calls.
#![tactic(auto)]

ghost use Rattle.std.specs.Prelude.{◌≡◌};
ghost use Rattle.lexer.specs.Token.{next_token};
ghost use Rattle.fields.specs.Fields.{cursor_at, leaves, source_of, answer_leaves};

use fields::{cursor_at, put_answer, source_of};
use lexer::next_token;

// The source comes last: so the token has its place among the arguments that processors hand over in registers.
#[unsafe(no_mangle)]
pub extern "C" fn thrinvage_next_token(
    text: &[u8],
    offset: usize,
    line: usize,
    column: usize,
    token: &mut [u64; 9],
    source: u32,
) -> u32
    ensures { leaves result token.new ≡ answer_leaves (next_token (source_of source) text.now (cursor_at offset line column)) token.old }
{
    put_answer(
        next_token(text, cursor_at(offset, line, column), source_of(source)),
        token,
    )
}
