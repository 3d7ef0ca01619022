// The layout call of the C interface. It stands in a crate of its own, and so in an LLVM module of its own: a program that colours nothing does not link it.
#![tactic(auto)]

ghost use Rattle.std.specs.Prelude.{◌≡◌};
ghost use Rattle.lexer.specs.LayoutCall.{next_layout};
ghost use Rattle.fields.specs.Fields.{cursor_at, leaves, layout_leaves};

use fields::{cursor_at, put_layout};
use lexer::next_layout;

#[unsafe(no_mangle)]
pub extern "C" fn thrinvage_next_layout(
    text: &[u8],
    offset: usize,
    line: usize,
    column: usize,
    layout: &mut [u64; 6],
) -> u32
    ensures { leaves result layout.new ≡ layout_leaves (next_layout text.now (cursor_at offset line column)) layout.old }
{
    put_layout(next_layout(text, cursor_at(offset, line, column)), layout)
}
