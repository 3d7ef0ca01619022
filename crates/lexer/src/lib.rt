// The tokenizer: a port of src/parser/lexer.rs of scryer-prolog. Each module stands beside its part of that file.
// A rule takes the text and the offset at which it begins, as its definition does, and the byte there where that has been looked at: a struct of them would
// be made anew at each offset, and be no plainer.
#![tactic(auto)]

mod chars;
mod classes;
mod cursor;
mod digits;
mod float;
mod kind;
mod layout;
mod layout_call;
mod name;
mod number;
mod quoted;
mod refusal;
mod slice;
mod stretch;
mod text;
mod token;

pub use classes::{is_digit, is_foreign, is_layout};
pub use cursor::{Cursor, is_valid, skip_char};
pub use digits::LARGEST_MAGNITUDE;
pub use kind::{Kind, Value};
pub use layout_call::{LayoutKind, LayoutRead, next_layout};
pub use number::number_end;
pub use refusal::{Fault, Refusal, Refused, refusal_number};
pub use slice::copy_slice;
pub use stretch::stretch_end;
pub use text::{Part, TextRead, next_token_text, quoted_text, show};
pub use token::{Source, Token, TokenRead, next_token, token_here};
