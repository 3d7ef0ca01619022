// The clause reader: tokens to an end mark, read by the grammar of document 01. It stands above the tokenizer and relies on its promises alone.
#![tactic(auto)]

mod clause;
mod kinds;
mod line_call;
mod listing;
mod machine;
mod operators;
mod ops;
mod roles;

pub use clause::{ClauseRead, read_clause};
pub use kinds::{NodeKind, UnknownKind};
pub use line_call::{LineRead, list_clause, span_tokens};
