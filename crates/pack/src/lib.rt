// Packs: a clause in a radio message, and back. It stands above the tokenizer and the clause reader.
#![tactic(auto)]

mod answers;
mod clause_call;
mod format;
mod kinds;
mod moves;
mod nodes;
mod reading;
mod writing;

pub use answers::{PackedClause, Unpacked};
pub use clause_call::pack_clause;
pub use format::{Form, Version};
pub use moves::{move_down, move_up};
pub use reading::{unpack, unpack_either};
pub use writing::pack_nodes;
