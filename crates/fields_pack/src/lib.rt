// What the pack functions of the C interface tell, for the crates that have them: `ffi_pack`, of form 1, and `ffi_forms`. The clause functions tell as that of
// `ffi_clause` does; the others tell one number, and a refusal of theirs points at nothing.
#![tactic(auto)]

ghost use Rattle.std.specs.Prelude.{◌≡◌};
ghost use Rattle.fields.specs.Fields.{leaves};
ghost use Rattle.fields_pack.specs.Told.{numbered, clause_pack_leaves, pack_leaves};

use fields::{READ, fault_number, put_counted};
use lexer::{Fault, Refused};
use pack::PackedClause;

// The image's length, and the cursor behind the clause.
pub fn put_clause_pack(answer: Result<PackedClause, Refused>, fields: &mut [u64; 5]) -> u32
    ensures { leaves result fields.new ≡ clause_pack_leaves answer fields.old }
{
    put_counted(answer.map(|packed| (packed.length, packed.next)), fields)
}

// What was counted: bytes, or nodes.
pub fn put_number(number: usize, told: &mut [u64; 1]) -> u32
    ensures { leaves result told.new ≡ numbered number told.old }
{
    told[0] = number as u64;
    READ
}

// The same, or why there is none.
pub fn put_pack(answer: Result<usize, Fault>, told: &mut [u64; 1]) -> u32
    ensures { leaves result told.new ≡ pack_leaves answer told.old }
{
    match answer {
        Err(fault) => fault_number(fault),
        Ok(number) => put_number(number, told),
    }
}
