// Answers the cases on standard input, one after another, in the format of docs/PROBE.md. A case that is
// malformed gets the line `malformed` and is the last. What is proved: the program is safe and ends; no contract can say what is read or written.
#![tactic(auto)]

mod answers;
mod deliveries;
mod header;
mod input;
mod output;
mod packs;

ghost use Rattle.std.specs.Prelude.{◌≤◌, IfOk, length};

use answers::reading_case;
use deliveries::deliver_case;
use header::{Call, Case, LARGEST_CASE, read_case};
use input::Input;
use output::Output;
use packs::{move_case, nodes_case, pack_case, unpack_case};

// What is no case. Nothing is put for it.
#[derive(Clone, Copy, Debug, PartialEq, Eq)]
pub struct Malformed;

// The answers to one case. How much room it may lend, what it calls says.
fn answer(out: &mut Output, case: Case<'_>) -> Result<(), Malformed> {
    match case.call {
        Call::Read(reading) => reading_case(out, reading, case),
        Call::Deliver => deliver_case(out, case),
        Call::Pack(version) => pack_case(out, version, case),
        Call::Unpack => unpack_case(out, case),
        Call::Nodes(version) => nodes_case(out, version, case),
        Call::Move(to) => move_case(out, to, case),
    }
}

// Answers the case at the front of `input`, and says how many bytes are behind it.
fn answer_case(out: &mut Output, input: &[u8]) -> Result<usize, Malformed>
    ensures { IfOk result (λ left. left ≤ length input.now) }
{
    let (case, behind) = read_case(input)?;
    answer(out, case)?;
    Ok(behind.len())
}

// Answers the cases up to the end of the input, or to one that is malformed. A proved loop has to end, and nothing says that the input does: so it
// counts its turns, up to a number that no run comes to.
fn answer_cases(out: &mut Output, input: &mut Input) -> Result<(), Malformed> {
    for _ in 0..u64::MAX {
        input.refill(LARGEST_CASE);
        let unread = input.unread();
        if unread.is_empty() {
            break;
        }
        let left = answer_case(out, unread)?;
        input.keep_last(left);
    }
    Ok(())
}

fn main() {
    let mut input = Input::new();
    let mut out = Output::new();
    if answer_cases(&mut out, &mut input).is_err() {
        out.put_text("malformed\n");
    }
    out.flush();
}
