// A reader as the numbers of `struct thrinvage_reader` in `include/thrinvage.h`, and back.
ghost use Rattle.std.specs.Prelude.{◌≡◌, cond, Some, None};
ghost use Rattle.ffi_chunks.specs.State.{mode_number, slash_of, phase_number, refusal_of_phase, refused_at, fields_of, known_mode, known_refusal, known_phase, mode_of, refusal_of, phase_of, known, meant, made_up, reader_of};

use chunks::{Mode, Phase, Reader, start};
use fields::fault_number;
use lexer::{Cursor, Fault, Refusal};

// Where each number stands in the C interface's array.
const MODE: usize = 0;

const SLASH: usize = 1;

const OFFSET: usize = 2;

const LINE: usize = 3;

const COLUMN: usize = 4;

const LAYOUT: usize = 5;

const FROM: usize = 6;

const TO: usize = 7;

const PHASE: usize = 8;

const REFUSAL: usize = 9;

const REFUSED_AT: usize = 10;

// Its number, and where the slash is; 0 where there is none, as the C interface says.
fn mode_numbers(mode: Mode) -> (u64, u64)
    ensures { result ≡ (mode_number mode, slash_of mode) }
{
    match mode {
        Mode::Blank => (0, 0),
        Mode::Line => (1, 0),
        Mode::Inside(slash) => (2, slash as u64),
    }
}

// Its number, that of its refusal, and where that is; 0 where there is none, as the C interface says.
fn phase_numbers(phase: Phase) -> (u64, u64, u64)
    ensures { result ≡ (phase_number phase, refusal_of_phase phase, refused_at phase) }
{
    match phase {
        Phase::Open => (0, 0, 0),
        Phase::Ended => (1, 0, 0),
        Phase::Refused(fault) => (2, fault_number(fault) as u64, fault.offset as u64),
    }
}

// The numbers of a reader that took `taken` bytes of the last chunk.
pub(crate) fn put_reader(reader: Reader, taken: usize, fields: &mut [u64; 12])
    ensures { fields.new ≡ fields_of reader taken }
{
    let cursor = reader.cursor;
    let (mode, slash) = mode_numbers(reader.mode);
    let (phase, refusal, refused_at) = phase_numbers(reader.phase);
    *fields = [
        mode,
        slash,
        cursor.offset as u64,
        cursor.line as u64,
        cursor.column as u64,
        reader.layout as u64,
        reader.from as u64,
        reader.to as u64,
        phase,
        refusal,
        refused_at,
        taken as u64,
    ];
}

// What numbers mean, where a reader can have them. The types are of other crates, and so are the arrays: no `TryFrom` of theirs can stand here.
#[tactic(auto, unfolding(crate::specs::State::known_mode, crate::specs::State::mode_of))]
fn mode_of(mode: u64, slash: u64) -> Option<Mode>
    ensures { result ≡ cond (known_mode mode slash) (Some (mode_of mode slash)) None }
{
    match (mode, slash) {
        (0, 0) => Some(Mode::Blank),
        (1, 0) => Some(Mode::Line),
        (2, _) => Some(Mode::Inside(slash as usize)),
        _ => None,
    }
}

#[tactic(auto, unfolding(crate::specs::State::known_refusal, crate::specs::State::refusal_of))]
fn refusal_of(number: u64) -> Option<Refusal>
    ensures { result ≡ cond (known_refusal number) (Some (refusal_of number)) None }
{
    match number {
        1 => Some(Refusal::EndOfText),
        2 => Some(Refusal::UnclosedComment),
        3 => Some(Refusal::NoToken),
        4 => Some(Refusal::BadQuoted),
        5 => Some(Refusal::ForeignByte),
        6 => Some(Refusal::SetAside),
        7 => Some(Refusal::OutOfLimit),
        8 => Some(Refusal::NotValid),
        9 => Some(Refusal::NoRoom),
        10 => Some(Refusal::TooManyTokens),
        11 => Some(Refusal::NoReading),
        12 => Some(Refusal::NoText),
        13 => Some(Refusal::TooLong),
        14 => Some(Refusal::NoPack),
        15 => Some(Refusal::TokenTooLong),
        18 => Some(Refusal::UnknownVersion),
        _ => None,
    }
}

#[tactic(auto, unfolding(crate::specs::State::known_phase, crate::specs::State::phase_of))]
fn phase_of(phase: u64, refusal: u64, at: u64) -> Option<Phase>
    ensures { result ≡ cond (known_phase phase refusal at) (Some (phase_of phase refusal at)) None }
{
    match (phase, refusal, at) {
        (0, 0, 0) => Some(Phase::Open),
        (1, 0, 0) => Some(Phase::Ended),
        (2, _, _) => {
            let refusal = refusal_of(refusal)?;
            Some(Phase::Refused(Fault {
                refusal,
                offset: at as usize,
            }))
        }
        _ => None,
    }
}

#[tactic(auto, unfolding(crate::specs::State::known))]
fn meant_by(fields: &[u64; 12]) -> Option<Reader>
    ensures { result ≡ cond (known fields.now) (Some (meant fields.now)) None }
{
    let mode = mode_of(fields[MODE], fields[SLASH])?;
    let phase = phase_of(fields[PHASE], fields[REFUSAL], fields[REFUSED_AT])?;
    Some(Reader {
        mode,
        cursor: Cursor {
            offset: fields[OFFSET] as usize,
            line: fields[LINE] as usize,
            column: fields[COLUMN] as usize,
        },
        layout: fields[LAYOUT] as usize,
        from: fields[FROM] as usize,
        to: fields[TO] as usize,
        phase,
    })
}

// A reader that is not sound: `feed` refuses it.
fn made_up() -> Reader
    ensures { result ≡ made_up }
{
    Reader { from: 1, ..start() }
}

#[tactic(auto, unfolding(crate::specs::State::reader_of))]
pub(crate) fn reader_of(fields: &[u64; 12]) -> Reader
    ensures { result ≡ reader_of fields.now }
{
    meant_by(fields).unwrap_or(made_up())
}
