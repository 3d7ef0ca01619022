// The reader that is fed a text chunk by chunk: its state, and the three calls.
ghost use Rattle.std.specs.Prelude.{◌≡◌, ◌-◌, length, take, drop};
ghost use Rattle.lexer.specs.Cursor.{part};
ghost use Rattle.chunks.specs.Feed.{sound, begun, finishing, in_phase, at_hand, admitted, takes, leaves, refusing, gave, fed_by, took, offered, stage_of, feeding, Admitted, Behind, Windowed};
ghost use Rattle.chunks.specs.Reader.{reading};

use crate::hand::{Next, read_hand};
use crate::layout::Mode;
use crate::shown::Shown;
use crate::verdict::Given;
use crate::window::{WINDOW, bytes_taken, hand_place, take_in};
use lexer::{Cursor, Fault, Refusal, is_valid};

// 01: a text has at most so many bytes.
const LONGEST: usize = 65535;

// The text goes on; the sender has said that it has ended; refused, which each further call repeats. A state with three names, and no call's answer: `stage_of`
// makes a `Result` of it.
#[derive(Clone, Copy)]
pub enum Phase {
    Open,
    Ended,
    Refused(Fault),
}

// Where a reading stands between two calls. `window[from..to]` are the bytes at hand, delivered and not yet read, and the cursor is that of the first of
// them. `layout` is where the layout since the last token began: the cursor's own offset where none was passed.
#[derive(Clone, Copy)]
pub struct Reader {
    pub mode: Mode,
    pub cursor: Cursor,
    pub layout: usize,
    pub from: usize,
    pub to: usize,
    pub phase: Phase,
}

// The reader for the next call, how many bytes of the chunk were taken, and what they gave.
#[derive(Clone, Copy)]
pub struct Fed {
    pub reader: Reader,
    pub taken: usize,
    pub given: Given,
}

// A reader that has read nothing.
pub fn start() -> Reader
    ensures { result ≡ begun }
{
    Reader {
        mode: Mode::Blank,
        cursor: Cursor {
            offset: 0,
            line: 0,
            column: 0,
        },
        layout: 0,
        from: 0,
        to: 0,
        phase: Phase::Open,
    }
}

fn in_phase(reader: Reader, phase: Phase) -> Reader
    ensures { result ≡ in_phase reader phase }
{
    Reader { phase, ..reader }
}

// The sender says that the text has ended. What is at hand is handed out by `feed` with empty chunks.
#[tactic(auto, unfolding(crate::specs::Feed::ended_phase))]
pub fn finish(reader: Reader) -> Reader
    ensures { result ≡ finishing reader }
{
    match reader.phase {
        Phase::Open => in_phase(reader, Phase::Ended),
        Phase::Ended | Phase::Refused(_) => reader,
    }
}

// Whether a reader can be one that these calls gave; a reader that was made up may pass, and is then read like any other.
fn is_sound(reader: Reader) -> bool
    ensures { result ≡ sound reader }
{
    let cursor = reader.cursor;
    if LONGEST < cursor.offset {
        return false;
    }
    reader.from <= reader.to
        && reader.to < WINDOW
        && reader.layout <= cursor.offset
        && is_valid(cursor.offset + (reader.to - reader.from), cursor)
}

// Whether a chunk of `n` bytes may come: none behind the end, and no more than a text has.
fn is_admitted(reader: Reader, n: usize, ended: bool) -> bool
    ensures { result ≡ admitted ended reader n }
{
    if is_sound(reader) {
        if ended {
            return n == 0;
        }
        let cursor = reader.cursor;
        return n <= LONGEST - (cursor.offset + (reader.to - reader.from));
    }
    false
}

// Refused, with `taken` bytes of the chunk taken: the reader keeps it.
fn refuse(reader: Reader, taken: usize, fault: Fault) -> Fed
    ensures { result ≡ refusing reader taken fault }
{
    Fed {
        reader: in_phase(reader, Phase::Refused(fault)),
        taken,
        given: Err(fault),
    }
}

// The answer, by what the bytes at hand give. They end at `to` of the window, and at `sum` of the text.
#[tactic(auto, unfolding(crate::specs::Feed::fed_by))]
fn fed_by(reader: Reader, to: usize, sum: usize, taken: usize, next: Result<Next, Fault>) -> Fed
    requires { Behind to sum next }
    ensures { result ≡ fed_by reader to sum taken next }
{
    match next {
        Ok(Next::Token(read)) => Fed {
            reader: Reader {
                mode: Mode::Blank,
                cursor: read.next,
                layout: read.next.offset,
                from: to - (sum - read.next.offset),
                to,
                ..reader
            },
            taken,
            given: Ok(Some(read)),
        },
        Ok(
            Next::More {
                mode,
                cursor,
                layout,
            },
        ) => Fed {
            reader: Reader {
                mode,
                cursor,
                layout,
                from: to - (sum - cursor.offset),
                to,
                ..reader
            },
            taken,
            given: Ok(None),
        },
        Err(fault) => refuse(reader, taken, fault),
    }
}

// Reads the bytes at hand, which stand from `place` to `to`, with the unknown byte behind them.
fn read_window(
    reader: Reader,
    window: &[u8],
    place: usize,
    to: usize,
    taken: usize,
    ended: bool,
) -> Fed
    requires { Windowed window.now reader place to }
    ensures { result ≡ gave reader to taken (reading ended reader.mode reader.cursor reader.layout (part place to window.now)) }
{
    let behind = to + 1;
    let sum = reader.cursor.offset + (to - place);
    let shown = Shown {
        bytes: &window[place..behind],
        ended,
    };
    fed_by(
        reader,
        to,
        sum,
        taken,
        read_hand(shown, reader.mode, reader.cursor, reader.layout),
    )
}

// Takes what there is room for, and reads the bytes at hand.
fn take_chunk(reader: Reader, window: &mut [u8], chunk: &[u8], ended: bool) -> Fed
    requires { Admitted window.old reader (length chunk.now) }
    ensures { leaves result window.new ≡ took ended reader window.old chunk.now (takes (at_hand reader) (length chunk.now)) }
{
    let from = reader.from;
    let hand = reader.to - from;
    let place = hand_place(from);
    let taken = bytes_taken(hand, chunk.len());
    take_in(window, from, reader.to, place, chunk, taken);
    read_window(reader, window, place, place + hand + taken, taken, ended)
}

// `ended` goes beside the reader: it is what the phase says where it is no refusal, and a reader asked again would have that third way to answer.
fn offer(reader: Reader, window: &mut [u8; WINDOW], chunk: &[u8], ended: bool) -> Fed
    ensures { leaves result window.new ≡ offered ended reader window.old chunk.now }
{
    if is_admitted(reader, chunk.len(), ended) {
        return take_chunk(reader, window, chunk, ended);
    }
    refuse(
        reader,
        0,
        Fault {
            refusal: Refusal::NotValid,
            offset: 0,
        },
    )
}

// Whether the bytes that are read end there; the refusal, where none are read.
#[tactic(auto, unfolding(crate::specs::Feed::stage_of))]
fn stage_of(phase: Phase) -> Result<bool, Fault>
    ensures { result ≡ stage_of phase }
{
    match phase {
        Phase::Open => Ok(false),
        Phase::Ended => Ok(true),
        Phase::Refused(fault) => Err(fault),
    }
}

// Takes bytes of a chunk, says how many, and hands out at most one token. The caller goes on with the rest of the chunk until none is handed out and
// nothing is left of it; behind `finish`, with empty chunks until one is refused.
#[tactic(auto, unfolding(crate::specs::Feed::by_phase, crate::specs::Feed::stage_of))]
pub fn feed(reader: Reader, window: &mut [u8; WINDOW], chunk: &[u8]) -> Fed
    ensures { leaves result window.new ≡ feeding reader window.old chunk.now }
{
    match stage_of(reader.phase) {
        Ok(ended) => offer(reader, window, chunk, ended),
        Err(fault) => Fed {
            reader,
            taken: 0,
            given: Err(fault),
        },
    }
}
