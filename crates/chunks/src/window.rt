// The window: the bytes at hand are moved to its front, and those of a chunk are put behind them.
ghost use Rattle.std.specs.Prelude.{◌≡◌, length, drop, set, ◌+◌, ◌-◌};
ghost use Rattle.std.proofs.Math.Seq.{paste};
ghost use Rattle.chunks.specs.Shift.{unknown};
ghost use Rattle.chunks.specs.Feed.{takes, place_of, filled_with, Moves, Fills, TakesIn};

use crate::verdict::MOST_AT_HAND;
use lexer::copy_slice;

// 1,027 bytes at hand, as many again, so that each is moved once at most, and the unknown byte.
pub const WINDOW: usize = 2057;

// The unknown byte, which stands for one that has not come: it is foreign, so a rule that looks at it is refused there.
const UNKNOWN: u8 = 0;

// Behind it half of the window is free for the bytes at hand.
const HALF: usize = 1028;

// With so many bytes at hand and the unknown one, no token of them can be too long.
const FULL_HAND: usize = 1022;

// How many of `n` bytes are taken to the `hand` at hand.
pub(crate) fn bytes_taken(hand: usize, n: usize) -> usize
    ensures { result ≡ takes hand n }
{
    if hand < FULL_HAND {
        return n.min(FULL_HAND - hand);
    }
    if hand < MOST_AT_HAND {
        return n.min(MOST_AT_HAND - hand);
    }
    0
}

// Where the bytes at hand, which begin at `from`, are to begin.
pub(crate) fn hand_place(from: usize) -> usize
    ensures { result ≡ place_of from }
{
    if from < HALF { from } else { 0 }
}

// Moves them there.
fn move_hand(window: &mut [u8], from: usize, to: usize, place: usize)
    requires { Moves window.old from to place }
    ensures { window.new ≡ paste window.old place (drop from window.old) (to - from) }
{
    if place == from {
        return;
    }
    window.copy_within(from..to, place);
}

// Puts the first `n` bytes of the chunk at `at`, and the unknown byte behind them.
fn fill(window: &mut [u8], at: usize, chunk: &[u8], n: usize)
    requires { Fills window.old (length chunk.now) at n }
    ensures { window.new ≡ set (paste window.old at chunk.now n) (at + n) unknown }
{
    let end = at + n;
    copy_slice(&mut window[at..end], &chunk[0..n]);
    window[end] = UNKNOWN;
}

// Moves the bytes at hand to `place`, and puts the first `taken` bytes of the chunk behind them, with the unknown byte behind those.
pub(crate) fn take_in(
    window: &mut [u8],
    from: usize,
    to: usize,
    place: usize,
    chunk: &[u8],
    taken: usize,
)
    requires { TakesIn window.old from to place (length chunk.now) taken }
    ensures { window.new ≡ filled_with window.old from place (to - from) chunk.now taken }
{
    move_hand(window, from, to, place);
    let end = place + (to - from);
    fill(window, end, chunk, taken);
}
