// What the bytes of a token that are at hand tell of it.
ghost use Rattle.std.specs.Prelude.{◌≡◌, ◌<◌, ◌≤◌, length};
ghost use Rattle.lexer.specs.Cursor.{start_cursor};
ghost use Rattle.lexer.specs.Number.{number_token, number_end};
ghost use Rattle.lexer.specs.Token.{token_here};
ghost use Rattle.chunks.specs.Whole.{cut_at};
ghost use Rattle.chunks.specs.Answers.{answer_came, answer_end, answer_own, filled, Cut, hand_of, of_answer, late_of, length_of, by_end_of, by_border_of, border_of, limit_of, judge_of};
ghost use Rattle.chunks.specs.Verdict.{view};

use crate::bytes::may_return;
use crate::shown::Shown;
use lexer::{
    Cursor, Fault, Refusal, Refused, TokenRead, copy_slice, is_digit, number_end, token_here,
};

// 02: a token has at most so many bytes.
pub(crate) const LONGEST_TOKEN: usize = 1024;

// With one more it is too long, unless it is a number that may put bytes back.
const LIMIT: usize = 1025;

// With these it is known.
pub(crate) const MOST_AT_HAND: usize = 1027;

// What the tokenizer answers.
pub(crate) type Answer = Result<TokenRead, Refused>;

// Whether a reading came to the unknown byte, which is at `n`.
#[tactic(auto, unfolding(crate::specs::Answers::answer_came))]
pub(crate) fn came_to(answer: Answer, n: usize) -> bool
    ensures { result ≡ answer_came n answer }
{
    match answer {
        Ok(_) => false,
        Err(refused) => match refused.fault.refusal {
            Refusal::ForeignByte => refused.fault.offset == n,
            _ => false,
        },
    }
}

// Where a token ends; 0 where it is refused, as the lexer's `number_end` has it.
#[tactic(auto, unfolding(crate::specs::Answers::answer_end))]
fn answer_end(answer: Answer) -> usize
    ensures { result ≡ answer_end answer }
{
    match answer {
        Ok(read) => read.next.offset,
        Err(_) => 0,
    }
}

// Whether the byte that shows a refusal is the token's own.
#[tactic(auto, unfolding(crate::specs::Answers::answer_own))]
fn own_byte(answer: Answer) -> bool
    ensures { result ≡ answer_own answer }
{
    match answer {
        Ok(_) => false,
        Err(refused) => matches!(
            refused.fault.refusal,
            Refusal::BadQuoted | Refusal::SetAside
        ),
    }
}

// The first bytes at hand, with unknown bytes behind them, in an array: there is no heap.
fn first_bytes(hand: &[u8], n: usize) -> [u8; 1028]
    requires { Cut (length hand.now) n }
    ensures { result ≡ filled n hand.now }
{
    let mut bytes = [0u8; 1028];
    copy_slice(&mut bytes[0..n], &hand[0..n]);
    bytes
}

// The token whose first `n` bytes are known.
fn cut_token(hand: &[u8], n: usize, layout: bool) -> Answer
    requires { Cut (length hand.now) n }
    ensures { result ≡ token_here layout (cut_at n hand.now) start_cursor }
{
    let bytes = first_bytes(hand, n);
    let end = n + 1;
    token_here(
        &bytes[0..end],
        Cursor {
            offset: 0,
            line: 0,
            column: 0,
        },
        layout,
    )
}

// Where the number ends whose first `n` bytes are known. One function for both would be handed the reading as a closure, and its contract would be longer.
fn cut_number(hand: &[u8], n: usize) -> usize
    requires { Cut (length hand.now) n }
    ensures { result ≡ number_end (number_token (cut_at n hand.now) 0) }
{
    let bytes = first_bytes(hand, n);
    let end = n + 1;
    number_end(&bytes[0..end], 0)
}

// The tokenizer at the start of the first `places` bytes at hand.
fn view_token(shown: Shown, places: usize, layout: bool) -> Answer
    requires { places < 1028 }
    ensures { result ≡ token_here layout (view places shown.entry.ended (hand_of shown.entry.bytes.now)) start_cursor }
{
    if places <= shown.count() {
        return cut_token(shown.bytes, places, layout);
    }
    token_here(
        shown.text(),
        Cursor {
            offset: 0,
            line: 0,
            column: 0,
        },
        layout,
    )
}

// Where the number ends at the start of the first `places` bytes at hand.
fn view_number(shown: Shown, places: usize) -> usize
    requires { places < 1028 }
    ensures { result ≡ number_end (number_token (view places shown.entry.ended (hand_of shown.entry.bytes.now)) 0) }
{
    if places <= shown.count() {
        return cut_number(shown.bytes, places);
    }
    number_end(shown.text(), 0)
}

// What is said of the next token: it; nothing, where more must be known; its refusal.
pub type Given = Result<Option<TokenRead>, Fault>;

// It is too long.
const LONG: Given = Err(Fault {
    refusal: Refusal::TokenTooLong,
    offset: 0,
});

#[tactic(auto, unfolding(crate::specs::Answers::of_answer))]
pub(crate) fn settled_by(answer: Answer) -> Given
    ensures { result ≡ of_answer answer }
{
    match answer {
        Ok(read) => Ok(Some(read)),
        Err(refused) => Err(refused.fault),
    }
}

// A refusal 4 or 6 that the first 1,024 bytes do not show.
fn is_late(shown: Shown, layout: bool, answer: Answer) -> bool
    ensures { result ≡ late_of layout (hand_of shown.entry.bytes.now) answer }
{
    if own_byte(answer) {
        if shown.count() < LONGEST_TOKEN {
            return false;
        }
        return came_to(cut_token(shown.bytes, LONGEST_TOKEN, layout), LONGEST_TOKEN);
    }
    false
}

// How long the token is; 0 where it is refused.
fn token_length(shown: Shown, answer: Answer) -> usize
    ensures { result ≡ length_of shown.entry.ended (hand_of shown.entry.bytes.now) answer }
{
    if is_digit(shown.bytes[0]) {
        return view_number(shown, LIMIT);
    }
    answer_end(answer)
}

// A token that is whole, or refused.
fn by_end(shown: Shown, layout: bool, answer: Answer) -> Given
    ensures { result ≡ by_end_of layout shown.entry.ended (hand_of shown.entry.bytes.now) answer }
{
    if LONGEST_TOKEN < token_length(shown, answer) || is_late(shown, layout, answer) {
        return LONG;
    }
    settled_by(answer)
}

// A number whose end must be looked for two bytes further on.
fn by_border(end: usize, answer: Answer) -> Given
    ensures { result ≡ by_border_of end answer }
{
    if end == 0 || LONGEST_TOKEN < end {
        return LONG;
    }
    settled_by(answer)
}

fn at_border(shown: Shown, layout: bool) -> Given
    ensures { result ≡ border_of layout shown.entry.ended (hand_of shown.entry.bytes.now) }
{
    let n = shown.count();
    let answer = view_token(shown, MOST_AT_HAND, layout);
    if came_to(answer, n.min(MOST_AT_HAND)) {
        if n < MOST_AT_HAND {
            return Ok(None);
        }
        return LONG;
    }
    by_border(view_number(shown, MOST_AT_HAND), answer)
}

// More than 1,024 bytes are at hand, and the reading came behind the first 1,025.
fn at_limit(shown: Shown, layout: bool) -> Given
    requires { 1026 ≤ length shown.bytes.now }
    ensures { result ≡ limit_of layout shown.entry.ended (hand_of shown.entry.bytes.now) }
{
    if is_digit(shown.bytes[0]) && may_return(shown.bytes[LONGEST_TOKEN]) {
        return at_border(shown, layout);
    }
    LONG
}

// The token at hand.
pub(crate) fn judge(shown: Shown, layout: bool) -> Given
    ensures { result ≡ judge_of layout shown.entry.ended (hand_of shown.entry.bytes.now) }
{
    let n = shown.count();
    let answer = view_token(shown, LIMIT, layout);
    if came_to(answer, n.min(LIMIT)) {
        if n < LIMIT {
            return Ok(None);
        }
        return at_limit(shown, layout);
    }
    by_end(shown, layout, answer)
}
