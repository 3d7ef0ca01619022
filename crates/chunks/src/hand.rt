// What the bytes at hand give: layout is passed over, then the token is judged.
ghost use Rattle.std.specs.Prelude.{◌≡◌, ◌+◌, ◌-◌, ◌≤◌, cond, drop, Ok, Err};
ghost use Rattle.lexer.specs.Cursor.{longest, start_cursor};
ghost use Rattle.lexer.specs.Token.{token_since, next_token};
ghost use Rattle.lexer.specs.declared.token.Source.TheVariants.{File};
ghost use Rattle.chunks.specs.Answers.{hand_of};
ghost use Rattle.chunks.specs.Given.{read_to};
ghost use Rattle.chunks.specs.Hand.{to_next, next_by, TokenFits, Fits, Held, Brief, Starting};
ghost use Rattle.chunks.specs.Reader.{stopped, moved_by, given, reading};
ghost use Rattle.chunks.specs.Shift.{shift_fault, shift_token};
ghost use Rattle.chunks.specs.declared.hand.Next.TheVariants.{More};
ghost use Rattle.chunks.specs.declared.layout.Mode.TheVariants.{Blank};
ghost use Rattle.chunks.specs.declared.layout.Why.TheVariants.{Starts};

use crate::bytes::moved_by;
use crate::layout::{Mode, Why};
use crate::pass::{Place, pass_layout};
use crate::shown::Shown;
use crate::verdict::{Answer, Given, LONGEST_TOKEN, came_to, judge, settled_by};
use lexer::{Cursor, Fault, Source, Token, TokenRead, next_token};

// The next token; where the reading stands, if more must be known. Each way on has its values, so neither is a `None`.
#[derive(Clone, Copy)]
pub enum Next {
    Token(TokenRead),
    More {
        mode: Mode,
        cursor: Cursor,
        layout: usize,
    },
}

fn more(place: Place, layout: usize) -> Next
    ensures { result ≡ More place.mode place.cursor layout }
{
    Next::More {
        mode: place.mode,
        cursor: place.cursor,
        layout,
    }
}

// A token that was read from its own start, at the place's cursor; the layout before it began at `layout`.
fn token_from(read: TokenRead, cursor: Cursor, layout: usize) -> TokenRead
    requires { TokenFits cursor read.token read.next }
    ensures { result ≡ read_to (token_since layout (shift_token cursor.offset read.token)) (moved_by cursor read.next) }
{
    let token = read.token;
    TokenRead {
        token: Token {
            start: cursor.offset + token.start,
            layout,
            ..token
        },
        next: moved_by(cursor, read.next),
    }
}

fn fault_from(fault: Fault, cursor: Cursor) -> Fault
    requires { cursor.offset + fault.offset ≤ longest + 1 }
    ensures { result ≡ shift_fault cursor.offset fault }
{
    Fault {
        offset: cursor.offset + fault.offset,
        ..fault
    }
}

#[tactic(auto, unfolding(crate::specs::Hand::next_by))]
fn judged(judgement: Given, place: Place, layout: usize) -> Result<Next, Fault>
    requires { Fits place.cursor judgement }
    ensures { result ≡ next_by place.mode place.cursor layout judgement }
{
    let cursor = place.cursor;
    match judgement {
        Ok(Some(read)) => Ok(Next::Token(token_from(read, cursor, layout))),
        Ok(None) => Ok(more(place, layout)),
        Err(fault) => Err(fault_from(fault, cursor)),
    }
}

// The token at the place's cursor; the bytes at hand begin at `from` of the text.
fn start_token(shown: Shown, place: Place, layout: usize, from: usize) -> Result<Next, Fault>
    requires { Starting shown.bytes.now place from }
    ensures { result ≡ to_next (given shown.entry.ended layout (stopped place.mode place.cursor (drop (place.cursor.offset - from) (hand_of shown.entry.bytes.now)) Starts)) }
{
    let cursor = place.cursor;
    let at = cursor.offset - from;
    judged(judge(shown.from(at), layout < cursor.offset), place, layout)
}

// More must be known, or the text has ended.
fn waits(fault: Fault, place: Place, layout: usize, ended: bool) -> Result<Next, Fault>
    ensures { result ≡ cond ended (Err fault) (Ok (More place.mode place.cursor layout)) }
{
    if ended {
        return Err(fault);
    }
    Ok(more(place, layout))
}

// Layout is passed over, then the token is judged. The bytes at hand go from the cursor on.
fn read_apart(shown: Shown, mode: Mode, cursor: Cursor, layout: usize) -> Result<Next, Fault>
    requires { Held shown.bytes.now cursor }
    ensures { result ≡ to_next (reading shown.entry.ended mode cursor layout (hand_of shown.entry.bytes.now)) }
{
    let place = pass_layout(shown.hand(), mode, cursor);
    match place.why {
        Why::Starts => start_token(shown, place, layout, cursor.offset),
        Why::Waits(fault) => waits(fault, place, layout, shown.ended),
        Why::Stops(fault) => Err(fault),
    }
}

// Layout and token at once, by the token call from the start of the bytes at hand.
fn call_at_start(shown: Shown) -> Answer
    ensures { result ≡ next_token File (cond shown.entry.ended (hand_of shown.entry.bytes.now) shown.entry.bytes.now) start_cursor }
{
    next_token(
        shown.text(),
        Cursor {
            offset: 0,
            line: 0,
            column: 0,
        },
        Source::File,
    )
}

// Where the reading does not come to the unknown byte that is all there is to do; else more is wanted, and the layout that is passed need not be kept.
fn read_at_once(shown: Shown, cursor: Cursor) -> Result<Next, Fault>
    requires { Brief shown.bytes.now cursor }
    ensures { result ≡ to_next (reading shown.entry.ended Blank cursor cursor.offset (hand_of shown.entry.bytes.now)) }
{
    let answer = call_at_start(shown);
    if came_to(answer, shown.count()) {
        return Ok(more(
            pass_layout(shown.hand(), Mode::Blank, cursor),
            cursor.offset,
        ));
    }
    judged(
        settled_by(answer),
        Place {
            mode: Mode::Blank,
            cursor,
            why: Why::Starts,
        },
        cursor.offset,
    )
}

// Behind a token, with few bytes at hand, what comes next is read at once.
pub(crate) fn read_hand(
    shown: Shown,
    mode: Mode,
    cursor: Cursor,
    layout: usize,
) -> Result<Next, Fault>
    requires { Held shown.bytes.now cursor }
    ensures { result ≡ to_next (reading shown.entry.ended mode cursor layout (hand_of shown.entry.bytes.now)) }
{
    if layout != cursor.offset {
        return read_apart(shown, mode, cursor, layout);
    }
    if LONGEST_TOKEN <= shown.bytes.len() {
        return read_apart(shown, mode, cursor, layout);
    }
    match mode {
        Mode::Blank => read_at_once(shown, cursor),
        Mode::Line | Mode::Inside(_) => read_apart(shown, mode, cursor, layout),
    }
}
