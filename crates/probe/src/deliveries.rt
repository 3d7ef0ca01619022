// The reader of chunks, and its answers as lines. The line before a text says how it is cut; it is read into lengths, which are then fed one after another.
ghost use Rattle.std.specs.Prelude.{◌≤◌};
ghost use Rattle.probe.specs.declared.deliveries.TheConstants.{MOST_ITEMS};

use crate::Malformed;
use crate::answers::{refused_at_start, token_line};
use crate::header::{Case, whole_number};
use crate::output::Output;
use chunks::{Phase, Reader, WINDOW};

// The longest line of cuts, without its newline.
const LONGEST_LINE: usize = 4096;
// No line has more items. They are small numbers in an array of their own, since each case fills it; there is no heap.
const MOST_ITEMS: usize = LONGEST_LINE + 1;
// More calls than a chunk gets: each but the last takes a byte or hands out a token, and a text has less than 65,536 of either.
const MOST_CALLS: usize = 2 * 65536;

// What the items of a line so far come to: how many chunks, behind how many of them the end is said, and how many bytes of the text they leave.
#[derive(Clone, Copy)]
pub struct Cuts {
    count: usize,
    end: Option<usize>,
    left: usize,
    ghost within: { count ≤ MOST_ITEMS },
}

impl Cuts {
    // Behind the end no empty chunk is fed.
    fn push_length(&mut self, lengths: &mut [u32], bytes: usize) -> Result<(), Malformed> {
        if self.end.is_some() && bytes == 0 {
            return Ok(());
        }
        self.left = self.left.checked_sub(bytes).ok_or(Malformed)?;
        // there is a place for each item: no line comes to this refusal, nor past the bound below
        let place = lengths.get_mut(self.count).ok_or(Malformed)?;
        *place = u32::try_from(bytes).map_err(|_| Malformed)?;
        self.count = (self.count + 1).min(MOST_ITEMS);
        Ok(())
    }

    // A length, or `e`, which stands at most once.
    fn push_item(&mut self, lengths: &mut [u32], item: &[u8]) -> Result<(), Malformed> {
        match item {
            [b'e'] if self.end.is_some() => Err(Malformed),
            [b'e'] => {
                self.end = Some(self.count);
                Ok(())
            }
            _ => self.push_length(lengths, whole_number(item)?),
        }
    }

    // The items of a line, which stand apart by single spaces.
    fn push_items(&mut self, lengths: &mut [u32], line: &[u8]) -> Result<(), Malformed> {
        if line.is_empty() {
            return Ok(());
        }
        for item in line.split(|&b| b == b' ') {
            self.push_item(lengths, item)?;
        }
        Ok(())
    }
}

// The reader has refused: no further step is taken.
#[derive(Clone, Copy, Debug, PartialEq, Eq)]
pub struct Stopped;

#[derive(Drop)]
pub struct Delivery {
    reader: Reader,
    window: [u8; WINDOW],
}

impl Delivery {
    fn new() -> Self {
        Delivery {
            reader: chunks::start(),
            window: [0; WINDOW],
        }
    }

    // Feeds a chunk, and asks for tokens until one is refused, or none is certain and the whole chunk is taken.
    fn feed(&mut self, out: &mut Output, chunk: &[u8]) -> Result<(), Stopped> {
        let mut left = chunk;
        for _ in 0..MOST_CALLS {
            let fed = chunks::feed(self.reader, &mut self.window, left);
            self.reader = fed.reader;
            left = &left[fed.taken..];
            match fed.given {
                Ok(Some(read)) => token_line(out, read),
                Ok(None) => {
                    if left.is_empty() {
                        out.put_text("more\n");
                        break;
                    }
                }
                Err(fault) => {
                    refused_at_start(out, fault);
                    return Err(Stopped);
                }
            }
        }
        Ok(())
    }

    // A reader that has refused is asked once more and, unless the end has been said, fed an empty chunk.
    fn ask_again(&mut self, out: &mut Output, ended: bool) -> Result<(), Stopped> {
        let asked = self.feed(out, b"");
        if ended { asked } else { self.feed(out, b"") }
    }

    fn take_chunk(&mut self, out: &mut Output, chunk: &[u8]) -> Result<(), Stopped> {
        let ended = matches!(self.reader.phase, Phase::Ended);
        let fed = self.feed(out, chunk);
        if fed.is_err() {
            return self.ask_again(out, ended);
        }
        fed
    }

    // The sender says that the text has ended, if it does so behind as many chunks.
    fn take_end(&mut self, cuts: Cuts, chunks: usize) {
        if let Some(count) = cuts.end {
            if count == chunks {
                self.reader = chunks::finish(self.reader);
            }
        }
    }

    // What is left is one more chunk, and the end is said behind it if it has not been. The last chunk asks for tokens until one is refused.
    fn take_rest(&mut self, out: &mut Output, cuts: Cuts, left: &[u8]) -> Result<(), Stopped> {
        self.take_end(cuts, cuts.count);
        if !left.is_empty() {
            self.take_chunk(out, left)?;
        }
        if cuts.end.is_none() {
            self.reader = chunks::finish(self.reader);
        }
        self.take_chunk(out, b"")
    }

    // The lengths that the cuts count, which leave as much of the text as the cuts say.
    fn take_text(
        &mut self,
        out: &mut Output,
        cuts: Cuts,
        lengths: &[u32],
        text: &[u8],
    ) -> Result<(), Stopped> {
        let mut left = text;
        for (i, &length) in lengths.iter().take(cuts.count).enumerate() {
            self.take_end(cuts, i);
            let (chunk, behind) = left.split_at_checked(length as usize).ok_or(Stopped)?;
            self.take_chunk(out, chunk)?;
            left = behind;
        }
        self.take_rest(out, cuts, left)
    }
}

// The line that says the cuts, then the text. No room is lent.
pub(crate) fn deliver_case(out: &mut Output, case: Case<'_>) -> Result<(), Malformed> {
    if case.room > 0 {
        return Err(Malformed);
    }
    let body = case.body;
    let end = body.iter().position(|&b| b == b'\n').ok_or(Malformed)?;
    if end > LONGEST_LINE {
        return Err(Malformed);
    }
    let text = &body[end + 1..];
    let mut lengths = [0u32; MOST_ITEMS];
    let mut cuts = Cuts {
        count: 0,
        end: None,
        left: text.len(),
    };
    cuts.push_items(&mut lengths, &body[..end])?;
    // the last chunk comes to a refusal
    let _ = Delivery::new().take_text(out, cuts, &lengths, text);
    Ok(())
}
