// What stands at an offset of a text.
ghost use Rattle.std.specs.Prelude.{◌≡◌};
ghost use Rattle.lexer.specs.Look.{peek, lookahead};

use crate::classes::is_foreign;
use crate::refusal::{Fault, Refusal};

// What stands at an offset: three outcomes, each of which the rules answer in their own way, so no Option.
#[derive(Clone, Copy)]
pub enum Peek {
    Byte(u8),
    Foreign,
    End,
}

pub(crate) fn peek_char(text: &[u8], at: usize) -> Peek
    ensures { result ≡ peek text.now at }
{
    if text.len() <= at {
        return Peek::End;
    }
    let b = text[at];
    if is_foreign(b) {
        return Peek::Foreign;
    }
    Peek::Byte(b)
}

// The character that a rule needs, or why it is refused.
pub(crate) fn lookahead_char(text: &[u8], at: usize) -> Result<u8, Fault>
    ensures { result ≡ lookahead text.now at }
{
    match peek_char(text, at) {
        Peek::Byte(b) => Ok(b),
        Peek::Foreign => Err(Fault {
            refusal: Refusal::ForeignByte,
            offset: at,
        }),
        Peek::End => Err(Fault {
            refusal: Refusal::EndOfText,
            offset: at,
        }),
    }
}
