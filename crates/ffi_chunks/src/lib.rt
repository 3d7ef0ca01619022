// The calls of the C interface for a text that comes in chunks. They stand in a crate of their own, and so in an LLVM module of their own: a program that
// is handed whole texts does not link them.
#![tactic(auto)]

mod state;

ghost use Rattle.std.specs.Prelude.{◌≡◌};
ghost use Rattle.chunks.specs.Feed.{begun, finishing, feeding};
ghost use Rattle.fields.specs.Fields.{leaves};
ghost use Rattle.ffi_chunks.specs.State.{fields_of, reader_of, given_leaves, left, feeding_leaves};

use chunks::{Given, WINDOW, feed, finish, start};
use fields::put_answer;
use lexer::{Cursor, Refused};
use state::{put_reader, reader_of};

// What is returned where nothing is certain yet. It is the number of no refusal: those are below 256.
const MORE: u32 = 256;

#[tactic(auto, unfolding(crate::specs::State::given_leaves, fields::specs::Fields::answer_leaves))]
fn put_given(given: Given, token: &mut [u64; 9]) -> u32
    ensures { leaves result token.new ≡ given_leaves given token.old }
{
    match given {
        Ok(Some(read)) => put_answer(Ok(read), token),
        Ok(None) => MORE,
        Err(fault) => put_answer(
            Err(Refused {
                fault,
                cursor: Cursor {
                    offset: 0,
                    line: 0,
                    column: 0,
                },
            }),
            token,
        ),
    }
}

#[unsafe(no_mangle)]
pub extern "C" fn thrinvage_start(reader: &mut [u64; 12])
    ensures { reader.new ≡ fields_of begun 0 }
{
    put_reader(start(), 0, reader)
}

#[unsafe(no_mangle)]
pub extern "C" fn thrinvage_finish(reader: &mut [u64; 12])
    ensures { reader.new ≡ fields_of (finishing (reader_of reader.old)) 0 }
{
    let behind = finish(reader_of(reader));
    put_reader(behind, 0, reader)
}

#[unsafe(no_mangle)]
pub extern "C" fn thrinvage_feed(
    reader: &mut [u64; 12],
    window: &mut [u8; WINDOW],
    chunk: &[u8],
    token: &mut [u64; 9],
) -> u32
    ensures { left (leaves result token.new) reader.new window.new ≡ feeding_leaves (feeding (reader_of reader.old) window.old chunk.now) token.old }
{
    let fed = feed(reader_of(reader), window, chunk);
    put_reader(fed.reader, fed.taken, reader);
    put_given(fed.given, token)
}
