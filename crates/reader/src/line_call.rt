// The line of a clause, from its text.
ghost use Rattle.std.specs.Prelude.{◌≡◌, ◌≤◌};
ghost use Rattle.reader.specs.LineCall.{LineOutcome, ReadTree, Spanning, Spans};

use crate::clause::{ClauseRead, first_offset, is_end, read_clause, refused};
use crate::listing::{Tokens, list_line};
use lexer::{Cursor, Refusal, Refused, Source, TokenRead, next_token};

// The bytes of a clause's line, and the cursor behind the clause.
#[derive(Clone, Copy)]
pub struct LineRead {
    pub length: usize,
    pub next: Cursor,
}

// The spans of the clause's tokens: where each starts, and where it ends. It is public for the crate `pack`, and is no interface: it asks for the room.
pub fn span_tokens(text: &[u8], cursor: Cursor, starts: &mut [u16], ends: &mut [u16])
    requires { Spanning text.now cursor starts.old ends.old }
    ensures { Spans text.now cursor starts.new ends.new }
{
    let mut c = cursor;
    for i in 0..starts.len() {
        match next_token(text, c, Source::File) {
            Err(_) => return,
            Ok(TokenRead { token, next }) => {
                // Both fit: no text is longer than 01 allows.
                starts[i] = token.start as u16;
                ends[i] = next.offset as u16;
                if is_end(token.kind) {
                    return;
                }
                c = next;
            }
        }
    }
}

// The line of the clause that was read into the tree. The arrays hold as many spans as a clause can have tokens, since there is no heap.
fn write_line(
    text: &[u8],
    cursor: Cursor,
    tree: &[u16],
    read: ClauseRead,
    out: &mut [u8],
) -> Result<LineRead, Refused>
    requires { ReadTree text.now cursor tree.now read.nodes read.next }
    ensures { LineOutcome text.now cursor out.old result out.new }
{
    let mut starts = [0u16; 1024];
    let mut ends = [0u16; 1024];
    span_tokens(text, cursor, &mut starts, &mut ends);
    let tokens = Tokens {
        text,
        starts: &starts,
        ends: &ends,
    };
    match list_line(&tokens, tree, read.nodes, out) {
        Some(length) => Ok(LineRead {
            length,
            next: read.next,
        }),
        None => Err(refused(Refusal::NoRoom, first_offset(text, cursor), cursor)),
    }
}

// The clause call, and the line of what it read: a clause has at most 1,023 nodes, so the tree has room, an array, since there is no heap.
pub fn list_clause(text: &[u8], cursor: Cursor, out: &mut [u8]) -> Result<LineRead, Refused>
    ensures { LineOutcome text.now cursor out.old result out.new }
{
    let mut tree = [0u16; 2048];
    let read = read_clause(text, cursor, &mut tree)?;
    write_line(text, cursor, &tree, read, out)
}
