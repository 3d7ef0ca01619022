// Lists the clauses on standard input, a line each, up to the first refusal, which is the last line. What is proved: the program is safe and ends, each
// line is the line call's, and the refusal that it ends with is none for room; no contract can say what is read or written.
#![tactic(auto)]

ghost use Rattle.std.specs.Prelude.{◌<◌, length};
ghost use Rattle.lexer.specs.Cursor.{start_cursor};
ghost use Rattle.reader.specs.LineCall.{longest_line};
ghost use Rattle.listing.specs.Ends.{Ends};

use lexer::{Cursor, Fault, refusal_number};
use reader::list_clause;

// The numbers of the standard streams, as POSIX has them. The crate `io` takes them: std's streams would rest on one axiom more, that of errno.
const STDIN_FILENO: i32 = 0;

const STDOUT_FILENO: i32 = 1;

// One byte more than a text may have: the first call refuses it then. Both buffers are arrays, since there is no heap.
const INPUT: usize = 65536;
// No line is longer than 65,535 + 5 * 1,023 bytes (`line-fits` in the reader's proofs/Theorems.antt). A newline ends it.
const LINE: usize = 65535 + 5 * 1023 + 1;

// The line's bytes in front, and a newline behind them.
fn write_line(line: &mut [u8], count: usize)
    requires { count < length line.old }
{
    line[count] = b'\n';
    io::write_all(STDOUT_FILENO, &line[..=count]);
}

fn write_refusal(fault: Fault) {
    io::write_all(STDOUT_FILENO, b"refused ");
    io::print_decimal(STDOUT_FILENO, u64::from(refusal_number(fault.refusal)));
    io::write_all(STDOUT_FILENO, b" at ");
    io::print_decimal(STDOUT_FILENO, fault.offset as u64);
    io::write_all(STDOUT_FILENO, b"\n");
}

// The clauses one after the other. Each cursor stands behind the one before, so a refusal comes; the line has room, so it is not for that.
fn list_text(text: &[u8], line: &mut [u8]) -> Fault
    requires { longest_line < length line.old }
    ensures { Ends text.now start_cursor result }
{
    let mut cursor = Cursor {
        offset: 0,
        line: 0,
        column: 0,
    };
    let room = line.len() - 1;
    loop {
        match list_clause(text, cursor, &mut line[..room]) {
            Err(refused) => return refused.fault,
            Ok(read) => {
                write_line(line, read.length);
                cursor = read.next;
            }
        }
    }
}

fn main() {
    let mut input = [0u8; INPUT];
    let mut line = [0u8; LINE];
    let got = io::read_full(STDIN_FILENO, &mut input);
    write_refusal(list_text(&input[..got], &mut line));
}
