// Runs the test vectors of standard input, a row to a line, and writes each row with its answer.
#![tactic(auto)]

ghost use Rattle.std.specs.Prelude.{◌≤◌, length, IfOk, IfSome};

mod bytes;
mod clock;
mod device;
mod listing;
mod output;
mod reader;
mod store;
mod text;

use output::Output;
use std::io::{Result, Write};

// Standard input.
const STDIN_FILENO: i32 = 0;

// The word of a row at which its bytes begin: of a history, which has three numbers before them, and of any other.
const HISTORY_BYTES: usize = 4;

const BYTES: usize = 1;

// Answers one row: a letter for what is asked, then bytes in hexadecimal digits; a history has three decimal numbers before them. The bytes
// are put at the front of `memory`.
fn answer(out: &mut impl Write, memory: &mut [u8], row: &[u8]) -> Result<()> {
    out.write_all(row)?;
    let [letter, _, ..] = row else {
        return Ok(());
    };
    write!(out, ": ")?;
    let word = if *letter == b'h' {
        HISTORY_BYTES
    } else {
        BYTES
    };
    let given = text::hex(text::from_word(row, word), memory);
    match letter {
        b'u' => bytes::utf8(out, given),
        b'z' => bytes::zones(out, given),
        b'w' => bytes::windows(out, given),
        b'x' => device::script(out, given),
        b'c' => clock::script(out, given),
        b'h' => store::replayed(out, row, given),
        _ => bytes::record(out, given),
    }
}

// Answers every row; an empty one is written as it is. The memory for the bytes of a row is made once: as a buffer of each row (tried) it
// was filled with zeros twice a row, which took most of the time.
fn rows(out: &mut impl Write, table: &[u8]) -> Result<()> {
    let mut memory = io::buffer();
    for line in table.split_inclusive(|b| *b == b'\n') {
        answer(out, &mut memory, line.strip_suffix(b"\n").unwrap_or(line))?;
        writeln!(out)?;
    }
    Ok(())
}

// Answers the whole rows of a full table, moves the rest to the front and answers how many bytes that is; nothing where a row is too long.
fn full_turn(out: &mut impl Write, table: &mut [u8]) -> Result<Option<usize>>
    ensures { IfOk result (λ turn. IfSome turn (λ kept. kept ≤ length table.new)) }
{
    let Some(last) = table.iter().rposition(|b| *b == b'\n') else {
        writeln!(out, "a row is too long")?;
        return Ok(None);
    };
    let end = last + 1;
    rows(out, &table[..end])?;
    table.copy_within(end.., 0);
    Ok(Some(table.len() - end))
}

// Reads on behind the bytes that were kept, answers what is there and answers how many bytes are kept; nothing at the end of the input.
fn turn(out: &mut impl Write, table: &mut [u8], kept: usize) -> Result<Option<usize>>
    requires { kept ≤ length table.old }
    ensures { IfOk result (λ turn. IfSome turn (λ kept. kept ≤ length table.new)) }
{
    let n = kept + io::read_full(STDIN_FILENO, &mut table[kept..]);
    if n == table.len() {
        return full_turn(out, table);
    }
    rows(out, &table[..n])?;
    Ok(None)
}

// Answers the whole input, or as much as can be written. There is no heap: the bytes of a row that is cut stay at the front of the table.
// A proved loop ends, and nothing says that the input does: the turns are counted, up to a number that no run uses up.
fn run(out: &mut impl Write) -> Result<()> {
    let mut table = io::large_buffer();
    let mut kept = 0;
    for _ in 0..u64::MAX {
        let Some(rest) = turn(out, &mut table, kept)? else {
            return Ok(());
        };
        kept = rest;
    }
    Ok(())
}

// An output that is closed or full shows itself: its text is cut, so the status says nothing of it.
fn main() {
    let _ = run(&mut Output);
}
