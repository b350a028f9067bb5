// Prints the coming transitions of stored lists: reads a moment and a record from standard input, and writes the text that `schedule_text` makes.
#![tactic(auto)]

use schedule_text::{MOST_INPUT, schedule};

// Standard input and standard output.
const STDIN_FILENO: i32 = 0;

const STDOUT_FILENO: i32 = 1;

fn main() {
    // One byte more than the longest input, so that a longer one is seen to be longer.
    let mut input = [0u8; MOST_INPUT + 1];
    let n = io::read_full(STDIN_FILENO, &mut input);
    let text = schedule(&input[..n]);
    io::write_all(STDOUT_FILENO, text.as_bytes());
}
