// Standard output, which rests on the C library's `write` alone; std's own also rests on the contract of `os::c::rattle_errno`.
use std::io::{Result, Write};

const STDOUT_FILENO: i32 = 1;

#[derive(Drop)]
pub(crate) struct Output;

impl Write for Output {
    // The bytes, or as many of them as go. What cannot be written is left out and the next bytes are tried: the whole input is read and
    // answered whatever becomes of the output.
    fn write(&mut self, buf: &[u8]) -> Result<usize> {
        let _ = io::write_all(STDOUT_FILENO, buf);
        Ok(buf.len())
    }

    fn flush(&mut self) -> Result<()> {
        Ok(())
    }
}
