// Standard input, line by line: blocks are read into a buffer, and each line is copied out of them into
// another. Relies on std's standard input, on `script` for a line's end, and on the accessors of `lists`.
ghost use Rattle.std.specs.Prelude.{◌≤◌};

use std::io;
use std::io::{Read, Stdin};

// The bytes of a buffer.
pub(crate) const ROOM: usize = 65536;

// A buffer of input, of a line, or of what its words stand for.
// Stays: there is no heap, so what a script may say has a fixed size.
pub(crate) type Buffer = [u8; ROOM];

// The bytes of a buffer from one place up to another.
pub(crate) fn between(bytes: &Buffer, from: usize, to: usize) -> &[u8] {
    lists::part(bytes, from, to.saturating_sub(from))
}

// Standard input: what is read but not yet taken stands in the block from `at` to `end`.
// Stays: std's `BufReader` keeps its block on the heap. The lock on `Stdin` does not, but reads byte by byte where the
// input can't seek: measured, its `fill_buf` and `consume` take 0.18 s for a script of 695 KB through a pipe, with a
// system call for each byte, and blocks of this size 0.005.
#[derive(Drop)]
pub(crate) struct Input {
    from: Stdin,
    block: Buffer,
    at: usize,
    end: usize,
    ghost within: { (at ≤ end) × (end ≤ 65536) },
}

impl Input {
    // The input before anything is read.
    pub(crate) fn new(from: Stdin) -> Input {
        Input {
            from,
            block: [0; ROOM],
            at: 0,
            end: 0,
        }
    }

    // Reads the next line without its line feed into a buffer, as far as that has room, and gives its length, or
    // nothing where the input ends. The last line may lack its line feed.
    pub(crate) fn next_line(&mut self, line: &mut Buffer) -> io::Result<Option<usize>> {
        let mut length: usize = 0;
        // Stays: a `loop` has to be proved to end, and nothing says how long the input is, so no measure goes down.
        for _ in 0..u64::MAX {
            let block = &self.block[..];
            let rest = &block[self.at..self.end];
            let n = script::before_first(rest, b'\n');
            lists::copy_after(line, length, &rest[..n]);
            length = length.saturating_add(n);
            if n < rest.len() {
                self.at += n + 1;
                return Ok(Some(length));
            }
            self.at = 0;
            self.end = 0;
            let read = self.from.read(&mut self.block)?;
            if read == 0 {
                break;
            }
            self.end = read;
        }
        if length == 0 {
            return Ok(None);
        }
        Ok(Some(length))
    }
}
