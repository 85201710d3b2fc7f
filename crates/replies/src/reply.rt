// A line of standard output as it is put together: it is written out when its buffer is full, and at its end. Relies on
// std's standard output.
ghost use Rattle.std.specs.Prelude.{◌≤◌};

use std::io;
use std::io::{Stdout, Write};
use types::Refusal;

// The bytes that a reply holds before it writes them.
const ROOM: usize = 256;

// Where an answer goes, and what of it is not yet written: the first `used` bytes.
// Stays: `ArrayVec<u8, 256>` of the kit's crate `arrayvec` is such a buffer with its length and never allocates, but
// the crates here stand on the kit's std and on one another alone.
#[derive(Drop)]
pub struct Reply {
    out: Stdout,
    used: usize,
    bytes: [u8; ROOM],
    ghost within: { used ≤ 256 },
}

impl Reply {
    // The start of an answer, of which nothing is put yet.
    fn empty(out: Stdout) -> Reply {
        Reply {
            out,
            used: 0,
            bytes: [0; ROOM],
        }
    }

    // The start of an answer that has values after it.
    pub(crate) fn ok(out: Stdout) -> io::Result<Reply> {
        let mut reply = Reply::empty(out);
        reply.write_all(b"ok")?;
        Ok(reply)
    }

    // Ends an answer.
    pub(crate) fn end(mut self) -> io::Result<()> {
        self.write_all(b"\n")?;
        self.flush()
    }
}

impl Write for Reply {
    fn write(&mut self, bytes: &[u8]) -> io::Result<usize> {
        if self.used == ROOM {
            self.flush()?;
        }
        let used = self.used;
        let n = bytes.len().min(ROOM - used);
        self.bytes[used..used + n].copy_from_slice(&bytes[..n]);
        self.used = used + n;
        Ok(n)
    }

    fn flush(&mut self) -> io::Result<()> {
        let n = self.used;
        self.used = 0;
        let bytes = &self.bytes[..];
        self.out.write_all(&bytes[..n])
    }
}

// Answers a line that is no call.
// Stays: it is one call of std, as `done` is; what differs is the text, which a function for both would be told.
pub fn bad_call(mut out: Stdout) -> io::Result<()> {
    out.write_all(b"badcall\n")
}

// Answers a call that is refused, by one write: `writeln!` on standard output itself, which has no buffer, would make a
// write of each part.
pub fn refused(out: Stdout, refusal: Refusal) -> io::Result<()> {
    let number = u32::from(refusal);
    let mut reply = Reply::empty(out);
    write!(reply, "refused {number}")?;
    reply.end()
}

// Answers a change that was made.
// Stays: it is one call of std, as `bad_call` is; what differs is the text, which a function for both would be told.
pub fn done(mut out: Stdout) -> io::Result<()> {
    out.write_all(b"ok\n")
}
