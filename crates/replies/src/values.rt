// What the libraries answer, as a line: the values after `ok`, or the refusal. Relies on reply.rt, on `script` for
// the bytes that are put plainly, on `lists` and `tables` for parts of texts, and on the records that the libraries
// answer with.
use crate::reply::{Reply, refused};
use std::io;
use std::io::{Stdout, Write};
use tables::{Sha256Hash, Span};
use types::{
    FileIndex, FileIndexRange, I32Range, PeerRequest, PieceIndex, PieceIndexRange, Refusal,
};

// What an answer holds; each part of it is put after a blank.
// Stays: std's `Display` says how a value looks by itself: a number has no blank before it there, and a `bool` is a
// word where an answer has 1 or 0; a pair, and a record of another crate, could have no impl of it here.
pub trait Shown: Drop {
    fn put(self, reply: &mut Reply) -> io::Result<()>;
}

// Stays: each type of number needs its own; one impl over `Display` would overlap with the records' impls.
impl Shown for u64 {
    fn put(self, reply: &mut Reply) -> io::Result<()> {
        write!(reply, " {self}")
    }
}

// Stays: each type of number needs its own; one impl over `Display` would overlap with the records' impls.
impl Shown for i64 {
    fn put(self, reply: &mut Reply) -> io::Result<()> {
        write!(reply, " {self}")
    }
}

// Stays: each type of number needs its own; one impl over `Display` would overlap with the records' impls.
impl Shown for u8 {
    fn put(self, reply: &mut Reply) -> io::Result<()> {
        u64::from(self).put(reply)
    }
}

// Stays: each type of number needs its own; one impl over `Display` would overlap with the records' impls.
impl Shown for u16 {
    fn put(self, reply: &mut Reply) -> io::Result<()> {
        u64::from(self).put(reply)
    }
}

// Stays: each type of number needs its own; one impl over `Display` would overlap with the records' impls.
impl Shown for u32 {
    fn put(self, reply: &mut Reply) -> io::Result<()> {
        u64::from(self).put(reply)
    }
}

// Stays: each type of number needs its own; one impl over `Display` would overlap with the records' impls.
impl Shown for usize {
    fn put(self, reply: &mut Reply) -> io::Result<()> {
        (self as u64).put(reply)
    }
}

// Stays: each type of number needs its own; one impl over `Display` would overlap with the records' impls.
impl Shown for i32 {
    fn put(self, reply: &mut Reply) -> io::Result<()> {
        i64::from(self).put(reply)
    }
}

// A truth value is 1 or 0.
impl Shown for bool {
    fn put(self, reply: &mut Reply) -> io::Result<()> {
        u8::from(self).put(reply)
    }
}

// Stays: document 01 asks for a tuple struct for each kind of index.
impl Shown for PieceIndex {
    fn put(self, reply: &mut Reply) -> io::Result<()> {
        self.0.put(reply)
    }
}

// Stays: document 01 asks for a tuple struct for each kind of index.
impl Shown for FileIndex {
    fn put(self, reply: &mut Reply) -> io::Result<()> {
        self.0.put(reply)
    }
}

// Stays: document 01 asks for a plain record for each kind of range.
impl Shown for PieceIndexRange {
    fn put(self, reply: &mut Reply) -> io::Result<()> {
        (self.begin, self.end).put(reply)
    }
}

// Stays: document 01 asks for a plain record for each kind of range.
impl Shown for FileIndexRange {
    fn put(self, reply: &mut Reply) -> io::Result<()> {
        (self.begin, self.end).put(reply)
    }
}

// Stays: document 01 asks for a plain record for each kind of range.
impl Shown for I32Range {
    fn put(self, reply: &mut Reply) -> io::Result<()> {
        (self.begin, self.end).put(reply)
    }
}

impl Shown for PeerRequest {
    fn put(self, reply: &mut Reply) -> io::Result<()> {
        (self.piece, (self.start, self.length)).put(reply)
    }
}

// A root is put in lower-case hex.
impl Shown for Sha256Hash {
    fn put(self, reply: &mut Reply) -> io::Result<()> {
        reply.write_all(b" ")?;
        for byte in &self.bytes {
            write!(reply, "{byte:02x}")?;
        }
        Ok(())
    }
}

// A byte string: `:` and its bytes, plainly or as `%XX`.
#[derive(Clone, Copy)]
pub struct ByteString<'a>(pub &'a [u8]);

impl Shown for ByteString<'_> {
    fn put(self, reply: &mut Reply) -> io::Result<()> {
        reply.write_all(b" :")?;
        for byte in self.0 {
            if script::is_plain(*byte) {
                reply.write_all(&[*byte])?;
            } else {
                write!(reply, "%{byte:02X}")?;
            }
        }
        Ok(())
    }
}

impl<A: Shown, B: Shown> Shown for (A, B) {
    fn put(self, reply: &mut Reply) -> io::Result<()> {
        let (a, b) = self;
        a.put(reply)?;
        b.put(reply)
    }
}

// The values of a row, one after the other.
impl<T: Shown + Copy> Shown for &[T] {
    fn put(self, reply: &mut Reply) -> io::Result<()> {
        for value in self {
            value.put(reply)?;
        }
        Ok(())
    }
}

// Answers with a value.
pub fn value<T: Shown>(out: Stdout, value: T) -> io::Result<()> {
    let mut reply = Reply::ok(out)?;
    value.put(&mut reply)?;
    reply.end()
}

// Answers with a value, or with the refusal.
pub fn answer<T: Shown>(out: Stdout, res: Result<T, Refusal>) -> io::Result<()> {
    match res {
        Ok(found) => value(out, found),
        Err(refusal) => refused(out, refusal),
    }
}

// A text that was composed at the start of a buffer, by its length.
// Stays: there is no heap, so the library writes into a buffer that it is lent and answers with a length; here this
// becomes the slice.
pub fn composed(out: Stdout, res: Result<usize, Refusal>, buffer: &[u8]) -> io::Result<()> {
    answer(out, res.map(|n| ByteString(lists::part(buffer, 0, n))))
}

// A text by its place.
pub fn text(out: Stdout, res: Result<Span, Refusal>, text: &[u8]) -> io::Result<()> {
    answer(
        out,
        res.map(|place| ByteString(tables::text_at(text, place))),
    )
}
