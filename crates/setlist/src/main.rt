// The program `setlist` of document 01: it reads standard input, and writes the listing of what it read.
// One byte more than an input may have is read, so that a longer one is known. Relies on `listing`, on
// `lists` for the part that is written, and on std's standard input and output.
#![tactic(auto)]

ghost use Rattle.std.specs.Prelude.{◌≤◌, length, IfOk};

use std::io;
use std::io::{Read, Stdin, Stdout};

// Reads until the buffer is full or the input ends, and gives how many bytes stand at the buffer's start.
fn read_full(from: Stdin, buffer: &mut [u8]) -> io::Result<usize>
    ensures { IfOk result (λ n. n ≤ length buffer.new) }
{
    let mut input = from;
    let mut done = 0;
    // Stays: no method of std fills a buffer and stops where the input ends. `io::copy` of `take` would, by a buffer of
    // its own that each byte goes through, and its clause doesn't bound the count.
    while done < buffer.len() {
        let n = input.read(&mut buffer[done..])?;
        if n == 0 {
            break;
        }
        done += n;
    }
    Ok(done)
}

// Writes the listing of an input, which is made in `room`, or nothing where it does not fit there.
fn write_listing(to: Stdout, input: &[u8], room: &mut [u8]) -> io::Result<()> {
    let Ok(n) = listing::list(input, room) else {
        return Ok(());
    };
    to.write_all(lists::part(room, 0, n))
}

// Reads all of the input, up to one byte more than it may have, and writes its listing. No listing is longer than
// `room`: the law `listing-few` of `listing`. A read or a write that fails ends the program with its error.
// Stays: there is no heap (document 01), so that both are arrays of the most bytes that can come.
fn main(rt: HostRuntime) -> io::Result<()> {
    let mut input = [0u8; 65537];
    let got = read_full(rt.stdin(), &mut input)?;
    let mut room = [0u8; 262144];
    write_listing(rt.stdout(), &input[..got], &mut room)
}
