// The program carve of document 01: a grid file on standard input, one line on standard output.
#![tactic(auto)]

ghost use Rattle.std.specs.Prelude.{◌≤◌, length, IfOk};

use std::io;
use std::io::{Print, Read};

// The line of a file. carve_refusals has the same: a library for it would be no plainer.
fn print_line(to: &impl Print, file: &[u8]) -> io::Result<()> {
    let text = line::line(file);
    let bytes = text.bytes;
    let start = text.start;
    to.write_all(&bytes[start..])
}

// Reads until the buffer is full or the input ends, and answers how many bytes now stand at the buffer's start. std has no such method without the heap.
fn read_full(input: &mut impl Read, buffer: &mut [u8]) -> io::Result<usize>
    ensures { IfOk result (λ n. n ≤ length buffer.new) }
{
    let mut done = 0;
    while done < buffer.len() {
        let n = input.read(&mut buffer[done..])?;
        if n == 0 {
            break;
        }
        done += n;
    }
    Ok(done)
}

// One byte more than the input may have, so that longer input is seen to be longer.
fn main(rt: HostRuntime) -> io::Result<()> {
    let mut buffer = [0u8; 65537];
    let n = read_full(&mut rt.stdin(), &mut buffer)?;
    print_line(&rt, &buffer[..n])
}
