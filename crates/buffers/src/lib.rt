// Buffers that a program reads a whole input into or puts its output in, and how much of one is filled.
#![tactic(auto)]

ghost use Rattle.std.specs.Prelude.{◌≡◌, length};
ghost use Rattle.std.specs.Io.{ReadsAtMost};
ghost use Rattle.buffers.specs.Counts.{IsPrefixLen};

use std::io;
use std::io::Read;

// An array of one element over and over. The contract gives only the length: proofs would write all elements out.
pub fn array_of<T: Copy, const N: usize>(element: T) -> [T; N]
    ensures { N ≡ length result }
{
    [element; N]
}

// 65,536 zeros.
pub fn large_buffer() -> [u8; 65536]
    ensures { 65536 ≡ length result }
{
    array_of(0)
}

// Reads until the input ends or fills the buffer. Answers how many bytes it put at the start, or the error of a read that failed.
pub fn read_full(reader: &mut impl Read, buffer: &mut [u8]) -> io::Result<usize>
    ensures bound { ReadsAtMost result buffer.new }
    ensures same_length { length buffer.new ≡ length buffer.old }
{
    let mut done: usize = 0;
    while done < buffer.len() {
        let n = reader.read(&mut buffer[done..])?;
        if n == 0 {
            break;
        }
        done += n;
    }
    Ok(done)
}

// How much of a text of this length the buffer has.
pub fn within(whole: usize, buffer: &[u8]) -> usize
    ensures { IsPrefixLen result buffer.now }
{
    whole.min(buffer.len())
}
