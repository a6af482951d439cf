// The event program: event lines on standard input, rows on standard output. A read or a write that fails ends it quietly.
#![tactic(auto)]

ghost use Rattle.std.specs.Prelude.{◌≡◌, ◌+◌, length};
ghost use Rattle.std.specs.Io.{ReadsAtMost};
ghost use Rattle.events.specs.Output.{longest_input, longest_output};

use buffers::{array_of, read_full};
use events::{LONGEST_INPUT, LONGEST_OUTPUT};
use std::io;

fn main(rt: HostRuntime) {
    let mut input = input_buffer();
    let Ok(n) = read_input(&rt, &mut input) else {
        return;
    };
    print_output(&rt, &input[..n]);
}

// Reads until the input ends or fills the buffer. Answers how many bytes there are, or the error of a read that failed: what was
// read before it may end within a line.
fn read_input(rt: &impl Input, buffer: &mut [u8]) -> io::Result<usize>
    ensures bound { ReadsAtMost result buffer.new }
    ensures same_length { length buffer.new ≡ length buffer.old }
{
    read_full(&mut rt.reader(), buffer)
}

fn print_output(rt: &impl Print, input: &[u8]) {
    let mut output = output_buffer();
    let n = events::run_program(input, &mut output);
    let _ = rt.write_all(&output[..n]);
}

// One byte more than an input may have is enough to know that it is too long.
fn input_buffer() -> [u8; LONGEST_INPUT + 1]
    ensures { longest_input + 1 ≡ length result }
{
    array_of(0)
}

// The longest output fits.
fn output_buffer() -> [u8; LONGEST_OUTPUT]
    ensures { longest_output ≡ length result }
{
    array_of(0)
}
