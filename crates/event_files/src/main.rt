// Runs each event file that its arguments name and prints the whole output of `events` for it below its name. The oracle's
// model makes the files (../data, ../args) and the output that is expected (../stdout), by oracle/expectations.py --write.
// A file that cannot be read ends the run with the error; a write that fails is passed over.
#![tactic(auto)]

ghost use Rattle.std.specs.Prelude.{◌≡◌, ◌+◌, length};
ghost use Rattle.events.specs.Output.{longest_input};

use buffers::{array_of, read_full, within};
use events::LONGEST_INPUT;
use std::rt::Files;
use std::{env, fs, io};

fn main(rt: HostRuntime) -> io::Result<()> {
    for name in env::args(&rt)?.skip(1) {
        run_file(&rt, name.as_str())?;
    }
    Ok(())
}

fn run_file(rt: &(impl Files + Print), name: &str) -> io::Result<()> {
    let mut file = fs::open(rt, name)?;
    let _ = println!(rt; "{name}");
    let mut input = input_buffer();
    let n = read_full(&mut file, &mut input)?;
    print_output(rt, &input[..n]);
    Ok(())
}

fn print_output(rt: &impl Print, input: &[u8]) {
    let mut output = output_buffer();
    let whole = events::run_program(input, &mut output);
    let n = within(whole, &output);
    let _ = rt.write_all(&output[..n]);
}

// One byte more than an input may have, so that a longer file shows.
fn input_buffer() -> [u8; LONGEST_INPUT + 1]
    ensures { longest_input + 1 ≡ length result }
{
    array_of(0)
}

// Enough for a row of every line in ../data: 65,536 empty lines have the longest output, 840,888 bytes.
fn output_buffer() -> [u8; 1048576]
    ensures { 1048576 ≡ length result }
{
    array_of(0)
}
