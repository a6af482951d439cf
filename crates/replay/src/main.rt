// Runs the call scripts that its arguments name on the calls by value, line views and test calls, and prints after each call all
// that it answers and a digest of each thing that it is lent. oracle/scripts/script_unit.py says what lines and rows are; the
// oracle's model makes the scripts (../data, ../args) and the rows that are expected (../stdout), by oracle/expectations.py --write.
// A file that cannot be read ends the run with the error; a write that fails is passed over.
#![tactic(auto)]

mod calls;
mod digest;
mod script;
mod stores;
mod unit;

use buffers::{large_buffer, read_full};
use std::rt::Files;
use std::{env, fs, io};

fn main(rt: HostRuntime) -> io::Result<()> {
    for name in env::args(&rt)?.skip(1) {
        run_file(&rt, name.as_str())?;
    }
    Ok(())
}

// A script's rows stand below its name.
fn run_file(rt: &(impl Files + Print), name: &str) -> io::Result<()> {
    let mut file = fs::open(rt, name)?;
    let _ = println!(rt; "{name}");
    let mut text = large_buffer();
    let n = read_full(&mut file, &mut text)?;
    calls::run_script(rt, &text[..n]);
    Ok(())
}
