// Loads each table file that its arguments name, over the table in force, which is ours at first, and over a junk table. Below the
// file's name it prints what both loads hand back, the board's answers by the table in force, and the rows of the event file, which
// the first argument names, by each of the two tables. The oracle's model makes the files (../data, ../args) and the output that
// is expected (../stdout), by oracle/expectations.py --write.
// A file that cannot be read ends the run with the error; a write that fails is passed over.
#![tactic(auto)]

mod print;

ghost use Rattle.std.specs.Prelude.{◌≡◌, length};
ghost use Rattle.std.specs.Io.{ReadsAtMost};

use board::BLOCKS;
use buffers::{array_of, large_buffer, read_full};
use print::{board_rows, run_rows, table_row};
use std::rt::Files;
use std::{env, fs, io};

// A table that no load has made: no answer is one that an access takes.
const JUNK: [u8; BLOCKS] = [
    255, 254, 253, 252, 251, 250, 249, 248, 247, 246, 245, 244, 243, 242, 241, 240,
];

fn main(rt: HostRuntime) -> io::Result<()> {
    let mut names = env::args(&rt)?.skip(1);
    let Some(name) = names.next() else {
        return Ok(());
    };
    let mut input = large_buffer();
    let n = read_file(&rt, name.as_str(), &mut input)?;
    let mut table = board::block_answers();
    for name in names {
        load_file(&rt, name.as_str(), &mut table, &input[..n])?;
    }
    Ok(())
}

fn load_file(
    rt: &(impl Files + Print),
    name: &str,
    table: &mut [u8; BLOCKS],
    input: &[u8],
) -> io::Result<()> {
    let _ = println!(rt; "{name}");
    let mut space = text_buffer();
    let n = read_file(rt, name, &mut space)?;
    let text = &space[..n];
    let done = block_table::load(table, text);
    let in_force = done.table;
    *table = in_force;
    table_row(rt, "load", done.number, table);
    let mut other = JUNK;
    let number = block_table::load_in_place(&mut other, text);
    table_row(rt, "junk", number, &other);
    board_rows(rt, table);
    run_rows(rt, table, input);
    run_rows(rt, &other, input);
    Ok(())
}

// Puts the bytes of a file at the start of a buffer, and answers how many there are.
fn read_file(rt: &impl Files, name: &str, buffer: &mut [u8]) -> io::Result<usize>
    ensures { ReadsAtMost result buffer.new }
{
    let mut file = fs::open(rt, name)?;
    read_full(&mut file, buffer)
}

// Enough for every table file in ../data.
fn text_buffer() -> [u8; 131072]
    ensures { 131072 ≡ length result }
{
    array_of(0)
}
