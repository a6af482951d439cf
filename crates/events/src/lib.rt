// Event lines in, rows out: the run over a whole input.
#![tactic(auto)]

ghost use Rattle.std.specs.Prelude.{◌≡◌, ◌+◌, ◌*◌, ◌≤◌, length};
ghost use Rattle.std.proofs.lemmas.List.Edits.{sets};
ghost use Rattle.board.specs.Board.{block_answers};
ghost use Rattle.fields.specs.Fields.{lines_of};
ghost use Rattle.rows.specs.Row.{header};
ghost use Rattle.events.specs.Output.{longest_input, longest_output, output_of, rows_of, start};

use board::{BLOCKS, block_answers};
use directory::Directory;
use fields::next_line;
use performing::perform;
use rows::{put_header, put_row};
use ways::DATA_SIZE;

// The bytes of the program's RAM.
const RAM_SIZE: usize = 65536;

// The bytes of the longest input that is run.
pub const LONGEST_INPUT: usize = 65536;

// Bytes that are enough for every output.
pub const LONGEST_OUTPUT: usize = 3539024;

// Puts the output of a program with this table for the input at the start of output, as far as output goes, and answers its length.
pub fn run(table: &[u8; BLOCKS], input: &[u8], output: &mut [u8]) -> usize
    ensures value { (result ≡ length (output_of table.now input.now)) × (output.new ≡ sets output.old 0 (output_of table.now input.now)) }
    ensures upper_bound { result ≤ longest_output }
{
    let at = put_header(output);
    if LONGEST_INPUT < input.len() {
        return at + put_row(output, at, 0, 12, 0, 0);
    }
    run_lines(table, input, output, at)
}

// The program's own run, with our table.
pub fn run_program(input: &[u8], output: &mut [u8]) -> usize
    ensures value { (result ≡ length (output_of block_answers input.now)) × (output.new ≡ sets output.old 0 (output_of block_answers input.now)) }
    ensures upper_bound { result ≤ longest_output }
{
    run(&block_answers(), input, output)
}

// Puts the rows of the input's lines at a place of output, as far as output goes, and answers the place after them.
fn run_lines(table: &[u8; BLOCKS], input: &[u8], output: &mut [u8], from: usize) -> usize
    requires { (length input.now ≤ longest_input) × (from ≤ length header) }
    ensures value { (result ≡ from + length (rows_of table.now start 1 (lines_of input.now))) × (output.new ≡ sets output.old from (rows_of table.now start 1 (lines_of input.now))) }
    ensures upper_bound { result ≤ from + 54 * (longest_input + 1) }
{
    let mut directory = Directory::first();
    let mut ram = [0u8; RAM_SIZE];
    let mut parity = [0u8; RAM_SIZE / 4];
    let mut data = [0u8; DATA_SIZE];
    let mut event: u32 = 1;
    let mut at = from;
    let mut rest = input;
    while let Some((line, after)) = next_line(rest) {
        let done = perform(
            table,
            &mut directory,
            &mut ram,
            &mut parity,
            &mut data,
            line,
        );
        at += put_row(output, at, event, done.number, done.value, done.cycles);
        event += 1;
        rest = after;
    }
    at
}
