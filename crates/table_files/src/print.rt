// Rows on standard output: a label, fields with a tab before each, and a newline.
ghost use Rattle.std.specs.Prelude.{◌<◌};

use board::BLOCKS;
use buffers::{large_buffer, within};

// The number that a load answered, and the table that it handed back.
pub fn table_row(rt: &impl Print, load: &str, number: u32, table: &[u8; BLOCKS]) {
    let _ = print!(rt; "{load}\t{number}");
    for answer in table {
        let _ = print!(rt; "\t{answer}");
    }
    let _ = println!(rt);
}

pub fn board_rows(rt: &impl Print, table: &[u8; BLOCKS]) {
    for block in 0..16 {
        board_row(rt, table, block);
    }
}

// An access of eight bytes from the last three of a block on: the first and the last answer of each group.
fn board_row(rt: &impl Print, table: &[u8; BLOCKS], block: u32)
    requires { block < 16 }
{
    let answers = board::board_answers(table, (block + 1) * 1048576 - 3, 8);
    let _ = print!(rt; "board\t{block}");
    for k in [0, 15, 16, 31, 32, 47] {
        let _ = print!(rt; "\t{}", answers[k]);
    }
    let _ = println!(rt);
}

// The output of the run over event lines, which is short.
pub fn run_rows(rt: &impl Print, table: &[u8; BLOCKS], input: &[u8]) {
    let mut output = large_buffer();
    let whole = events::run(table, input, &mut output);
    let n = within(whole, &output);
    let _ = rt.write_all(&output[..n]);
}
