// Block tables and the board's answers. None of these calls is lent a directory.
ghost use Rattle.std.specs.Prelude.{◌≡◌};
ghost use Rattle.board.specs.Board.{block_answers, board_answers};
ghost use Rattle.block_table.specs.Load.{load_call, loaded};

use block_table::LoadedTable;
use board::{ANSWERS, BLOCKS};

#[unsafe(no_mangle)]
pub extern "C" fn unit486_block_answers(table: &mut [u8; BLOCKS])
    ensures { table.new ≡ block_answers }
{
    *table = board::block_answers();
}

#[unsafe(no_mangle)]
pub extern "C" fn unit486_load_table(table: &mut [u8; BLOCKS], text: &[u8]) -> u32
    ensures { loaded table.new result ≡ load_call table.old text.now }
{
    block_table::load_in_place(table, text)
}

#[unsafe(no_mangle)]
pub extern "C" fn unit486_load_table_by_value(table: &[u8; BLOCKS], text: &[u8]) -> LoadedTable
    ensures { result ≡ load_call table.now text.now }
{
    block_table::load(table, text)
}

#[unsafe(no_mangle)]
pub extern "C" fn unit486_board_answers(
    table: &[u8; BLOCKS],
    address: u32,
    width: u32,
    answers: &mut [u8; ANSWERS],
)
    ensures { answers.new ≡ board_answers table.now address width }
{
    *answers = board::board_answers(table, address, width);
}
