// The board table: the board's answers for an access.
#![tactic(auto)]

ghost use Rattle.std.specs.Prelude.{◌≡◌, ◌*◌, ◌<◌, replicate};
ghost use Rattle.std.proofs.lemmas.List.Edits.{sets};
ghost use Rattle.bus.specs.Groups.{group_count, group_size};
ghost use Rattle.board.specs.Board.{answer_at, block_answers, board_answers, group_address};

pub use bus::ANSWERS;
use bus::{GROUP_SIZE, GROUPS, bad_width};

// The blocks that a table has an answer for, and the bytes of a block.
pub const BLOCKS: usize = 16;

const BLOCK_SIZE: usize = 1048576;

// Our table, which the program uses.
pub fn block_answers() -> [u8; BLOCKS]
    ensures { result ≡ block_answers }
{
    [1, 1, 1, 1, 1, 1, 1, 1, 5, 5, 5, 5, 4, 4, 2, 3]
}

#[tactic(auto, unfolding(crate::specs::Board::answer_at))]
fn answer_at(table: &[u8; BLOCKS], address: usize) -> u8
    ensures { result ≡ answer_at table.now address }
{
    table[address / BLOCK_SIZE % BLOCKS]
}

// The address of a group's doubleword, or of the access itself where there is none: an access of a refused width has only the lowest.
#[tactic(auto, unfolding(crate::specs::Board::group_address))]
fn group_address(address: u32, width: u32, group: usize) -> usize
    requires { group < group_count }
    ensures { result ≡ group_address address width group }
{
    let start = address as usize;
    let touched = !bad_width(width) && 4 * group < start % 4 + width as usize;
    if touched { start + 4 * group } else { start }
}

// Puts an answer at every place of a group.
fn fill_group(answers: &mut [u8; ANSWERS], group: usize, answer: u8)
    requires { group < group_count }
    ensures { answers.new ≡ sets answers.old (group_size * group) (replicate group_size answer) }
{
    let first = GROUP_SIZE * group;
    answers[first..first + GROUP_SIZE].fill(answer);
}

// The answers for an access, a group for each doubleword that one can touch. Far enough from the end of a block, which is nearly
// everywhere, all have one answer.
#[tactic(auto, using(crate::proofs::Answers::board_same, crate::proofs::Answers::filled_lowest, crate::proofs::Answers::filled_one, crate::proofs::Answers::filled_none))]
pub fn board_answers(table: &[u8; BLOCKS], address: u32, width: u32) -> [u8; ANSWERS]
    ensures { result ≡ board_answers table.now address width }
{
    let lowest = answer_at(table, address as usize);
    if address as usize % BLOCK_SIZE < BLOCK_SIZE - 4 * GROUPS {
        return [lowest; ANSWERS];
    }
    let mut answers = [lowest; ANSWERS];
    for group in 1..GROUPS {
        let answer = answer_at(table, group_address(address, width, group));
        fill_group(&mut answers, group, answer);
    }
    answers
}
