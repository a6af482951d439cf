// The cycles of a fill.
ghost use Rattle.std.specs.Prelude.{◌+◌, ◌*◌, ◌≤◌, ◌<◌, length};
ghost use Rattle.memory.specs.Parity.{memory};
ghost use Rattle.bus.specs.Bus.{burst, cycles_of};
ghost use Rattle.bus.specs.Record.{fill_kind, read_record};
ghost use Rattle.bus.specs.Groups.{group_size};
ghost use Rattle.parts.specs.Made.{CyclesMade};
ghost use Rattle.parts.specs.Parts.{LineNeeds};

use bus::{Kind, burst_order};
use parts::Transfer;

// The cycles of a fill that starts with a doubleword of a line. first: the place of the first record in the log. Answers how many
// cycles were made.
pub fn fill_cycles(
    ram: &[u8],
    parity: &[u8],
    answers: &[u8],
    log: &mut [u32],
    line: usize,
    start: usize,
    first: usize,
) -> usize
    requires { (start < 4) × (group_size ≤ length answers.now) × (3 * (first + group_size) ≤ length log.old) × LineNeeds line 0 (length ram.now) (length parity.now) }
    ensures { CyclesMade (read_record fill_kind (memory ram.now parity.now) line) (cycles_of answers.now (burst start)) first 0 log.old result log.new × (0 < result) × (result ≤ group_size) }
{
    let mut used: usize = 0;
    for (turn, from) in burst_order(start * 4).iter().enumerate() {
        let doubleword = Transfer::read(&ram[..], &parity[..], line + *from, Kind::Fill);
        used = doubleword.whole_cycles(&answers[..], log, used, first, turn == 3);
    }
    used
}
