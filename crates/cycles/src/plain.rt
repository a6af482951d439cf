// The cycles of a read that is no fill.
ghost use Rattle.std.specs.Prelude.{[], ◌∷◌, ◌+◌, ◌*◌, ◌/◌, ◌%◌, ◌≤◌, ◌<◌, length};
ghost use Rattle.memory.specs.Parity.{memory};
ghost use Rattle.bus.specs.Bus.{cycles_of, run};
ghost use Rattle.bus.specs.Record.{plain_kind, read_record};
ghost use Rattle.parts.specs.Made.{CyclesMade};
ghost use Rattle.parts.specs.Parts.{LineNeeds};

use bus::Kind;
use parts::Transfer;
use words::lanes_mask;

// The cycles of so many bytes of a doubleword, from an offset of a line on. first: the place of the first record in the log. Answers
// how many cycles were made.
pub fn plain_cycles(
    ram: &[u8],
    parity: &[u8],
    answers: &[u8],
    log: &mut [u32],
    line: usize,
    from: usize,
    count: usize,
    first: usize,
) -> usize
    requires { (0 < count) × (from % 4 + count ≤ 4) × (4 ≤ length answers.now) × (3 * (first + 4) ≤ length log.old) × LineNeeds line (from / 4 * 4) (length ram.now) (length parity.now) }
    ensures { CyclesMade (read_record plain_kind (memory ram.now parity.now) line) (cycles_of answers.now (run from count ∷ [])) first 0 log.old result log.new × (0 < result) × (result ≤ 4) }
{
    let base = line + from / 4 * 4;
    let doubleword = Transfer::read(&ram[..], &parity[..], base, Kind::Plain);
    let lane = from % 4;
    if answers[0] / 2 % 4 == 0 {
        doubleword.put(log, first, lanes_mask(lane, count), true);
        return 1;
    }
    doubleword.sized_cycles(&answers[..], log, lane, count, first)
}
