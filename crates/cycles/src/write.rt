// The cycles of a write.
ghost use Rattle.std.specs.Prelude.{◌≡◌, [], ◌∷◌, ◌+◌, ◌*◌, ◌%◌, ◌≤◌, ◌<◌, length};
ghost use Rattle.words.specs.Bytes.{bytes_of, lanes_value, lanes_word};
ghost use Rattle.bus.specs.Bus.{cycles_of, run};
ghost use Rattle.bus.specs.Record.{write_record};
ghost use Rattle.parts.specs.Made.{CyclesMade};
ghost use Rattle.cycles.specs.Sent.{sent_line};

use bus::{Kind, flags_of, put_record};
use parts::Transfer;
use words::lanes_mask;

// The cycles that send so many lanes of a doubleword, from an offset of a line on: no parity is checked. The other lanes are 0. first:
// the place of the first record in the log. Answers how many cycles were made.
pub fn write_cycles(
    answers: &[u8],
    log: &mut [u32],
    line: usize,
    from: usize,
    count: usize,
    word: u32,
    first: usize,
) -> usize
    requires { (0 < count) × (from % 4 + count ≤ 4) × (from < 16) × (word ≡ lanes_word word (from % 4) count) × (4 ≤ length answers.now) × (3 * (first + 4) ≤ length log.old) × (line + 16 ≤ 16777216) }
    ensures { CyclesMade (write_record (sent_line from (bytes_of count (lanes_value word (from % 4) count))) line) (cycles_of answers.now (run from count ∷ [])) first 0 log.old result log.new × (0 < result) × (result ≤ 4) }
{
    let base = (line + from / 4 * 4) as u32;
    let lane = from % 4;
    if answers[0] / 2 % 4 == 0 {
        let flags = flags_of(lanes_mask(lane, count), u32::from(Kind::Write), true, false);
        put_record(log, first, base, flags, word);
        return 1;
    }
    Transfer::unchecked(base, word, Kind::Write).sized_cycles(&answers[..], log, lane, count, first)
}
