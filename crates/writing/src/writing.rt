// What a doubleword of a write does to the data array and to RAM.
ghost use Rattle.std.specs.Prelude.{◌≡◌, [], ◌∷◌, cond, ◌+◌, ◌*◌, ◌%◌, ◌≤◌, ◌<◌, length};
ghost use Rattle.ranges.specs.Ranges.{kept_ranges, ranges_of, read_only};
ghost use Rattle.words.specs.Bytes.{bytes_of, lanes_value, lanes_word};
ghost use Rattle.memory.specs.Parity.{memory, stored};
ghost use Rattle.bus.specs.Bus.{cycles_of, run};
ghost use Rattle.bus.specs.Record.{write_record};
ghost use Rattle.parts.specs.Made.{CyclesMade};
ghost use Rattle.cycles.specs.Sent.{sent_line};
ghost use Rattle.doubleword.specs.DoublewordCode.{DoublewordNeeds};

use cycles::write_cycles;
use doubleword::Wanted;
use memory::store_lanes;
use ranges::Kept;

// Lanes of a doubleword stored as memory stores them, but for a read-only line, which ignores them. The ranges are
// asked just before the store, so that a hit that stays in the cache asks none.
fn store_writable<'a>(
    ranges: Kept<'a>,
    ram: &mut [u8],
    parity: &mut [u8],
    base: usize,
    lane: usize,
    count: usize,
    word: u32,
)
    requires { (0 < count) × (lane + count ≤ 4) × (base % 4 ≡ 0) × (base < 4294967296) × (base + 4 ≤ length ram.old) × (base + 4 ≤ 4 * length parity.old) × (word ≡ lanes_word word lane count) }
    ensures { memory ram.new parity.new
        ≡ cond (read_only (ranges_of (kept_ranges ranges.entry)) base) (memory ram.old parity.old) (stored (memory ram.old parity.old) (base + lane) (bytes_of count (lanes_value word lane count))) }
{
    if !ranges.read_only(base as u32) {
        store_lanes(ram, parity, base, lane, count, word);
    }
}

// A doubleword that goes to RAM: its bytes are stored at once, since no cycle reads them, and its cycles are recorded.
pub fn write_through<'a>(
    ranges: Kept<'a>,
    ram: &mut [u8],
    parity: &mut [u8],
    answers: &[u8],
    log: &mut [u32],
    w: Wanted,
    word: u32,
    first: usize,
) -> usize
    requires { DoublewordNeeds w first (length ram.old) (length parity.old) (length answers.now) (length log.old) × (word ≡ lanes_word word (w.from % 4) w.count) }
    ensures { (memory ram.new parity.new
        ≡ cond (read_only (ranges_of (kept_ranges ranges.entry)) w.line) (memory ram.old parity.old) (stored (memory ram.old parity.old) (w.line + w.from) (bytes_of w.count (lanes_value word (w.from % 4) w.count))))
        × CyclesMade (write_record (sent_line w.from (bytes_of w.count (lanes_value word (w.from % 4) w.count))) w.line) (cycles_of answers.now (run w.from w.count ∷ [])) first 0 log.old result log.new × (result ≤ 4) }
{
    let line = w.line as usize;
    let base = line + w.from / 4 * 4;
    store_writable(ranges, ram, parity, base, w.from % 4, w.count, word);
    write_cycles(answers, log, line, w.from, w.count, word, first)
}
