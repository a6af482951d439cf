// The next doubleword of a read, and the number that its bytes add to.
ghost use Rattle.std.specs.Prelude.{◌≡◌, ◌+◌, ◌*◌, ◌^◌, ◌≤◌, ◌<◌, length};
ghost use Rattle.ways.specs.Address.{set_of};
ghost use Rattle.ways.specs.Ways.{lookup_in, victim_in};
ghost use Rattle.memory.specs.Parity.{memory};
ghost use Rattle.bus.specs.Groups.{widest};
ghost use Rattle.doubleword.specs.Cursor.{AccessNeeds, line_address, next_doubleword};
ghost use Rattle.reading.specs.ReadingCode.{ReadNext, read_alone};

use crate::reading::read_miss;
use doubleword::{AccessCursor, Change};
use ways::{Arrays, data_offset};
use words::value_at;

// What the next doubleword did: the directory's change with its line, how many bytes it read and their number, the count of
// cycles. What is left after it is worked out by the caller, in registers.
#[derive(Clone, Copy)]
pub struct NextRead {
    pub line: u32,
    pub change: Change,
    pub count: usize,
    pub value: u32,
    pub cycles: usize,
}

// The doubleword at a cursor. may_fill: CD = 0 and PCD = 0.
pub fn read_next<'a>(
    arrays: Arrays<'a>,
    may_fill: bool,
    ram: &[u8],
    parity: &[u8],
    data: &mut [u8],
    answers: &[u8],
    log: &mut [u32],
    cursor: AccessCursor,
) -> NextRead
    requires { (0 < cursor.left) × AccessNeeds cursor (length ram.now) (length parity.now) (length «data».old) (length answers.now) (length log.old) }
    ensures { ReadNext (read_alone (lookup_in arrays.entry.tags.now arrays.entry.valid.now (line_address cursor)) (victim_in arrays.entry.valid.now arrays.entry.lru.now (set_of (line_address cursor)))
        may_fill (memory ram.now parity.now) «data».old (next_doubleword cursor answers.now))
        cursor log.old result «data».new log.new }
{
    let w = cursor.wanted();
    let group = cursor.group_of(answers);
    let first = cursor.cycles;
    let tags = arrays.tags;
    let valid = arrays.valid;
    let lru = arrays.lru;
    let (change, value, cycles) = match ways::lookup(tags, valid, w.line) {
        Some(way) => {
            let value = value_at(data, data_offset(w.line, way) + w.from, w.count);
            (Change::Use(way), value, 0)
        }
        None => read_miss(
            valid, lru, may_fill, ram, parity, data, group, log, w, first,
        ),
    };
    NextRead {
        line: w.line,
        change,
        count: w.count,
        value,
        cycles,
    }
}

// The number of some bytes and of a part above them, from a place on.
pub fn with_part(value: u64, place: usize, part: u32) -> u64
    requires { (place < widest) × (value + part * 256 ^ place < 256 ^ widest) }
    ensures { result ≡ value + part * 256 ^ place }
{
    value + ((part as u64) << (8 * place))
}
