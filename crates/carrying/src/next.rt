// The next doubleword of a read that carries writes.
ghost use Rattle.std.specs.Prelude.{◌≡◌, [], false, ◌+◌, ◌*◌, ◌/◌, ◌%◌, ◌^◌, ◌≤◌, ◌<◌, length, replicate, Some, None};
ghost use Rattle.ways.specs.Address.{data_offset, data_size, set_of};
ghost use Rattle.ways.specs.Ways.{lookup_in, victim_in};
ghost use Rattle.words.specs.Bytes.{bytes_at, value_of};
ghost use Rattle.memory.specs.Parity.{memory};
ghost use Rattle.carried.specs.Carried.{due};
ghost use Rattle.carried.specs.CarriedCode.{CarriedNeeds, left_from};
ghost use Rattle.doubleword.specs.DoublewordCode.{BelowFour};
ghost use Rattle.doubleword.specs.Cursor.{AccessNeeds, line_address, next_doubleword};
ghost use Rattle.reading.specs.Reading.{kept_array};
ghost use Rattle.carrying.specs.CarryingCode.{CarriedNext, FoundBelow, begun_by, carried_read, none_brought, settled_change, use_of};

use crate::cycle::Brought;
use crate::miss::{fill_miss, plain_miss};
use carried::CarriedWrites;
use doubleword::{AccessCursor, Change, Wanted};
use ways::{LINES, SETS, data_offset};
use words::{copy_line, value_at};

// What the lookup and the cycles of a doubleword brought: its line, what was found, whether the line buffer is a fill whose last answer
// has KEN# and whether a write landed in its line after the first cycle, how many bytes were read and their number, the count of cycles,
// and how many of the writes have landed.
#[derive(Clone, Copy)]
pub struct CarriedRead {
    pub line: u32,
    pub found: Option<usize>,
    pub ken: bool,
    pub spoiled: bool,
    pub buffer: [u8; 16],
    pub count: usize,
    pub value: u32,
    pub cycles: usize,
    pub landed: usize,
}

// The number of some bytes of a doubleword, which is below what so many bytes can say.
fn number_at(src: &[u8], at: usize, count: usize) -> u32
    requires { (0 < count) × (at % 4 + count ≤ 4) × (at / 4 * 4 + 4 ≤ length src.now) }
    ensures { (result ≡ value_of (bytes_at src.now at count)) × (result < 256 ^ count) }
{
    value_at(&src[..], at, count)
}

// A hit: the bytes of the data array.
fn hit_read(data: &[u8], w: Wanted, way: usize, landed: usize) -> CarriedRead
    requires { (way < 4) × (length «data».now ≡ data_size) × (0 < w.count) × (w.from % 4 + w.count ≤ 4) × (w.from < 16) }
    ensures { (result.value ≡ value_of (bytes_at «data».now (data_offset w.line way + w.from) w.count)) × (result.value < 256 ^ w.count)
        × (result ≡ carried_read w.line (Some way) (none_brought landed) false (replicate 16 0) w.count result.value) }
{
    let value = number_at(data, data_offset(w.line, way) + w.from, w.count);
    CarriedRead {
        line: w.line,
        found: Some(way),
        ken: false,
        spoiled: false,
        buffer: [0; 16],
        count: w.count,
        value,
        cycles: 0,
        landed,
    }
}

// What the cycles of a miss brought.
fn miss_read(w: Wanted, brought: Brought, buffer: [u8; 16], ken: bool) -> CarriedRead
    requires { (0 < w.count) × (w.from % 4 + w.count ≤ 4) × (w.from < 16) }
    ensures { (result.value ≡ value_of (bytes_at buffer w.from w.count)) × (result.value < 256 ^ w.count)
        × (result ≡ carried_read w.line None brought ken buffer w.count result.value) }
{
    let value = number_at(&buffer[..], w.from, w.count);
    CarriedRead {
        line: w.line,
        found: None,
        ken,
        spoiled: brought.spoiled,
        buffer,
        count: w.count,
        value,
        cycles: brought.used,
        landed: brought.landed,
    }
}

// The doubleword at a cursor up to its last cycle, by lent fields of the directory. may_fill: CD = 0 and PCD = 0; landed: how many of
// the writes have landed.
pub fn carried_next<'a>(
    tags: &'a [u32; LINES],
    valid: &'a [bool; LINES],
    may_fill: bool,
    ram: &mut [u8],
    parity: &mut [u8],
    data: &[u8],
    answers: &[u8],
    log: &mut [u32],
    cursor: AccessCursor,
    carried: CarriedWrites,
    landed: usize,
) -> CarriedRead
    requires { (0 < cursor.left) × AccessNeeds cursor (length ram.old) (length parity.old) (length «data».now) (length answers.now) (length log.old)
        × CarriedNeeds carried (length ram.old) (length parity.old) × (landed ≤ carried.count) × (due cursor.cycles (left_from carried landed) ≡ []) }
    ensures { CarriedNext (lookup_in tags.now valid.now (line_address cursor))
        (begun_by (lookup_in tags.now valid.now (line_address cursor)) may_fill (memory ram.old parity.old) (left_from carried landed) cursor.cycles «data».now (next_doubleword cursor answers.now))
        carried landed (memory ram.old parity.old) cursor log.old result (memory ram.new parity.new) log.new }
{
    let w = cursor.wanted();
    let group = cursor.group_of(answers);
    let line = w.line;
    if let Some(way) = ways::lookup(tags, valid, line) {
        return hit_read(data, w, way, landed);
    }
    let mut buffer = [0u8; 16];
    if !(may_fill & (group[0] % 2 == 1)) {
        let plain = plain_miss(
            ram,
            parity,
            group,
            &mut buffer,
            log,
            carried,
            line,
            w.from,
            w.count,
            cursor.cycles,
            landed,
        );
        return miss_read(w, plain, buffer, false);
    }
    let start = w.from / 4;
    let fill = fill_miss(
        ram,
        parity,
        group,
        &mut buffer,
        log,
        carried,
        line,
        start,
        cursor.cycles,
        landed,
    );
    let last = group[fill.used - 1];
    miss_read(w, fill, buffer, last % 2 == 1)
}

// A use of the way that was found.
fn use_of(found: Option<usize>) -> Change
    ensures { result ≡ use_of found }
{
    match found {
        Some(way) => Change::Use(way),
        None => Change::Unchanged,
    }
}

// The end of a doubleword, by the directory after the snoops of what landed: a kept line goes into the data array, in the victim's
// place. Answers the directory's change.
pub fn settle<'a>(
    valid: &'a [bool; LINES],
    lru: &'a [u8; SETS],
    data: &mut [u8],
    read: CarriedRead,
    kept: bool,
) -> Change
    requires { (length «data».old ≡ data_size) × FoundBelow read.found }
    ensures { (result ≡ settled_change kept (victim_in valid.now lru.now (set_of read.line)) read.found) × BelowFour result
        × («data».new ≡ kept_array kept (victim_in valid.now lru.now (set_of read.line)) read.line read.buffer «data».old) }
{
    if kept {
        let way = ways::victim(valid, lru, ways::set_of(read.line));
        let offset = data_offset(read.line, way);
        let buffer = read.buffer;
        copy_line(&buffer[..], 0, data, offset);
        return Change::Fill(way);
    }
    let found = read.found;
    use_of(found)
}
