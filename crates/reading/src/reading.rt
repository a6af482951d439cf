// A miss of a read.
ghost use Rattle.std.specs.Prelude.{◌≡◌, ◌+◌, ◌≤◌, length};
ghost use Rattle.std.proofs.lemmas.List.Edits.{sets};
ghost use Rattle.ways.specs.Address.{data_offset, data_size, set_of};
ghost use Rattle.ways.specs.Ways.{victim_in};
ghost use Rattle.words.specs.Bytes.{bytes_at};
ghost use Rattle.memory.specs.Parity.{memory};
ghost use Rattle.doubleword.specs.DoublewordCode.{DoublewordNeeds, doubleword_of};
ghost use Rattle.reading.specs.ReadingCode.{Reads, read_alone};

use cycles::{fill_cycles, plain_cycles};
use doubleword::{Change, Wanted};
use ways::{LINES, SETS, data_offset};
use words::{copy_line, value_at};

// A kept fill: RAM's line goes into the data array, in the victim's place. Nothing changes RAM during the cycles, so it is
// copied once, after the last. Answers the victim.
pub fn keep_line<'a>(
    valid: &'a [bool; LINES],
    lru: &'a [u8; SETS],
    ram: &[u8],
    data: &mut [u8],
    line: u32,
) -> usize
    requires { (length «data».old ≡ data_size) × (line + 16 ≤ length ram.now) }
    ensures { (result ≡ victim_in valid.now lru.now (set_of line))
        × («data».new ≡ sets «data».old (data_offset line result) (bytes_at ram.now line 16)) }
{
    let way = ways::victim(valid, lru, ways::set_of(line));
    let offset = data_offset(line, way);
    copy_line(ram, line as usize, data, offset);
    way
}

// The wanted bytes from RAM, which nothing changes during the cycles: they are read once. may_fill: CD = 0 and PCD = 0; first: the
// records already in the log. Answers the directory's change, the bytes' number, the count of cycles.
pub fn read_miss<'a>(
    valid: &'a [bool; LINES],
    lru: &'a [u8; SETS],
    may_fill: bool,
    ram: &[u8],
    parity: &[u8],
    data: &mut [u8],
    answers: &[u8],
    log: &mut [u32],
    w: Wanted,
    first: usize,
) -> (Change, u32, usize)
    requires { DoublewordNeeds w first (length ram.now) (length parity.now) (length answers.now) (length log.old) × (length «data».old ≡ data_size) }
    ensures { Reads (read_alone None (victim_in valid.now lru.now (set_of w.line)) may_fill (memory ram.now parity.now) «data».old (doubleword_of w answers.now))
        w.count first log.old result.0 result.1 result.2 «data».new log.new }
{
    let line = w.line as usize;
    let from = w.from;
    let value = value_at(ram, line + from, w.count);
    if !(may_fill & (answers[0] % 2 == 1)) {
        let cycles = plain_cycles(ram, parity, answers, log, line, from, w.count, first);
        return (Change::Unchanged, value, cycles);
    }
    let start = from / 4;
    let cycles = fill_cycles(ram, parity, answers, log, line, start, first);
    let kept = answers[cycles - 1] % 2 == 1;
    if kept {
        let way = keep_line(valid, lru, ram, data, w.line);
        return (Change::Fill(way), value, cycles);
    }
    (Change::Unchanged, value, cycles)
}
