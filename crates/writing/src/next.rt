// The next doubleword of a write.
ghost use Rattle.std.specs.Prelude.{◌<◌, length};
ghost use Rattle.ways.specs.Ways.{lookup_in};
ghost use Rattle.words.specs.Bytes.{bytes_of};
ghost use Rattle.ranges.specs.Ranges.{kept_ranges, ranges_of};
ghost use Rattle.memory.specs.Parity.{memory};
ghost use Rattle.bus.specs.Groups.{widest};
ghost use Rattle.doubleword.specs.Cursor.{AccessNeeds, line_address, next_doubleword};
ghost use Rattle.writing.specs.Writing.{write_done};
ghost use Rattle.writing.specs.WritingCode.{WriteNext};

use crate::writing::write_through;
use doubleword::{AccessCursor, Change};
use ranges::Kept;
use ways::{LINES, data_offset};
use words::{placed_lanes, put_lanes};

// What the next doubleword did: the directory's change with its line, how many bytes it wrote, the count of cycles. What is left
// after it is worked out by the caller, in registers.
#[derive(Clone, Copy)]
pub struct NextWritten {
    pub line: u32,
    pub change: Change,
    pub count: usize,
    pub cycles: usize,
}

// The doubleword at a cursor. stays: CD = NW = 1, where a hit makes no cycle. In a read-only line RAM and parity ignore it.
pub fn write_next<'a>(
    tags: &'a [u32; LINES],
    valid: &'a [bool; LINES],
    stays: bool,
    ranges: Kept<'a>,
    ram: &mut [u8],
    parity: &mut [u8],
    data: &mut [u8],
    answers: &[u8],
    log: &mut [u32],
    value: u64,
    cursor: AccessCursor,
) -> NextWritten
    requires { (0 < cursor.left) × AccessNeeds cursor (length ram.old) (length parity.old) (length «data».old) (length answers.now) (length log.old) }
    ensures { WriteNext (write_done (lookup_in tags.now valid.now (line_address cursor)) stays (ranges_of (kept_ranges ranges.entry))
        (memory ram.old parity.old) «data».old (bytes_of widest value) (next_doubleword cursor answers.now))
        cursor log.old result (memory ram.new parity.new) «data».new log.new }
{
    let w = cursor.wanted();
    let group = cursor.group_of(answers);
    let lane = w.from % 4;
    let word = placed_lanes(value, w.place, lane, w.count);
    let found = ways::lookup(tags, valid, w.line);
    let inside = stays & found.is_some();
    let change = match found {
        Some(way) => {
            let held = data_offset(w.line, way) + w.from / 4 * 4;
            put_lanes(data, held, lane, w.count, word);
            Change::Use(way)
        }
        None => Change::Unchanged,
    };
    let cycles = if inside {
        0
    } else {
        write_through(ranges, ram, parity, group, log, w, word, cursor.cycles)
    };
    NextWritten {
        line: w.line,
        change,
        count: w.count,
        cycles,
    }
}
