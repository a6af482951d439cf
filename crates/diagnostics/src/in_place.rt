// Test calls on a directory whose arrays are lent. Neither looks at NW or the ranges, and a test write not at the LRU numbers: the
// contracts hold whatever those are.
ghost use Rattle.std.specs.Prelude.{◌≡◌, Bool, List, [], ℕ};
ghost use Rattle.numbers.specs.Numbers.{answer_of};
ghost use Rattle.ranges.specs.declared.Ranges.{Ranges};
ghost use Rattle.directory.specs.Outcome.{outcome};
ghost use Rattle.directory.specs.Steps.{directory_of};
ghost use Rattle.memory.specs.Parity.{Memory};
ghost use Rattle.refusal.specs.Call.{after, state};
ghost use Rattle.diagnostics.specs.Diagnostics.{test_read_line, test_write_call};

use crate::number::{test_read_number, test_write_number};
use directory::{LINES, line_in_place};
use numbers::Refusal;
use ways::{Arrays, WAYS, line_offset};
use words::copy_line;

pub fn test_write_in_place(
    tags: &mut [u32; LINES],
    valid: &mut [bool; LINES],
    cd: bool,
    data: &mut [u8],
    set: u32,
    way: u32,
    tag: u32,
    mark: bool,
    bytes: &[u8; 16],
) -> Result<(), Refusal>
    ensures { (lru : List ℕ) (nw : Bool) (ranges : Ranges) (m : Memory) →
        after (outcome (directory_of tags.new valid.new lru cd nw ranges) (answer_of result) 0 0) m «data».new []
        ≡ test_write_call (state (directory_of tags.old valid.old lru cd nw ranges) m «data».old) set way tag mark bytes.now }
{
    test_write_number(data.len(), cd, set, way, tag)?;
    let s = set as usize;
    let w = way as usize;
    copy_line(bytes, 0, data, line_offset(s, w));
    line_in_place(tags, valid, s, w, tag, mark);
    Ok(())
}

// What a test read answers: 0 where it was done or the number that refused it, then the line with the LRU number of its set. Refused:
// zeros and an invalid mark.
#[repr(C)]
#[derive(Clone, Copy)]
pub struct TestLine {
    pub number: u32,
    pub tag: u32,
    pub valid: bool,
    pub lru: u8,
    pub bytes: [u8; 16],
}

pub fn test_read_in_place<'a>(
    arrays: Arrays<'a>,
    cd: bool,
    data: &'a [u8],
    set: u32,
    way: u32,
) -> TestLine
    ensures { (nw : Bool) (ranges : Ranges) → result ≡ test_read_line (directory_of arrays.entry.tags.now arrays.entry.valid.now arrays.entry.lru.now cd nw ranges) «data».now set way }
{
    let mut bytes = [0u8; 16];
    if let Err(refusal) = test_read_number(data.len(), cd, set, way) {
        return TestLine {
            number: refusal.number(),
            tag: 0,
            valid: false,
            lru: 0,
            bytes,
        };
    }
    let s = set as usize;
    let w = way as usize;
    copy_line(data, line_offset(s, w), &mut bytes, 0);
    let line = s * WAYS + w;
    TestLine {
        number: 0,
        tag: arrays.tags[line],
        valid: arrays.valid[line],
        lru: arrays.lru[s],
        bytes,
    }
}
