// Test calls on a directory by value.
ghost use Rattle.std.specs.Prelude.{◌≡◌, []};
ghost use Rattle.memory.specs.Parity.{Memory};
ghost use Rattle.refusal.specs.Call.{after, state};
ghost use Rattle.diagnostics.specs.Diagnostics.{test_read_line, test_write_call};

use crate::in_place::{TestLine, test_read_in_place};
use crate::number::test_write_number;
use directory::{Directory, Outcome};
use ways::{Arrays, line_offset};
use words::copy_line;

// A line planted: its tag, its valid mark and its sixteen bytes. The LRU number of its set stays.
pub fn test_write(
    given: Directory,
    data: &mut [u8],
    set: u32,
    way: u32,
    tag: u32,
    mark: bool,
    bytes: [u8; 16],
) -> Outcome
    ensures { (m : Memory) → after result m «data».new []
        ≡ test_write_call (state given m «data».old) set way tag mark bytes }
{
    if let Err(refusal) = test_write_number(data.len(), given.cd, set, way, tag) {
        return given.answered(refusal.number());
    }
    let s = set as usize;
    let w = way as usize;
    copy_line(&bytes, 0, data, line_offset(s, w));
    given.with_line(s, w, tag, mark).answered(0)
}

// What a test read by value answers: the directory as it was given, and the line.
#[repr(C)]
#[derive(Clone, Copy)]
pub struct TestRead {
    pub directory: Directory,
    pub line: TestLine,
}

pub fn test_read(given: Directory, data: &[u8], set: u32, way: u32) -> TestRead
    ensures { result ≡ record { directory = given; line = test_read_line given «data».now set way } }
{
    let arrays = Arrays {
        tags: &given.tags,
        valid: &given.valid,
        lru: &given.lru,
    };
    let line = test_read_in_place(arrays, given.cd, data, set, way);
    TestRead {
        directory: given,
        line,
    }
}
