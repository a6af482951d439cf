// The test calls of diagnostic disks, on a directory whose arrays are lent. Neither looks at NW or the ranges, and a test write not at
// the LRU numbers: the contracts hold whatever those are.
ghost use Rattle.std.specs.Prelude.{◌≡◌, Bool, List, [], ℕ};
ghost use Rattle.ranges.specs.declared.Ranges.{Ranges};
ghost use Rattle.directory.specs.Outcome.{outcome};
ghost use Rattle.directory.specs.Steps.{directory_of};
ghost use Rattle.memory.specs.Parity.{Memory};
ghost use Rattle.refusal.specs.Call.{after, state};
ghost use Rattle.diagnostics.specs.Diagnostics.{test_read_line, test_write_call};

use diagnostics::TestLine;
use directory::{LINES, SETS};
use numbers::answer_of;
use ways::Arrays;

#[unsafe(no_mangle)]
pub extern "C" fn unit486_test_write_in_place(
    tags: &mut [u32; LINES],
    valid: &mut [bool; LINES],
    cd: bool,
    data: &mut [u8],
    set: u32,
    way: u32,
    tag: u32,
    mark: bool,
    bytes: &[u8; 16],
) -> u32
    ensures { (lru : List ℕ) (nw : Bool) (ranges : Ranges) (m : Memory) →
        after (outcome (directory_of tags.new valid.new lru cd nw ranges) result 0 0) m «data».new []
        ≡ test_write_call (state (directory_of tags.old valid.old lru cd nw ranges) m «data».old) set way tag mark bytes.now }
{
    answer_of(diagnostics::test_write_in_place(tags, valid, cd, data, set, way, tag, mark, bytes))
}

#[unsafe(no_mangle)]
pub extern "C" fn unit486_test_read_in_place<'a>(
    tags: &'a [u32; LINES],
    valid: &'a [bool; LINES],
    lru: &'a [u8; SETS],
    cd: bool,
    data: &'a [u8],
    set: u32,
    way: u32,
) -> TestLine
    ensures { (nw : Bool) (ranges : Ranges) → result ≡ test_read_line (directory_of tags.now valid.now lru.now cd nw ranges) «data».now set way }
{
    let arrays = Arrays { tags, valid, lru };
    diagnostics::test_read_in_place(arrays, cd, data, set, way)
}
