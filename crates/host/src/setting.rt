// The call that sets the read-only ranges. Its ranges are words, two for each: its start and its bytes.
ghost use Rattle.std.specs.Prelude.{◌≡◌, Bool, List, [], ℕ};
ghost use Rattle.ranges.specs.Ranges.{lent_ranges};
ghost use Rattle.directory.specs.Outcome.{outcome};
ghost use Rattle.directory.specs.Steps.{directory_of};
ghost use Rattle.memory.specs.Parity.{memory};
ghost use Rattle.refusal.specs.Call.{after, state};
ghost use Rattle.read_only_ranges.specs.SetRanges.{set_ranges_call};

use directory::{Directory, Outcome};
use numbers::answer_of;
use ranges::BOUNDS;

// The rest of the directory is not lent, so it stays.
#[unsafe(no_mangle)]
pub extern "C" fn unit486_set_ranges_in_place(
    range_count: &mut u32,
    bounds: &mut [u32; BOUNDS],
    ram: &[u8],
    ranges: &[u32],
) -> u32
    ensures { (tags : List ℕ) (valid : List Bool) (lru : List ℕ) (cd nw : Bool) (parity array : List ℕ) →
        after (outcome (directory_of tags valid lru cd nw (lent_ranges range_count.new bounds.new)) result 0 0) (memory ram.now parity) array []
        ≡ set_ranges_call (state (directory_of tags valid lru cd nw (lent_ranges range_count.old bounds.old)) (memory ram.now parity) array) ranges.now }
{
    answer_of(read_only_ranges::set_ranges_in_place(range_count, bounds, ram, ranges))
}

#[unsafe(no_mangle)]
pub extern "C" fn unit486_set_ranges_by_value(
    given: Directory,
    ram: &[u8],
    ranges: &[u32],
) -> Outcome
    ensures { (parity array : List ℕ) → after result (memory ram.now parity) array []
        ≡ set_ranges_call (state given (memory ram.now parity) array) ranges.now }
{
    read_only_ranges::set_ranges(given, ram, ranges)
}
