// The call that sets the read-only ranges, by value and in place. It is given RAM for its length alone.
#![tactic(auto)]

ghost use Rattle.std.specs.Prelude.{◌≡◌, Bool, List, [], ℕ, ◌≤◌, length, replicate};
ghost use Rattle.std.proofs.lemmas.List.Edits.{sets};
ghost use Rattle.numbers.specs.Numbers.{answer_of};
ghost use Rattle.ranges.specs.Ranges.{lent_ranges};
ghost use Rattle.directory.specs.Outcome.{outcome};
ghost use Rattle.directory.specs.Steps.{directory_of};
ghost use Rattle.memory.specs.Parity.{memory};
ghost use Rattle.refusal.specs.Call.{after, state};
ghost use Rattle.read_only_ranges.specs.SetRanges.{set_ranges_call, set_ranges_number};

use directory::{Directory, Outcome};
use numbers::Refusal;
use ranges::{BOUNDS, Ranges, any_bad};
use refusal::ram_number;

// Numbers 1, 37 and 38, of all ranges that are given.
#[tactic(auto, using(refusal::proofs::Order::first_met, refusal::proofs::Order::next_met, crate::proofs::SetRanges::many_ranges), unfolding(crate::specs::SetRanges::set_ranges_number, refusal::specs::Refusal::ranges_number))]
fn set_ranges_number(ram: usize, ranges: &[u32]) -> Result<(), Refusal>
    ensures { answer_of result ≡ set_ranges_number ram ranges.now }
{
    ram_number(ram)?;
    if any_bad(ram, ranges) {
        return Err(Refusal::WrongRange);
    }
    if BOUNDS < ranges.len() {
        return Err(Refusal::TooManyRanges);
    }
    Ok(())
}

// The words that a directory keeps: those that are given, then zeros.
fn bounds_of(ranges: &[u32]) -> [u32; BOUNDS]
    requires { length ranges.now ≤ 16 }
    ensures { result ≡ sets (replicate 16 0) 0 ranges.now }
{
    let mut bounds = [0u32; BOUNDS];
    bounds[..ranges.len()].copy_from_slice(ranges);
    bounds
}

pub fn set_ranges(given: Directory, ram: &[u8], ranges: &[u32]) -> Outcome
    ensures { (parity array : List ℕ) → after result (memory ram.now parity) array []
        ≡ set_ranges_call (state given (memory ram.now parity) array) ranges.now }
{
    if let Err(refusal) = set_ranges_number(ram.len(), ranges) {
        return given.answered(refusal.number());
    }
    let kept = Ranges {
        count: (ranges.len() / 2) as u32,
        bounds: bounds_of(ranges),
    };
    given.with_ranges(kept).answered(0)
}

// The rest of the directory is not lent, so it stays.
pub fn set_ranges_in_place(
    range_count: &mut u32,
    bounds: &mut [u32; BOUNDS],
    ram: &[u8],
    ranges: &[u32],
) -> Result<(), Refusal>
    ensures { (tags : List ℕ) (valid : List Bool) (lru : List ℕ) (cd nw : Bool) (parity array : List ℕ) →
        after (outcome (directory_of tags valid lru cd nw (lent_ranges range_count.new bounds.new)) (answer_of result) 0 0) (memory ram.now parity) array []
        ≡ set_ranges_call (state (directory_of tags valid lru cd nw (lent_ranges range_count.old bounds.old)) (memory ram.now parity) array) ranges.now }
{
    set_ranges_number(ram.len(), ranges)?;
    *range_count = (ranges.len() / 2) as u32;
    *bounds = bounds_of(ranges);
    Ok(())
}
