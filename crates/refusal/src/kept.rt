// The numbers that turn a call away because of the read-only ranges that its directory keeps.
ghost use Rattle.std.specs.Prelude.{◌≡◌};
ghost use Rattle.numbers.specs.Numbers.{answer_of};
ghost use Rattle.ranges.specs.Ranges.{kept_ranges};
ghost use Rattle.refusal.specs.Refusal.{kept_number};

use numbers::Refusal;
use ranges::{Kept, RANGES_MOST};

// Numbers 37 and 38, by RAM's length. Most directories keep no range.
#[tactic(auto, using(crate::proofs::Accepted::none_kept), unfolding(crate::specs::Refusal::ranges_number))]
pub fn ranges_number<'a>(ram: usize, ranges: Kept<'a>) -> Result<(), Refusal>
    ensures { answer_of result ≡ kept_number ram (kept_ranges ranges.entry) }
{
    if ranges.count == 0 {
        return Ok(());
    }
    if ranges.any_bad(ram) {
        return Err(Refusal::WrongRange);
    }
    if RANGES_MOST < ranges.count {
        return Err(Refusal::TooManyRanges);
    }
    Ok(())
}
