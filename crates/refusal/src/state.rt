// The numbers that turn a call away because of the state.
ghost use Rattle.std.specs.Prelude.{◌≡◌, ◌+◌, ◌-◌, ◌<◌};
ghost use Rattle.numbers.specs.Numbers.{answer_of};
ghost use Rattle.ways.specs.Address.{set_count, set_of};
ghost use Rattle.ranges.specs.Ranges.{kept_ranges};
ghost use Rattle.refusal.specs.Refusal.{kept_number, or_else, states_number_in};

use crate::kept::ranges_number;
use numbers::Refusal;
use ranges::Kept;
use ways::{Arrays, SETS, set_of, sound_set};

// The set of the last of so many bytes.
fn last_set(address: u32, count: u32) -> usize
    ensures { (result ≡ set_of (address + count - 1)) × (result < set_count) }
{
    let end = address as usize + count as usize;
    end.saturating_sub(1) / 16 % SETS
}

// Numbers 21 to 23 of every touched set, the lower address's set first. Most accesses touch one set, and the quick
// test says that it is sound.
#[tactic(auto, using(crate::proofs::Order::first_met, crate::proofs::Order::next_met), unfolding(crate::specs::Refusal::states_number_in))]
#[inline(always)]
pub fn states_number<'a>(arrays: Arrays<'a>, address: u32, count: u32) -> Result<(), Refusal>
    ensures { answer_of result ≡ states_number_in arrays.entry.tags.now arrays.entry.valid.now arrays.entry.lru.now address count }
{
    let first = set_of(address);
    let last = last_set(address, count);
    let tags = arrays.tags;
    let lru = arrays.lru;
    if (first == last) & sound_set(tags, lru, first) {
        return Ok(());
    }
    arrays.state_number(first)?;
    arrays.state_number(last)
}

// Numbers 37 and 38 of the ranges that are kept, then those of every touched set: what a call with ranges asks for, apart from
// own_number, so that a call without has the test of its set in line.
#[tactic(auto, using(crate::proofs::Order::first_met, crate::proofs::Order::next_met))]
#[inline(never)]
pub fn ranged_number<'a, 'b>(
    arrays: Arrays<'a>,
    ranges: Kept<'b>,
    ram: usize,
    address: u32,
    count: u32,
) -> Result<(), Refusal>
    ensures { answer_of result ≡ or_else (kept_number ram (kept_ranges ranges.entry)) (states_number_in arrays.entry.tags.now arrays.entry.valid.now arrays.entry.lru.now address count) }
{
    ranges_number(ram, ranges)?;
    states_number(arrays, address, count)
}

// The same of any call. Most directories keep no range.
#[inline(always)]
pub fn own_number<'a, 'b>(
    arrays: Arrays<'a>,
    ranges: Kept<'b>,
    ram: usize,
    address: u32,
    count: u32,
) -> Result<(), Refusal>
    ensures { answer_of result ≡ or_else (kept_number ram (kept_ranges ranges.entry)) (states_number_in arrays.entry.tags.now arrays.entry.valid.now arrays.entry.lru.now address count) }
{
    if ranges.count != 0 {
        return ranged_number(arrays, ranges, ram, address, count);
    }
    states_number(arrays, address, count)
}
