// The number of a read and of a write, for either form of the call.
#![tactic(auto, using(crate::proofs::Order::first_met, crate::proofs::Order::next_met, crate::proofs::Carried::few_accepted))]

ghost use Rattle.std.specs.Prelude.{◌≡◌, length};
ghost use Rattle.numbers.specs.Numbers.{answer_of};
ghost use Rattle.ranges.specs.Ranges.{kept_ranges};
ghost use Rattle.carried.specs.CarriedCode.{carried_of};
ghost use Rattle.refusal.specs.Refusal.{argument_number, carried_number, carried_states_number_in, kept_number, lent_number, or_else, states_number_in, value_number};

use crate::input::{argument_number, lent_number, value_number};
use crate::state::own_number;
use crate::writes::{carried_number, carried_states_number};
use carried::CarriedWrites;
use numbers::Refusal;
use ranges::Kept;
use ways::Arrays;

// The lowest number that a read meets.
pub fn read_number<'a, 'b>(
    arrays: Arrays<'a>,
    ranges: Kept<'b>,
    ram: &[u8],
    parity: &[u8],
    data: &[u8],
    address: u32,
    width: u32,
    answers: &[u8],
    log: &[u32],
) -> Result<(), Refusal>
    ensures { answer_of result ≡ or_else (lent_number (length ram.now) (length parity.now) (length «data».now))
        (or_else (argument_number (length ram.now) address width answers.now (length log.now))
        (or_else (kept_number (length ram.now) (kept_ranges ranges.entry))
        (states_number_in arrays.entry.tags.now arrays.entry.valid.now arrays.entry.lru.now address width))) }
{
    let size = ram.len();
    lent_number(size, parity.len(), data.len())?;
    argument_number(size, address, width, answers, log)?;
    own_number(arrays, ranges, size, address, width)
}

// The lowest number that a read meets with the writes that it carries.
pub fn read_carrying_number<'a, 'b>(
    arrays: Arrays<'a>,
    ranges: Kept<'b>,
    ram: &[u8],
    parity: &[u8],
    data: &[u8],
    address: u32,
    width: u32,
    answers: &[u8],
    log: &[u32],
    carried: CarriedWrites,
) -> Result<(), Refusal>
    ensures { answer_of result ≡ or_else (lent_number (length ram.now) (length parity.now) (length «data».now))
        (or_else (argument_number (length ram.now) address width answers.now (length log.now))
        (or_else (carried_number (length ram.now) (carried_of carried))
        (or_else (kept_number (length ram.now) (kept_ranges ranges.entry))
        (or_else (states_number_in arrays.entry.tags.now arrays.entry.valid.now arrays.entry.lru.now address width)
        (carried_states_number_in arrays.entry.tags.now arrays.entry.valid.now arrays.entry.lru.now (carried_of carried)))))) }
{
    let size = ram.len();
    lent_number(size, parity.len(), data.len())?;
    argument_number(size, address, width, answers, log)?;
    carried_number(size, carried)?;
    own_number(arrays, ranges, size, address, width)?;
    carried_states_number(arrays, carried)
}

// The lowest number that a write meets.
pub fn write_number<'a, 'b>(
    arrays: Arrays<'a>,
    ranges: Kept<'b>,
    ram: &[u8],
    parity: &[u8],
    data: &[u8],
    address: u32,
    width: u32,
    value: u64,
    answers: &[u8],
    log: &[u32],
) -> Result<(), Refusal>
    ensures { answer_of result ≡ or_else (lent_number (length ram.now) (length parity.now) (length «data».now))
        (or_else (argument_number (length ram.now) address width answers.now (length log.now))
        (or_else (value_number width value)
        (or_else (kept_number (length ram.now) (kept_ranges ranges.entry))
        (states_number_in arrays.entry.tags.now arrays.entry.valid.now arrays.entry.lru.now address width)))) }
{
    let size = ram.len();
    lent_number(size, parity.len(), data.len())?;
    argument_number(size, address, width, answers, log)?;
    value_number(width, value)?;
    own_number(arrays, ranges, size, address, width)
}
