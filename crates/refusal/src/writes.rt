// The numbers that turn a read away because of the writes that it carries.
ghost use Rattle.std.specs.Prelude.{◌≡◌, not, ◌≤◌};
ghost use Rattle.numbers.specs.Numbers.{answer_of};
ghost use Rattle.carried.specs.CarriedCode.{carried_of};
ghost use Rattle.refusal.specs.Refusal.{any_refused, carried_number, carried_states_number_in, in_order};

use crate::input::external_number;
use crate::state::states_number;
use carried::{CARRIED_MOST, CarriedWrites};
use numbers::Refusal;
use ways::Arrays;

// Whether a write is numbered below the one before it.
#[tactic(auto, using(crate::proofs::Carried::order_step, crate::proofs::Carried::order_end, crate::proofs::Carried::all_left))]
fn out_of_order(carried: CarriedWrites) -> bool
    requires { carried.count ≤ 4 }
    ensures { result ≡ not (in_order (carried_of carried)) }
{
    let mut below = false;
    for k in 1..carried.count as usize {
        below = below | (carried.cycles[k] < carried.cycles[k - 1]);
    }
    below
}

// Whether 10 would refuse one of the writes.
#[tactic(auto, using(numbers::proofs::Refused::err_numbered, crate::proofs::Carried::refused_step, crate::proofs::Carried::refused_end, crate::proofs::Carried::all_left))]
fn any_refused(ram: usize, carried: CarriedWrites) -> bool
    requires { carried.count ≤ 4 }
    ensures { result ≡ any_refused ram (carried_of carried) }
{
    let mut refused = false;
    for k in 0..carried.count as usize {
        let number = external_number(ram, carried.addresses[k], carried.lengths[k] as usize);
        refused = refused | number.is_err();
    }
    refused
}

// Number 33.
#[tactic(auto, using(crate::proofs::Carried::carried_few, crate::proofs::Carried::carried_many))]
pub fn carried_number(ram: usize, carried: CarriedWrites) -> Result<(), Refusal>
    ensures { answer_of result ≡ carried_number ram (carried_of carried) }
{
    if CARRIED_MOST < carried.count || out_of_order(carried) | any_refused(ram, carried) {
        return Err(Refusal::WrongCarriedWrites);
    }
    Ok(())
}

// Numbers 21 to 23 of each write's set, in list order.
#[tactic(auto, using(crate::proofs::Order::first_met, crate::proofs::Carried::states_left, crate::proofs::Carried::states_end, crate::proofs::Carried::all_left))]
pub fn carried_states_number<'a>(arrays: Arrays<'a>, carried: CarriedWrites) -> Result<(), Refusal>
    requires { carried.count ≤ 4 }
    ensures { answer_of result ≡ carried_states_number_in arrays.entry.tags.now arrays.entry.valid.now arrays.entry.lru.now (carried_of carried) }
{
    for k in 0..carried.count as usize {
        states_number(arrays, carried.addresses[k], carried.lengths[k])?;
    }
    Ok(())
}
