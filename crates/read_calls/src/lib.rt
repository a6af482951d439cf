// The read call, by value and in place. RAM, parity array, data array, answers and log are lent by the caller.
#![tactic(auto)]

mod by_value;
mod in_place;

pub use by_value::read;
pub use in_place::read_in_place;
