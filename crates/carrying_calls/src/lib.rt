// The read call that carries writes, by value and in place. RAM, parity array, data array, answers and log are lent by the caller.
#![tactic(auto)]

mod by_value;
mod in_place;

pub use by_value::read_carrying;
pub use in_place::read_carrying_in_place;
