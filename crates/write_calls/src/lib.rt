// The write call, by value and in place. RAM, parity array, data array, answers and log are lent by the caller.
#![tactic(auto)]

mod by_value;
mod in_place;

pub use by_value::write;
pub use in_place::write_in_place;
