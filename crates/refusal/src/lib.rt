// The numbers that turn a call away: of the input, of the ranges that the directory keeps, then of the state in every touched set.
#![tactic(auto)]

mod call;
mod input;
mod kept;
mod state;
mod writes;

pub use call::{read_carrying_number, read_number, write_number};
pub use input::{
    array_number, bad_ram, external_number, memory_number, ram_number, view_input_number,
};
pub use kept::ranges_number;
pub use state::{own_number, ranged_number, states_number};
