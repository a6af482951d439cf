// Numbers and fields of a line as text.
#![tactic(auto)]

mod fields;
mod numbers;

pub use fields::{is_pairs, next_line, pair_bytes, place_of};
pub use numbers::{leading_number, scan_bit, scan_number, scan_value};
