// RAM with its parity array.
#![tactic(auto)]

mod parity;

pub use parity::{dp_bits, put_byte, store_bytes, store_lanes};
