// Bytes moved between buffers, and as the numbers that they say.
#![tactic(auto)]

mod bytes;
mod lanes;

pub use bytes::{bytes_of, copy_bytes, copy_line, put_lanes, value_at, word_at, word_of};
pub use lanes::{lanes_mask, lanes_value, lanes_word, placed_lanes};
