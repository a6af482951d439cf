// The directory of the 486's cache: which line each way of each set holds, which way is replaced next, and the steps that
// change it. It knows nothing of RAM, of the data array or of bus cycles.
#![tactic(auto)]

mod in_place;
mod steps;

pub use in_place::{
    control_in_place, fill_in_place, flush_in_place, invalidate_in_place, line_in_place,
    reset_in_place, snoop_in_place, use_in_place,
};
pub use steps::{Directory, Outcome};
pub use ways::{LINES, SETS};
