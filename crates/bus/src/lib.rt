// The bus: the widths of an access, the sizing of cycles, the burst order, and the records that cycles leave. It knows nothing of the
// directory.
#![tactic(auto)]

mod burst;
mod cycle;
mod record;
mod sizes;

pub use burst::burst_order;
pub use cycle::moved_lanes;
pub use record::{Kind, flags_of, put_record};
pub use sizes::{ANSWERS, GROUP_SIZE, GROUPS, HIGHEST_ANSWER, LOG_WORDS, bad_width};
