// The unit as a host calls it: what a C program links (host/include/unit486.h). Each runs a call of a crate below under an
// exported name, and its contract cites the same definition.
#![tactic(auto)]

mod answers;
mod by_value;
mod in_place;
mod setting;
mod test_calls;
mod thin;
mod version;
mod view;

pub use answers::{
    unit486_block_answers, unit486_board_answers, unit486_load_table, unit486_load_table_by_value,
};
pub use by_value::{unit486_control_by_value, unit486_reset_by_value};
pub use in_place::{
    unit486_control_in_place, unit486_external_write_in_place, unit486_flush_in_place,
    unit486_read_carrying_in_place, unit486_read_in_place, unit486_reset_in_place,
    unit486_snoop_in_place, unit486_write_in_place,
};
pub use setting::{unit486_set_ranges_by_value, unit486_set_ranges_in_place};
pub use test_calls::{unit486_test_read_in_place, unit486_test_write_in_place};
pub use thin::unit486_drop_line;
pub use version::unit486_version;
pub use view::{unit486_view_in_place, unit486_view_number_in_place};
