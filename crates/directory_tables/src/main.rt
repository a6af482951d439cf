// Prints what the directory answers and becomes, as rows of fields parted by tabs: LRU numbers and victims after
// uses, chains of fills, victims by valid marks, control calls, snoops, refusals by state, and sums after a reset and
// a flush. The expected rows in ../stdout are the model's (oracle/tables.py, by oracle/expectations.py --write).
// A write that fails is passed over.
#![tactic(auto)]

mod calls;
mod given;
mod replacement;
mod state;
mod sums;

fn main(rt: HostRuntime) {
    replacement::lru_rows(&rt);
    replacement::fills_rows(&rt);
    replacement::victim_rows(&rt);
    calls::control_rows(&rt);
    calls::snoop_rows(&rt);
    state::state_rows(&rt);
    sums::reset_row(&rt);
    sums::flush_row(&rt);
}
