// The event program as a call: what a C program links to run event lines (host/include/unit486.h). A library of its own, so that in
// `host` what a call runs is called from one place and a compiler puts it in line.
#![tactic(auto)]

mod running;

pub use running::unit486_run;
