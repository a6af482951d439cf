// Rows on the number that refuses a set: one good set, with its faults put in.
ghost use Rattle.std.specs.Prelude.{◌<◌};
ghost use Rattle.ways.specs.Address.{way_count};

use crate::given::{SET, full_set, refusal, with_line};
use directory::Directory;
use std::fmt::Display;
use ways::WAYS;

// Another set, whose faults are not SET's.
const OTHER_SET: usize = 6;

// The largest tag of 21 bits.
const TAG_LIMIT: u32 = 2097151;

pub fn state_rows(rt: &impl Print) {
    state_row(rt, "good", &good());
    same_tag_rows(rt, "tag", true);
    same_tag_rows(rt, "stale", false);
    tag_limit_rows(rt);
    lru_limit_rows(rt);
    state_row(rt, "order_21", &order_21());
    state_row(rt, "order_22", &order_22());
    state_row(rt, "other_set", &other_set());
}

fn state_row(rt: &impl Print, label: impl Display + Drop, d: &Directory) {
    let _ = println!(rt; "state\t{label}\t{}", refusal(d));
}

fn good() -> Directory {
    full_set(3)
}

// Two ways with one tag, for each two. An upper way that is not valid is no fault.
fn same_tag_rows(rt: &impl Print, name: &str, valid: bool) {
    for lower in 0..WAYS {
        rows_with_tag_of(rt, name, lower, valid);
    }
}

fn rows_with_tag_of(rt: &impl Print, name: &str, lower: usize, valid: bool)
    requires { lower < way_count }
{
    let d = good();
    let tag = d.tags[SET * WAYS + lower];
    for upper in lower + 1..WAYS {
        state_row(
            rt,
            format_args!("{name}_{lower}_{upper}"),
            &with_line(d, SET, upper, tag, valid),
        );
    }
}

fn tag_limit_rows(rt: &impl Print) {
    for way in 0..WAYS {
        tag_row(rt, "limit", way, TAG_LIMIT, true);
        tag_row(rt, "above", way, TAG_LIMIT + 1, true);
        tag_row(rt, "above_invalid", way, TAG_LIMIT + 1, false);
    }
}

fn tag_row(rt: &impl Print, name: &str, way: usize, tag: u32, valid: bool)
    requires { way < way_count }
{
    state_row(
        rt,
        format_args!("{name}_{way}"),
        &with_line(good(), SET, way, tag, valid),
    );
}

fn lru_limit_rows(rt: &impl Print) {
    for lru in [7, 8] {
        state_row(rt, format_args!("lru_{lru}"), &full_set(lru));
    }
}

// All three faults: the lowest number is given.
fn order_21() -> Directory {
    let d = with_line(full_set(8), SET, 0, TAG_LIMIT + 1, true);
    with_line(d, SET, 1, TAG_LIMIT + 1, true)
}

// The faults 22 and 23.
fn order_22() -> Directory {
    with_line(full_set(8), SET, 3, TAG_LIMIT + 1, true)
}

fn other_set() -> Directory {
    let mut d = with_line(good(), OTHER_SET, 0, TAG_LIMIT + 1, true);
    d = with_line(d, OTHER_SET, 1, TAG_LIMIT + 1, true);
    d.lru[OTHER_SET] = 8;
    d
}
