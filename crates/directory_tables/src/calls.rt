// Rows on the control call and the snoop call, for each pair of CD and NW.
use crate::given::{MODES, SET, address, is_held, with_line};
use directory::Directory;

pub fn control_rows(rt: &impl Print) {
    for (cd, nw) in MODES {
        control_row(rt, cd, nw);
    }
}

// The call's number, and CD and NW after it.
fn control_row(rt: &impl Print, cd: bool, nw: bool) {
    let done = Directory::first().control(cd, nw);
    let _ = println!(rt;
        "control\t{}\t{}\t{}\t{}\t{}",
        u8::from(cd),
        u8::from(nw),
        done.number,
        u8::from(done.directory.cd),
        u8::from(done.directory.nw)
    );
}

pub fn snoop_rows(rt: &impl Print) {
    for (cd, nw) in MODES {
        snoop_row(rt, cd, nw);
    }
}

// The call's number, and whether the snooped line and another of its set are still held.
fn snoop_row(rt: &impl Print, cd: bool, nw: bool) {
    let done = two_lines(cd, nw).snoop(address(7, 11));
    let snooped = is_held(&done.directory, address(7, 11));
    let other = is_held(&done.directory, address(9, 0));
    let _ = println!(rt;
        "snoop\t{}\t{}\t{}\t{}\t{}",
        u8::from(cd),
        u8::from(nw),
        done.number,
        u8::from(snooped),
        u8::from(other)
    );
}

// The pair CD = 0, NW = 1, which a control call refuses, is wanted here too.
fn two_lines(cd: bool, nw: bool) -> Directory {
    let mut d = Directory::first().with_control(cd, nw);
    d = with_line(d, SET, 1, 7, true);
    d = with_line(d, SET, 2, 9, true);
    d.lru[SET] = 3;
    d
}
