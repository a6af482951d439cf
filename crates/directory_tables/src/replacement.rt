// Rows on the way that a fill replaces, for each LRU number.
ghost use Rattle.std.specs.Prelude.{◌<◌};

use crate::given::{SET, address, full_set, victim};
use directory::Directory;
use ways::WAYS;

pub fn lru_rows(rt: &impl Print) {
    for lru in 0..8 {
        lru_row(rt, lru);
    }
}

// The LRU number after a use of each way, and the victim.
fn lru_row(rt: &impl Print, lru: u8) {
    let _ = print!(rt; "lru\t{lru}");
    let d = full_set(lru);
    for way in 0..WAYS {
        let _ = print!(rt; "\t{}", d.used(SET, way).lru[SET]);
    }
    let _ = println!(rt; "\t{}", victim(&d));
}

pub fn fills_rows(rt: &impl Print) {
    for lru in 0..8 {
        fills_row(rt, lru);
    }
}

// The way that each of four fills takes, and the LRU number after them.
fn fills_row(rt: &impl Print, lru: u8) {
    let _ = print!(rt; "fills\t{lru}");
    let mut d = full_set(lru);
    for tag in 20..24 {
        d = fill(rt, d, address(tag, 0));
    }
    let _ = println!(rt; "\t{}", d.lru[SET]);
}

// Prints the way that the fill takes.
#[tactic(auto, using(ways::proofs::FourWays::victim_below))]
fn fill(rt: &impl Print, d: Directory, address: u32) -> Directory {
    let set = ways::set_of(address);
    let way = ways::victim(&d.valid, &d.lru, set);
    let _ = print!(rt; "\t{way}");
    d.filled(set, way, ways::tag_of(address))
}

// Every pair of an LRU number and a mask of valid marks.
pub fn victim_rows(rt: &impl Print) {
    for pair in 0..128 {
        victim_row(rt, pair / 16, pair % 16);
    }
}

// The victim where the bits of a mask are the valid marks.
fn victim_row(rt: &impl Print, lru: u8, mask: u8) {
    let mut d = full_set(lru);
    for way in 0..WAYS {
        d.valid[SET * WAYS + way] = (mask >> way) & 1 == 1;
    }
    let _ = println!(rt; "victim\t{lru}\t{mask}\t{}", victim(&d));
}
