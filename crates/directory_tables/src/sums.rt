// Rows on a whole directory: the number of valid lines, the sums of tags and of LRU numbers, CD and NW.
use crate::given::{full_set, with_line};
use directory::Directory;
use ways::{LINES, SETS};

pub fn reset_row(rt: &impl Print) {
    sums_row(rt, "reset", &Directory::first());
}

// Lines of two sets are valid before the flush.
pub fn flush_row(rt: &impl Print) {
    let mut d = full_set(3).with_control(false, false);
    d = with_line(d, 127, 3, 99, true);
    d.lru[127] = 5;
    sums_row(rt, "flush", &d.flushed());
}

fn sums_row(rt: &impl Print, label: &str, d: &Directory) {
    let valid_lines = d.valid.iter().filter(|mark| **mark).count();
    let _ = println!(rt;
        "{label}\t{valid_lines}\t{}\t{}\t{}\t{}",
        tag_sum(&d.tags),
        lru_sum(&d.lru),
        u8::from(d.cd),
        u8::from(d.nw)
    );
}

fn tag_sum(tags: &[u32; LINES]) -> u64 {
    tags.iter().map(|tag| u64::from(*tag)).sum()
}

fn lru_sum(lru: &[u8; SETS]) -> u64 {
    lru.iter().map(|number| u64::from(*number)).sum()
}
