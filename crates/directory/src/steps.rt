// The directory and its steps. Each step hands the changed directory back.
ghost use Rattle.std.specs.Prelude.{◌≡◌, ◌<◌};
ghost use Rattle.directory.specs.Outcome.{outcome};
ghost use Rattle.ways.specs.State.{state_number_in};
ghost use Rattle.ways.specs.Address.{set_count, way_count};
ghost use Rattle.directory.specs.Steps.{after_control, after_fill, after_flush, after_reset, after_snoop, after_use, control_call, first_reset, snoop_call, with_line, with_ranges};

use crate::in_place::{
    control_number, fill_in_place, flush_in_place, invalidate_in_place, line_in_place,
    reset_in_place, use_in_place,
};
use numbers::answer_of;
use ranges::{BOUNDS, Ranges};
use ways::{LINES, SETS, WAYS, lookup, set_of, state_number};

// The line of a set and a way is element set * WAYS + way of tags and valid. The layout is C's: a host holds one.
#[repr(C)]
#[derive(Clone, Copy)]
pub struct Directory {
    pub tags: [u32; LINES],
    pub valid: [bool; LINES],
    pub lru: [u8; SETS],
    pub cd: bool,
    pub nw: bool,
    pub ranges: Ranges,
}

// What a call by value answers: the directory, 0 where it was done or the number that turned it away, a read's value, the count
// of cycles.
#[repr(C)]
#[derive(Clone, Copy)]
pub struct Outcome {
    pub directory: Directory,
    pub number: u32,
    pub value: u64,
    pub cycles: u32,
}

// The number that the snoop call has of a set. Never in line: there, the compiler copies the directory once more in each snoop
// call by value.
#[inline(never)]
fn set_number<'a>(
    tags: &'a [u32; LINES],
    valid: &'a [bool; LINES],
    lru: &'a [u8; SETS],
    set: usize,
) -> u32
    requires { set < set_count }
    ensures { result ≡ state_number_in tags.now valid.now lru.now set }
{
    answer_of(state_number(tags, valid, lru, set))
}

impl Directory {
    // What the first reset gives: no range is set.
    pub fn first() -> Self
        ensures { result ≡ first_reset }
    {
        Directory {
            tags: [0; LINES],
            valid: [false; LINES],
            lru: [0; SETS],
            cd: true,
            nw: true,
            ranges: Ranges {
                count: 0,
                bounds: [0; BOUNDS],
            },
        }
    }

    // A later reset, which keeps the ranges.
    pub fn reset(mut self) -> Self
        ensures { result ≡ after_reset self }
    {
        reset_in_place(
            &mut self.tags,
            &mut self.valid,
            &mut self.lru,
            &mut self.cd,
            &mut self.nw,
        );
        self
    }

    // The plain step of the setting call: any ranges.
    pub fn with_ranges(mut self, ranges: Ranges) -> Self
        ensures { result ≡ with_ranges self ranges }
    {
        self.ranges = ranges;
        self
    }

    // A use of a way. Callers have the set of an address and a way that was found or chosen.
    pub fn used(mut self, set: usize, way: usize) -> Self
        requires { (set < set_count) × (way < way_count) }
        ensures { result ≡ after_use self set way }
    {
        use_in_place(&mut self.lru, set, way);
        self
    }

    // The plain step of a test write: any tag and either mark, and no use of the way.
    pub fn with_line(mut self, set: usize, way: usize, tag: u32, mark: bool) -> Self
        requires { (set < set_count) × (way < way_count) }
        ensures { result ≡ with_line self set way tag mark }
    {
        line_in_place(&mut self.tags, &mut self.valid, set, way, tag, mark);
        self
    }

    // A kept fill of a way, which is a use of it.
    pub fn filled(mut self, set: usize, way: usize, tag: u32) -> Self
        requires { (set < set_count) × (way < way_count) }
        ensures { result ≡ after_fill self set way tag }
    {
        let Directory {
            tags,
            valid,
            lru,
            ..
        } = &mut self;
        fill_in_place(tags, valid, lru, set, way, tag);
        self
    }

    // The plain step: sets any pair, also the one that the control call refuses.
    pub fn with_control(mut self, cd: bool, nw: bool) -> Self
        ensures { result ≡ after_control self cd nw }
    {
        self.cd = cd;
        self.nw = nw;
        self
    }

    pub fn flushed(mut self) -> Self
        ensures { result ≡ after_flush self }
    {
        flush_in_place(&mut self.valid, &mut self.lru);
        self
    }

    // The plain step: changes nothing with NW = 1, and checks no state.
    pub fn snooped(mut self, address: u32) -> Self
        ensures { result ≡ after_snoop self address }
    {
        let lent = &mut self;
        invalidate_in_place(&lent.tags, &mut lent.valid, lent.nw, address);
        self
    }

    // What a call without value and cycles answers: a number, with this directory.
    pub fn answered(self, number: u32) -> Outcome
        ensures { result ≡ outcome self number 0 0 }
    {
        Outcome {
            directory: self,
            number,
            value: 0,
            cycles: 0,
        }
    }

    // The control call, which refuses CD = 0 with NW = 1.
    pub fn control(self, cd: bool, nw: bool) -> Outcome
        ensures { result ≡ control_call self cd nw }
    {
        if let Err(refusal) = control_number(cd, nw) {
            return self.answered(refusal.number());
        }
        self.with_control(cd, nw).answered(0)
    }

    // The snoop call: the state of the address's set is checked first, whatever NW is. It stores the mark itself, and ends at one
    // place: lent to the call in place, or with two ends, the directory would be copied once more.
    pub fn snoop(mut self, address: u32) -> Outcome
        ensures { result ≡ snoop_call self address }
    {
        let number = set_number(&self.tags, &self.valid, &self.lru, set_of(address));
        if (number == 0) & !self.nw {
            if let Some(way) = lookup(&self.tags, &self.valid, address) {
                let line = set_of(address) * WAYS + way;
                self.valid[line] = false;
            }
        }
        Outcome {
            directory: self,
            number,
            value: 0,
            cycles: 0,
        }
    }
}
