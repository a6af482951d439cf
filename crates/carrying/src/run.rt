// The cycles of some bytes of a doubleword, with the writes that land before each.
ghost use Rattle.std.specs.Prelude.{◌≡◌, ℕ, ◌+◌, ◌≤◌, drop, length};
ghost use Rattle.memory.specs.Parity.{Memory, memory};
ghost use Rattle.carried.specs.CarriedCode.{CarriedNeeds};
ghost use Rattle.bus.specs.Bus.{run};
ghost use Rattle.bus.specs.Record.{kind_flag};
ghost use Rattle.bus.specs.Runs.{run_cycles};
ghost use Rattle.carrying.specs.CarryingCode.{CyclesBrought, LandedTo, RunNeeds};

use crate::cycle::{Brought, moved_count};
use bus::Kind;
use carried::CarriedWrites;

impl Brought {
    // The cycles of so many bytes, from an offset of a line on. last: nothing else is wanted after them; first: the
    // number of the doubleword's first cycle.
    pub fn run_cycles(
        self,
        ram: &mut [u8],
        parity: &mut [u8],
        answers: &[u8],
        buffer: &mut [u8],
        log: &mut [u32],
        carried: CarriedWrites,
        line: u32,
        from: usize,
        count: usize,
        kind: Kind,
        last: bool,
        first: usize,
    ) -> Brought
        requires { RunNeeds line from count first self.used (length ram.old) (length parity.old) (length answers.now) (length log.old)
            × CarriedNeeds carried (length ram.old) (length parity.old) × (self.landed ≤ carried.count) × (length buffer.old ≡ 16) }
        ensures { ((place : ℕ) (m₀ : Memory) → LandedTo carried place m₀ (first + self.used) (memory ram.old parity.old) self.landed
            → CyclesBrought (kind_flag kind) line first carried place m₀ (run_cycles last (drop self.used answers.now) (run from count)) self result (memory ram.new parity.new) buffer.old buffer.new log.old log.new)
            × (self.used ≤ result.used) × (result.used ≤ self.used + count) × (result.landed ≤ carried.count) }
    {
        let mut now = self;
        let mut next = from;
        let mut left = count;
        loop {
            now = now.land_due(ram, parity, carried, line, first);
            let used = now.used;
            let size = moved_count(answers[used], next, left);
            let done = size == left;
            now = now.move_bytes(
                &ram[..],
                &parity[..],
                buffer,
                log,
                line,
                next,
                size,
                kind,
                done & last,
                first + used,
            );
            if done {
                return now;
            }
            next += size;
            left -= size;
        }
    }
}
