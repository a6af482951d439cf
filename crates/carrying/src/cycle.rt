// One cycle of a read that carries writes.
ghost use Rattle.std.specs.Prelude.{◌≡◌, ◌+◌, ◌*◌, ◌%◌, ◌≤◌, ◌<◌, length};
ghost use Rattle.memory.specs.Parity.{memory};
ghost use Rattle.carried.specs.CarriedCode.{CarriedNeeds};
ghost use Rattle.bus.specs.Bus.{run, size_of};
ghost use Rattle.bus.specs.Record.{kind_flag};
ghost use Rattle.carrying.specs.CarryingCode.{LandsDue, MovesBytes, none_brought};

use bus::Kind;
use carried::{CarriedWrites, any_in_line, due_end, land};
use parts::Transfer;
use words::{copy_bytes, lanes_mask};

// How far the cycles of a doubleword have come: how many were made, how many writes have landed, and whether one landed in the line after
// the first cycle.
#[derive(Clone, Copy)]
pub struct Brought {
    pub used: usize,
    pub landed: usize,
    pub spoiled: bool,
}

impl Brought {
    // Before the first cycle of a doubleword.
    pub fn begin(landed: usize) -> Brought
        ensures { result ≡ none_brought landed }
    {
        Brought {
            used: 0,
            landed,
            spoiled: false,
        }
    }

    // What is due before the next cycle lands. first: the number of the doubleword's first cycle.
    pub fn land_due(
        self,
        ram: &mut [u8],
        parity: &mut [u8],
        carried: CarriedWrites,
        line: u32,
        first: usize,
    ) -> Brought
        requires { (self.landed ≤ carried.count) × (first + self.used ≤ 64) × CarriedNeeds carried (length ram.old) (length parity.old) }
        ensures { LandsDue carried line (first + self.used) self result (memory ram.old parity.old) (memory ram.new parity.new) }
    {
        let from = self.landed;
        let to = due_end(carried, from, first + self.used + 1);
        if to == from {
            return self;
        }
        land(carried, from, to, ram, parity);
        let hit = any_in_line(carried, from, to, line);
        let spoiled = self.spoiled | ((0 < self.used) & hit);
        Brought {
            landed: to,
            spoiled,
            ..self
        }
    }

    // A cycle that moves so many bytes of a doubleword of a line, from an offset on: its record, and the bytes in the line buffer.
    // place: the place of the record in the log.
    pub fn move_bytes(
        self,
        ram: &[u8],
        parity: &[u8],
        buffer: &mut [u8],
        log: &mut [u32],
        line: u32,
        from: usize,
        count: usize,
        kind: Kind,
        last: bool,
        place: usize,
    ) -> Brought
        requires { (line % 16 ≡ 0) × (line + 16 ≤ length ram.now) × (length ram.now ≤ 16777216) × (length ram.now ≤ 4 * length parity.now) × (0 < count) × (from % 4 + count ≤ 4) × (from < 16) × (3 * place + 3 ≤ length log.old) × (self.used < 64) × (length buffer.old ≡ 16) }
        ensures { MovesBytes (kind_flag kind) (memory ram.now parity.now) line from count last place self result buffer.old buffer.new log.old log.new }
    {
        let start = line as usize;
        let doubleword = Transfer::read(&ram[..], &parity[..], start + from / 4 * 4, kind);
        doubleword.put(log, place, lanes_mask(from % 4, count), last);
        copy_bytes(&ram[..], start + from, buffer, from, count);
        Brought {
            used: self.used + 1,
            ..self
        }
    }
}

// How many bytes a cycle moves of so many still wanted, from an offset of a line on. A test of the answer leaves it out of what the
// next offset waits for.
pub fn moved_count(answer: u8, from: usize, left: usize) -> usize
    requires { 0 < left }
    ensures { (result ≡ size_of answer (run from left)) × (0 < result) × (result ≤ left) }
{
    if answer / 2 % 2 == 1 {
        return 1;
    }
    let room = if answer / 4 % 2 == 1 {
        2 - from % 2
    } else {
        4 - from % 4
    };
    left.min(room)
}
