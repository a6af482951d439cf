// The cycles of a miss, with the writes that land before each.
ghost use Rattle.std.specs.Prelude.{◌≡◌, [], ◌∷◌, ◌+◌, ◌*◌, ◌%◌, ◌≤◌, ◌<◌, length, replicate};
ghost use Rattle.memory.specs.Parity.{memory};
ghost use Rattle.bus.specs.Bus.{burst, cycles_of, run};
ghost use Rattle.bus.specs.Groups.{group_size};
ghost use Rattle.bus.specs.Record.{fill_kind, kind_flag, plain_kind};
ghost use Rattle.carrying.specs.CarryingCode.{CyclesBrought, MissNeeds, TurnNeeds, none_brought, turns};

use crate::cycle::Brought;
use bus::{Kind, burst_order};
use carried::CarriedWrites;

// The cycles of some turns, each of so many bytes from the offset that order names for it.
fn turn_cycles(
    ram: &mut [u8],
    parity: &mut [u8],
    answers: &[u8],
    buffer: &mut [u8],
    log: &mut [u32],
    carried: CarriedWrites,
    line: u32,
    order: &[usize],
    count: usize,
    kind: Kind,
    first: usize,
    landed: usize,
) -> Brought
    requires { MissNeeds carried line first landed (length ram.old) (length parity.old) (length answers.now) (length log.old) × (buffer.old ≡ replicate 16 0) × TurnNeeds order.now count }
    ensures { CyclesBrought (kind_flag kind) line first carried landed (memory ram.old parity.old) (cycles_of answers.now (turns order.now count)) (none_brought landed) result (memory ram.new parity.new) (replicate 16 0) buffer.new log.old log.new
        × (length order.now ≤ result.used) × (result.used ≤ group_size) }
{
    let mut now = Brought::begin(landed);
    for (turn, from) in order.iter().enumerate() {
        now = now.run_cycles(
            ram,
            parity,
            &answers[..],
            buffer,
            log,
            carried,
            line,
            *from,
            count,
            kind,
            turn + 1 == order.len(),
            first,
        );
    }
    now
}

// The wanted bytes only: so many of a doubleword, from an offset of a line on.
pub fn plain_miss(
    ram: &mut [u8],
    parity: &mut [u8],
    answers: &[u8],
    buffer: &mut [u8],
    log: &mut [u32],
    carried: CarriedWrites,
    line: u32,
    from: usize,
    count: usize,
    first: usize,
    landed: usize,
) -> Brought
    requires { MissNeeds carried line first landed (length ram.old) (length parity.old) (length answers.now) (length log.old) × (buffer.old ≡ replicate 16 0) × (0 < count) × (from % 4 + count ≤ 4) × (from < 16) }
    ensures { CyclesBrought plain_kind line first carried landed (memory ram.old parity.old) (cycles_of answers.now (run from count ∷ [])) (none_brought landed) result (memory ram.new parity.new) (replicate 16 0) buffer.new log.old log.new × (result.used ≤ group_size) }
{
    let order = [from];
    turn_cycles(
        ram,
        parity,
        &answers[..],
        buffer,
        log,
        carried,
        line,
        &order[..],
        count,
        Kind::Plain,
        first,
        landed,
    )
}

// A fill: all four doublewords of the line, in burst order.
pub fn fill_miss(
    ram: &mut [u8],
    parity: &mut [u8],
    answers: &[u8],
    buffer: &mut [u8],
    log: &mut [u32],
    carried: CarriedWrites,
    line: u32,
    start: usize,
    first: usize,
    landed: usize,
) -> Brought
    requires { MissNeeds carried line first landed (length ram.old) (length parity.old) (length answers.now) (length log.old) × (buffer.old ≡ replicate 16 0) × (start < 4) }
    ensures { CyclesBrought fill_kind line first carried landed (memory ram.old parity.old) (cycles_of answers.now (burst start)) (none_brought landed) result (memory ram.new parity.new) (replicate 16 0) buffer.new log.old log.new × (0 < result.used) × (result.used ≤ group_size) }
{
    let order = burst_order(start * 4);
    turn_cycles(
        ram,
        parity,
        &answers[..],
        buffer,
        log,
        carried,
        line,
        &order[..],
        4,
        Kind::Fill,
        first,
        landed,
    )
}
