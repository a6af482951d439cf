// The read call that carries writes, by value: the call in place, on the directory that it is given.
ghost use Rattle.std.specs.Prelude.{◌≡◌};
ghost use Rattle.memory.specs.Parity.{memory};
ghost use Rattle.carried.specs.CarriedCode.{carried_of};
ghost use Rattle.refusal.specs.Call.{after, state};
ghost use Rattle.access.specs.Access.{read_call};

use crate::in_place::read_carrying_in_place;
use carried::CarriedWrites;
use directory::{Directory, Outcome};
use ranges::Kept;

pub fn read_carrying(
    mut given: Directory,
    ram: &mut [u8],
    parity: &mut [u8],
    data: &mut [u8],
    address: u32,
    width: u32,
    pcd: bool,
    answers: &[u8],
    log: &mut [u32],
    carried: CarriedWrites,
) -> Outcome
    ensures { after result (memory ram.new parity.new) «data».new log.new
        ≡ read_call (state given (memory ram.old parity.old) «data».old) address width pcd answers.now log.old (carried_of carried) }
{
    let lent = &mut given;
    let kept = Kept {
        count: lent.ranges.count,
        bounds: &lent.ranges.bounds,
    };
    let done = read_carrying_in_place(
        &mut lent.tags,
        &mut lent.valid,
        &mut lent.lru,
        lent.cd,
        lent.nw,
        kept,
        ram,
        parity,
        data,
        address,
        width,
        pcd,
        answers,
        log,
        carried,
    );
    done.with(given)
}
