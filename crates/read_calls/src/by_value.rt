// The read call by value: the call in place, on the directory that it is given.
ghost use Rattle.std.specs.Prelude.{◌≡◌, []};
ghost use Rattle.memory.specs.Parity.{memory};
ghost use Rattle.refusal.specs.Call.{after, state};
ghost use Rattle.access.specs.Access.{read_call};

use crate::in_place::read_in_place;
use directory::{Directory, Outcome};
use ranges::Kept;

pub fn read(
    mut given: Directory,
    ram: &[u8],
    parity: &[u8],
    data: &mut [u8],
    address: u32,
    width: u32,
    pcd: bool,
    answers: &[u8],
    log: &mut [u32],
) -> Outcome
    ensures { after result (memory ram.now parity.now) «data».new log.new
        ≡ read_call (state given (memory ram.now parity.now) «data».old) address width pcd answers.now log.old [] }
{
    let lent = &mut given;
    let kept = Kept {
        count: lent.ranges.count,
        bounds: &lent.ranges.bounds,
    };
    let done = read_in_place(
        &mut lent.tags,
        &mut lent.valid,
        &mut lent.lru,
        lent.cd,
        kept,
        ram,
        parity,
        data,
        address,
        width,
        pcd,
        answers,
        log,
    );
    done.with(given)
}
