// The write call by value: the call in place, on the directory that it is given.
ghost use Rattle.std.specs.Prelude.{◌≡◌};
ghost use Rattle.memory.specs.Parity.{memory};
ghost use Rattle.refusal.specs.Call.{after, state};
ghost use Rattle.access.specs.Access.{write_call};

use crate::in_place::write_in_place;
use directory::{Directory, Outcome};
use ranges::Kept;

pub fn write(
    mut given: Directory,
    ram: &mut [u8],
    parity: &mut [u8],
    data: &mut [u8],
    address: u32,
    width: u32,
    value: u64,
    answers: &[u8],
    log: &mut [u32],
) -> Outcome
    ensures { after result (memory ram.new parity.new) «data».new log.new
        ≡ write_call (state given (memory ram.old parity.old) «data».old) address width value answers.now log.old }
{
    let lent = &mut given;
    let kept = Kept {
        count: lent.ranges.count,
        bounds: &lent.ranges.bounds,
    };
    let done = write_in_place(
        &lent.tags,
        &lent.valid,
        &mut lent.lru,
        lent.cd,
        lent.nw,
        kept,
        ram,
        parity,
        data,
        address,
        width,
        value,
        answers,
        log,
    );
    done.with(given)
}
