// The cycles of some bytes of a doubleword.
ghost use Rattle.std.specs.Prelude.{true, ◌+◌, ◌*◌, ◌≤◌, ◌<◌, length};
ghost use Rattle.bus.specs.Bus.{run};
ghost use Rattle.bus.specs.Runs.{run_cycles};
ghost use Rattle.parts.specs.Made.{CyclesMade};
ghost use Rattle.parts.specs.Parts.{part_record};

use crate::lanes::Transfer;
use bus::moved_lanes;
use words::lanes_mask;

impl Transfer {
    // The cycles of so many bytes, from a lane on, whatever the answers are. first: the place of the first record in the log. Answers
    // how many cycles were made.
    pub fn sized_cycles(
        self,
        answers: &[u8],
        log: &mut [u32],
        lane: usize,
        count: usize,
        first: usize,
    ) -> usize
        requires { (0 < count) × (lane + count ≤ 4) × (4 ≤ length answers.now) × (3 * (first + 4) ≤ length log.old) }
        ensures { CyclesMade (part_record self) (run_cycles true answers.now (run lane count)) first 0 log.old result log.new × (0 < result) × (result ≤ 4) }
    {
        let mut lowest: u32 = 1 << lane;
        let mut wanted = lanes_mask(lane, count);
        let mut used: usize = 0;
        loop {
            let mask = moved_lanes(answers[used], lowest, wanted);
            let last = mask == wanted;
            self.put(log, first + used, mask, last);
            used += 1;
            if last {
                return used;
            }
            lowest += mask;
            wanted -= mask;
        }
    }
}
