// The cycles of a whole doubleword.
ghost use Rattle.std.specs.Prelude.{◌+◌, ◌*◌, ◌≤◌, drop, length};
ghost use Rattle.bus.specs.Bus.{run};
ghost use Rattle.bus.specs.Runs.{run_cycles};
ghost use Rattle.parts.specs.Made.{CyclesMade};
ghost use Rattle.parts.specs.Parts.{part_record};

use crate::lanes::Transfer;

impl Transfer {
    // The cycles of lanes 2 and 3. used: the answers that are used already; first: the place of the first record in the log. Answers
    // how many answers are used then.
    fn upper_half(
        self,
        answers: &[u8],
        log: &mut [u32],
        used: usize,
        first: usize,
        last: bool,
    ) -> usize
        requires { (used + 2 ≤ length answers.now) × (3 * (first + used + 2) ≤ length log.old) }
        ensures { CyclesMade (part_record self) (run_cycles last (drop used answers.now) (run 2 2)) first used log.old result log.new }
    {
        let next = used + 1;
        if answers[used] / 2 % 2 == 0 {
            self.put(log, first + used, 12, last);
            return next;
        }
        self.put(log, first + used, 4, false);
        self.put(log, first + next, 8, last);
        next + 1
    }

    // The cycles of all four lanes. last: no other doubleword is wanted after this one.
    pub fn whole_cycles(
        self,
        answers: &[u8],
        log: &mut [u32],
        used: usize,
        first: usize,
        last: bool,
    ) -> usize
        requires { (used + 4 ≤ length answers.now) × (3 * (first + used + 4) ≤ length log.old) }
        ensures { CyclesMade (part_record self) (run_cycles last (drop used answers.now) (run 0 4)) first used log.old result log.new }
    {
        let answer = answers[used];
        let next = used + 1;
        if answer / 2 % 4 == 0 {
            self.put(log, first + used, 15, last);
            return next;
        }
        if answer / 2 % 2 == 0 {
            self.put(log, first + used, 3, false);
            return self.upper_half(&answers[..], log, next, first, last);
        }
        self.put(log, first + used, 1, false);
        let then = next + 1;
        if answers[next] / 2 % 4 == 0 {
            self.put(log, first + next, 14, last);
            return then;
        }
        self.put(log, first + next, 2, false);
        self.upper_half(&answers[..], log, then, first, last)
    }
}
