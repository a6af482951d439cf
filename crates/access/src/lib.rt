// The rules of reads and writes in specs/, and what a call in place answers.
#![tactic(auto)]

ghost use Rattle.std.specs.Prelude.{◌≡◌};
ghost use Rattle.directory.specs.Outcome.{outcome};

use directory::{Directory, Outcome};

// What a call answers, apart from the directory: 0 where it was done or the number that refused it, the count of cycles, a read's
// value. In this order it has no gap and is handed back in two registers.
#[repr(C)]
#[derive(Clone, Copy)]
pub struct CallResult {
    pub number: u32,
    pub cycles: u32,
    pub value: u64,
}

// What a call without value and cycles answers.
pub fn number_only(number: u32) -> CallResult
    ensures { result ≡ record { number = number; cycles = 0; value = 0 } }
{
    CallResult {
        number,
        cycles: 0,
        value: 0,
    }
}

impl CallResult {
    // The same with the directory, as a call by value answers.
    pub fn with(self, directory: Directory) -> Outcome
        ensures { result ≡ outcome directory self.number self.value self.cycles }
    {
        Outcome {
            directory,
            number: self.number,
            value: self.value,
            cycles: self.cycles,
        }
    }
}
