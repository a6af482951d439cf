// The calls that take and give a whole directory.
ghost use Rattle.std.specs.Prelude.{◌≡◌};
ghost use Rattle.directory.specs.Steps.{control_call, reset_call};

use directory::{Directory, Outcome};

#[unsafe(no_mangle)]
pub extern "C" fn unit486_reset_by_value(given: Directory) -> Outcome
    ensures { result ≡ reset_call given }
{
    given.reset().answered(0)
}

#[unsafe(no_mangle)]
pub extern "C" fn unit486_control_by_value(given: Directory, cd: bool, nw: bool) -> Outcome
    ensures { result ≡ control_call given cd nw }
{
    given.control(cd, nw)
}
