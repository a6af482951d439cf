// The one call on a directory by `&mut`.
ghost use Rattle.std.specs.Prelude.{◌≡◌};
ghost use Rattle.directory.specs.Outcome.{outcome};
ghost use Rattle.directory.specs.Steps.{snoop_call};

use directory::Directory;

// The thin call: drops one snooped line of the directory in the caller's hands, and answers the snoop's number.
#[unsafe(no_mangle)]
pub extern "C" fn unit486_drop_line(directory: &mut Directory, address: u32) -> u32
    ensures { outcome directory.new result 0 0 ≡ snoop_call directory.old address }
{
    let given = *directory;
    let result = given.snoop(address);
    *directory = result.directory;
    result.number
}
