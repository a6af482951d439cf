// What a host compares with its header's UNIT486_VERSION before it makes any other call. Another layout or another meaning of
// what is lent, given or answered is another version, and so is a new call.
ghost use Rattle.std.specs.Prelude.{◌≡◌};

#[unsafe(no_mangle)]
pub extern "C" fn unit486_version() -> u32
    ensures { result ≡ 11 }
{
    11
}
