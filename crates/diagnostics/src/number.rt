// The numbers that refuse test calls.
ghost use Rattle.std.specs.Prelude.{◌≡◌};
ghost use Rattle.numbers.specs.Numbers.{answer_of};
ghost use Rattle.diagnostics.specs.Diagnostics.{test_number, test_read_number, test_write_number};

use numbers::Refusal;
use refusal::array_number;
use ways::{SETS, WAYS};

// A tag has 21 bits.
const HIGHEST_TAG: u32 = 2_097_151;

// 3 for the data array's length, 31 where CD = 0, 32 where the line is outside the sets or the tag too large.
#[tactic(auto, using(refusal::proofs::Order::first_met, refusal::proofs::Order::next_met), unfolding(crate::specs::Diagnostics::test_number))]
fn test_number(data: usize, cd: bool, outside: bool) -> Result<(), Refusal>
    ensures { answer_of result ≡ test_number «data» cd outside }
{
    array_number(data)?;
    if !cd {
        return Err(Refusal::TestWithCdClear);
    }
    if outside {
        return Err(Refusal::WrongTestLine);
    }
    Ok(())
}

pub fn test_write_number(data: usize, cd: bool, set: u32, way: u32, tag: u32) -> Result<(), Refusal>
    ensures { answer_of result ≡ test_write_number «data» cd set way tag }
{
    test_number(
        data,
        cd,
        (SETS <= set as usize) | (WAYS <= way as usize) | (HIGHEST_TAG < tag),
    )
}

pub fn test_read_number(data: usize, cd: bool, set: u32, way: u32) -> Result<(), Refusal>
    ensures { answer_of result ≡ test_read_number «data» cd set way }
{
    test_number(data, cd, (SETS <= set as usize) | (WAYS <= way as usize))
}
