// The numbers that turn a call away because of the input.
ghost use Rattle.std.specs.Prelude.{◌≡◌, not, ◌^◌, ltb, length};
ghost use Rattle.numbers.specs.Numbers.{answer_of};
ghost use Rattle.refusal.specs.Refusal.{any_above, argument_number, array_number, bad_ram, external_number, lent_number, memory_number, ram_number, value_number, view_input_number};

use bus::{ANSWERS, HIGHEST_ANSWER, LOG_WORDS, bad_width};
use numbers::Refusal;
use ways::DATA_SIZE;

// RAM has 16 to 16,777,216 bytes, a multiple of 16.
pub fn bad_ram(ram: usize) -> bool
    ensures { result ≡ bad_ram ram }
{
    (ram < 16) | (16777216 < ram) | (ram % 16 != 0)
}

// Number 1, of RAM's length.
pub fn ram_number(ram: usize) -> Result<(), Refusal>
    ensures { answer_of result ≡ ram_number ram }
{
    if bad_ram(ram) {
        return Err(Refusal::WrongRamLength);
    }
    Ok(())
}

// Number 3, of the data array's length.
pub fn array_number(data: usize) -> Result<(), Refusal>
    ensures { answer_of result ≡ array_number «data» }
{
    if data != DATA_SIZE {
        return Err(Refusal::WrongDataLength);
    }
    Ok(())
}

// Numbers 1 and 2, of the lengths of RAM and parity array.
#[tactic(auto, using(crate::proofs::Order::first_met, crate::proofs::Order::next_met), unfolding(crate::specs::Refusal::memory_number))]
pub fn memory_number(ram: usize, parity: usize) -> Result<(), Refusal>
    ensures { answer_of result ≡ memory_number ram parity }
{
    ram_number(ram)?;
    if parity != ram / 4 {
        return Err(Refusal::WrongParityLength);
    }
    Ok(())
}

// Numbers 1 to 3.
#[tactic(auto, using(crate::proofs::Order::first_met, crate::proofs::Order::next_met), unfolding(crate::specs::Refusal::lent_number))]
pub fn lent_number(ram: usize, parity: usize, data: usize) -> Result<(), Refusal>
    ensures { answer_of result ≡ lent_number ram parity «data» }
{
    memory_number(ram, parity)?;
    array_number(data)
}

#[tactic(auto, using(crate::proofs::Numbers::above_step, crate::proofs::Numbers::above_end))]
fn any_above(limit: u8, answers: &[u8]) -> bool
    ensures { result ≡ any_above limit answers.now }
{
    let mut above = false;
    for answer in answers {
        above = above | (limit < *answer);
    }
    above
}

// Numbers 4 to 7, of a read's or a write's own arguments. In line, as own_number is: as calls the two cost an access some three
// nanoseconds.
#[tactic(auto, unfolding(crate::specs::Refusal::argument_number))]
#[inline(always)]
pub fn argument_number(
    ram: usize,
    address: u32,
    width: u32,
    answers: &[u8],
    log: &[u32],
) -> Result<(), Refusal>
    ensures { answer_of result ≡ argument_number ram address width answers.now (length log.now) }
{
    if bad_width(width) {
        return Err(Refusal::WrongWidth);
    }
    if ram < address as usize + width as usize {
        return Err(Refusal::BeyondRam);
    }
    if answers.len() != ANSWERS || any_above(HIGHEST_ANSWER, answers) {
        return Err(Refusal::WrongAnswers);
    }
    if log.len() < LOG_WORDS {
        return Err(Refusal::ShortLog);
    }
    Ok(())
}

// Whether a value has more bytes than its width.
#[tactic(auto, using(crate::proofs::Numbers::nothing_above, crate::proofs::Numbers::fits))]
fn too_large(width: u32, value: u64) -> bool
    ensures { result ≡ not (ltb value (256 ^ width)) }
{
    if 7 < width {
        return false;
    }
    value >> (8 * width) != 0
}

// Number 8.
#[tactic(auto, unfolding(crate::specs::Refusal::value_number))]
pub fn value_number(width: u32, value: u64) -> Result<(), Refusal>
    ensures { answer_of result ≡ value_number width value }
{
    if too_large(width, value) {
        return Err(Refusal::LargeValue);
    }
    Ok(())
}

// Number 10, of an external write of so many bytes.
#[tactic(auto, unfolding(crate::specs::Refusal::external_number))]
pub fn external_number(ram: usize, address: u32, count: usize) -> Result<(), Refusal>
    ensures { answer_of result ≡ external_number ram address count }
{
    if (count == 0) | (16 < count) {
        return Err(Refusal::WrongExternalWrite);
    }
    let start = address as usize;
    if (16 < start % 16 + count) | (ram < start + count) {
        return Err(Refusal::WrongExternalWrite);
    }
    Ok(())
}

// Numbers 1, 3 and 5 of a view, of the lengths of RAM and data array.
#[tactic(auto, using(crate::proofs::Order::first_met, crate::proofs::Order::next_met), unfolding(crate::specs::Refusal::view_input_number))]
pub fn view_input_number(ram: usize, data: usize, address: u32) -> Result<(), Refusal>
    ensures { answer_of result ≡ view_input_number ram «data» address }
{
    ram_number(ram)?;
    array_number(data)?;
    if ram <= address as usize {
        return Err(Refusal::BeyondRam);
    }
    Ok(())
}
