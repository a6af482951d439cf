// The plant's own block table, loaded from text.
#![tactic(auto)]

ghost use Rattle.std.specs.Prelude.{◌≡◌, MatchResult};
ghost use Rattle.block_table.specs.Load.{entry_on, fault_number, load_call, loaded, table_number, table_of};

pub use board::BLOCKS;
use bus::HIGHEST_ANSWER;
use fields::{leading_number, next_line, scan_number};

// Why a text is no table.
#[derive(Clone, Copy)]
enum TableFault {
    WrongLine,
    WrongBlock,
    LargeAnswer,
}

impl TableFault {
    fn number(self) -> u32
        ensures { result ≡ fault_number self }
    {
        match self {
            TableFault::WrongLine => 34,
            TableFault::WrongBlock => 35,
            TableFault::LargeAnswer => 36,
        }
    }
}

// The table in force, and 0 or the number of the earliest bad line. The layout is C's: a host receives one.
#[repr(C)]
#[derive(Clone, Copy)]
pub struct LoadedTable {
    pub table: [u8; BLOCKS],
    pub number: u32,
}

// The answer that a line has for its block.
#[tactic(auto, using(crate::proofs::Entries::entry_unled, crate::proofs::Entries::entry_led), unfolding(crate::specs::Load::entry_with))]
fn entry_on(line: &[u8], block: usize) -> Result<u8, TableFault>
    ensures { result ≡ entry_on block line.now }
{
    let Some((named, next)) = leading_number(line) else {
        return Err(TableFault::WrongLine);
    };
    let Some(answer) = scan_number(&line[next..]) else {
        return Err(TableFault::WrongLine);
    };
    if named as usize != block {
        return Err(TableFault::WrongBlock);
    }
    if (HIGHEST_ANSWER as u64) < answer {
        return Err(TableFault::LargeAnswer);
    }
    Ok(answer as u8)
}

// Puts the answers on the lines of a text into a table, up to the earliest bad line.
#[tactic(auto, using(crate::proofs::Loading::load_begin, crate::proofs::Loading::load_missing, crate::proofs::Loading::load_refused, crate::proofs::Loading::load_next, crate::proofs::Loading::load_done, crate::proofs::Loading::load_seventeenth))]
fn scan_table(table: &mut [u8; BLOCKS], text: &[u8]) -> Result<(), TableFault>
    ensures { MatchResult result
        (λ _. (table_number text.now ≡ 0) × (table.new ≡ table_of text.now))
        (λ fault. table_number text.now ≡ fault_number fault) }
{
    let mut rest = text;
    for block in 0..BLOCKS {
        let Some((line, after)) = next_line(rest) else {
            return Err(TableFault::WrongLine);
        };
        table[block] = entry_on(line, block)?;
        rest = after;
    }
    if rest.is_empty() {
        Ok(())
    } else {
        Err(TableFault::WrongLine)
    }
}

// The table on the lines of a text, or else the given one: no line is in force before the last is checked.
#[tactic(auto, using(crate::proofs::Loading::call_loaded, crate::proofs::Loading::call_refused))]
pub fn load(given: &[u8; BLOCKS], text: &[u8]) -> LoadedTable
    ensures { result ≡ load_call given.now text.now }
{
    let mut table = [0u8; BLOCKS];
    match scan_table(&mut table, text) {
        Ok(()) => LoadedTable { table, number: 0 },
        Err(fault) => LoadedTable {
            table: *given,
            number: fault.number(),
        },
    }
}

// Loads into the table that is lent, and answers the number.
pub fn load_in_place(table: &mut [u8; BLOCKS], text: &[u8]) -> u32
    ensures { loaded table.new result ≡ load_call table.old text.now }
{
    let LoadedTable {
        table: in_force,
        number,
    } = load(table, text);
    *table = in_force;
    number
}
