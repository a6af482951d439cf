// A doubleword whose lanes cycles move, and the record of one cycle.
ghost use Rattle.std.specs.Prelude.{◌≡◌, [], ◌∷◌, ℕ, ◌+◌, ◌*◌, ◌/◌, ◌≤◌, ◌<◌, length};
ghost use Rattle.words.specs.Bytes.{lanes_mask};
ghost use Rattle.bus.specs.Record.{kind_flag, logged};
ghost use Rattle.parts.specs.Parts.{due_bits, moving, part_record, read_transfer, unchecked_transfer};

use bus::{Kind, flags_of, put_record};
use memory::dp_bits;
use words::{lanes_word, word_at};

// The DP bits that the bytes of a doubleword ask for.
pub fn due_bits(ram: &[u8], base: usize) -> u8
    requires { base + 4 ≤ length ram.now }
    ensures { result ≡ due_bits ram.now base }
{
    dp_bits(ram[base], ram[base + 1], ram[base + 2], ram[base + 3])
}

// A doubleword on the bus: its address, what it says, its parity byte, the DP bits that its bytes ask for, and the flag of what its
// cycles are made for.
#[derive(Clone, Copy)]
pub struct Transfer {
    pub base: u32,
    pub word: u32,
    pub held: u8,
    pub due: u8,
    pub kind: u8,
}

impl Transfer {
    // A doubleword of RAM.
    pub fn read(ram: &[u8], parity: &[u8], base: usize, kind: Kind) -> Transfer
        requires { (base + 4 ≤ length ram.now) × (base / 4 < length parity.now) × (base < 4294967296) }
        ensures { result ≡ read_transfer ram.now parity.now base (kind_flag kind) }
    {
        Transfer {
            base: base as u32,
            word: word_at(&ram[..], base),
            held: parity[base / 4],
            due: due_bits(&ram[..], base),
            kind: kind as u8,
        }
    }

    // A doubleword of which no parity is checked.
    pub fn unchecked(base: u32, word: u32, kind: Kind) -> Transfer
        ensures { result ≡ unchecked_transfer base word (kind_flag kind) }
    {
        Transfer {
            base,
            word,
            held: 0,
            due: 0,
            kind: kind as u8,
        }
    }

    // The record of a cycle that moves some lanes. mask: these lanes.
    pub fn put(self, log: &mut [u32], place: usize, mask: u32, last: bool)
        requires { (mask ≤ 15) × (3 * place + 3 ≤ length log.old) }
        ensures { (lane count : ℕ) → lane + count ≤ 4 → mask ≡ lanes_mask lane count
            → log.new ≡ logged log.old place (part_record self (moving lane count last) ∷ []) }
    {
        let bits = mask as u8;
        let wrong = self.held & bits != self.due & bits;
        let flags = flags_of(mask, u32::from(self.kind), last, wrong);
        put_record(log, place, self.base, flags, lanes_word(self.word, mask));
    }
}
