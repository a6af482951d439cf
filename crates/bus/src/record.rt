// The records that cycles leave in the log.
ghost use Rattle.std.specs.Prelude.{◌≡◌, [], ◌∷◌, ℕ, ◌+◌, ◌*◌, ◌≤◌, length};
ghost use Rattle.words.specs.Bytes.{lanes_mask};
ghost use Rattle.bus.specs.Record.{flags_of, kind_flag, logged};

// What a cycle is made for. The number is its flag in a record.
#[derive(Clone, Copy, PartialEq, Eq, Debug)]
pub enum Kind {
    Plain = 0,
    Write = 16,
    Fill = 32,
}

impl From<Kind> for u32 {
    ghost from_gives = { λ kind flag. flag ≡ kind_flag kind };

    fn from(kind: Kind) -> u32 {
        kind as u32
    }
}

// The flags of a cycle. mask: the lanes that it moves; kind: the flag of what it is made for.
#[tactic(auto, using(crate::proofs::Flags::lanes_mask_lem, crate::proofs::Flags::flag_when), unfolding(crate::specs::Record::flags_of))]
pub fn flags_of(mask: u32, kind: u32, last: bool, wrong: bool) -> u32
    requires { (mask ≤ 15) × (kind ≤ 255) }
    ensures { (lane count : ℕ) → lane + count ≤ 4 → mask ≡ lanes_mask lane count → result ≡ flags_of lane count kind last wrong }
{
    mask + kind + 64 * u32::from(last) + 128 * u32::from(wrong)
}

// A record at its place in the log.
#[tactic(auto, using(crate::proofs::Flags::three_words), unfolding(crate::specs::Record::words_of))]
pub fn put_record(log: &mut [u32], place: usize, address: u32, flags: u32, word: u32)
    requires { 3 * place + 3 ≤ length log.old }
    ensures { log.new ≡ logged log.old place (record { address = address; flags = flags; word = word } ∷ []) }
{
    let i = 3 * place;
    log[i] = address;
    log[i + 1] = flags;
    log[i + 2] = word;
}
