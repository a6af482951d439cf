// Fields of a line, and the bytes of an external write.
ghost use Rattle.std.specs.Prelude.{◌≡◌, ◌==◌, ◌<◌, ◌≤◌, [], ◌∷◌, length, position, IfSome, MatchOption};
ghost use Rattle.std.proofs.lemmas.List.Edits.{sets};
ghost use Rattle.fields.specs.Fields.{hex_of, is_hex, is_pairs, lines_of, pair_bytes};

// The place of the first separator.
pub fn place_of(text: &[u8], separator: u8) -> Option<usize>
    ensures { result ≡ position (λ byte. byte == separator) text.now }
{
    text.iter().position(|byte| *byte == separator)
}

// The first line of a text and the text after it, if there is a line.
#[tactic(auto, using(crate::proofs::Parts::line_last, crate::proofs::Parts::line_first, crate::proofs::Parts::no_lines))]
pub fn next_line(text: &[u8]) -> Option<(&[u8], &[u8])>
    ensures lines { MatchOption result (lines_of text.now ≡ []) (λ r. lines_of text.now ≡ r.0.now ∷ lines_of r.1.now) }
    ensures shorter { IfSome result (λ r. length r.1.now < length text.now) }
{
    if text.is_empty() {
        return None;
    }
    match place_of(text, b'\n') {
        Some(end) => Some((&text[..end], &text[end + 1..])),
        None => Some((text, &[])),
    }
}

fn is_hex(c: u8) -> bool
    ensures { result ≡ is_hex c }
{
    matches!(c, b'0'..=b'9' | b'A'..=b'F')
}

// An even number of uppercase hex digits. Each byte is looked at, so that no branch waits for the one before it.
#[tactic(auto, using(crate::proofs::Pairs::all_and, crate::proofs::Pairs::all_and_end), unfolding(crate::specs::Fields::is_pairs))]
pub fn is_pairs(field: &[u8]) -> bool
    ensures { result ≡ is_pairs field.now }
{
    let mut well_formed = field.len() % 2 == 0;
    for c in field {
        well_formed = well_formed & is_hex(*c);
    }
    well_formed
}

#[tactic(auto, unfolding(crate::specs::Fields::hex_of))]
fn hex_of(c: u8) -> u8
    ensures { (result ≡ hex_of c) × (result ≤ 15) }
{
    match c {
        b'0'..=b'9' => c - b'0',
        b'A'..=b'F' => c - b'A' + 10,
        _ => 0,
    }
}

// Puts the bytes that the pairs say at the start of bytes, and answers how many there are.
pub fn pair_bytes(field: &[u8], bytes: &mut [u8]) -> usize
    requires { length field.now ≤ length bytes.old }
    ensures { (result ≡ length (pair_bytes field.now)) × (bytes.new ≡ sets bytes.old 0 (pair_bytes field.now)) }
{
    let count = field.len() / 2;
    for k in 0..count {
        bytes[k] = hex_of(field[2 * k]) * 16 + hex_of(field[2 * k + 1]);
    }
    count
}
