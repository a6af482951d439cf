// Adler-32: two sums modulo 65,521, of the bytes and of the first sum after each byte.
ghost use Rattle.std.specs.Prelude.{◌<◌};

use std::fmt;

const MODULUS: u32 = 65521;

#[derive(Clone, Copy)]
pub struct Adler {
    low: u32,
    high: u32,
    ghost low_reduced: { low < 65521 },
    ghost high_reduced: { high < 65521 },
}

impl Adler {
    pub fn start() -> Self {
        Adler { low: 1, high: 0 }
    }

    fn byte(self, byte: u8) -> Self {
        let low = (self.low + u32::from(byte)) % MODULUS;
        let high = (self.high + low) % MODULUS;
        Adler { low, high }
    }

    pub fn bytes(self, bytes: &[u8]) -> Self {
        bytes.iter().fold(self, |sum, byte| sum.byte(*byte))
    }

    // Four bytes, the lowest first.
    pub fn word(self, word: u32) -> Self {
        self.bytes(&word.to_le_bytes())
    }

    pub fn words(self, words: &[u32]) -> Self {
        words.iter().fold(self, |sum, word| sum.word(*word))
    }

    // A mark counts as a byte 0 or 1.
    pub fn mark(self, mark: bool) -> Self {
        self.byte(u8::from(mark))
    }

    pub fn marks(self, marks: &[bool]) -> Self {
        marks.iter().fold(self, |sum, mark| sum.mark(*mark))
    }
}

// Eight hexadecimal digits.
impl fmt::Display for Adler {
    fn fmt<W: fmt::Write>(&self, f: &mut fmt::Formatter<W>) -> fmt::Result {
        let high = self.high;
        let low = self.low;
        write!(f, "{high:04x}{low:04x}")
    }
}
