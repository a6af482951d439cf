// Lines that store to the directory's fields or to the parity array without a call, so that a script can have a directory
// that no list of calls gives.
use crate::script::Fields;
use crate::unit::Unit;
use directory::{LINES, SETS};
use ranges::{BOUNDS, Ranges};

impl Unit {
    // A line of another letter is passed over.
    pub fn store(&mut self, letter: u8, fields: &mut Fields) {
        match letter {
            b'T' => self.store_tag(fields.number(), fields.number()),
            b'K' => self.store_mark(fields.number(), fields.number()),
            b'L' => self.store_lru(fields.number(), fields.number()),
            b'M' => self.store_mode(fields.number(), fields.number()),
            b'G' => self.store_ranges(fields),
            b'P' => self.flip_parity(fields.number(), fields.number()),
            _ => {}
        }
    }

    fn store_tag(&mut self, line: usize, tag: u32) {
        if line < LINES {
            self.directory.tags[line] = tag;
        }
    }

    fn store_mark(&mut self, line: usize, mark: bool) {
        if line < LINES {
            self.directory.valid[line] = mark;
        }
    }

    fn store_lru(&mut self, set: usize, lru: u8) {
        if set < SETS {
            self.directory.lru[set] = lru;
        }
    }

    // CD and NW, the pair that a control call refuses too.
    fn store_mode(&mut self, cd: bool, nw: bool) {
        self.directory.cd = cd;
        self.directory.nw = nw;
    }

    // The count of ranges, which may be any, and their words; those that the line does not give are 0.
    fn store_ranges(&mut self, fields: &mut Fields) {
        let count = fields.number();
        let mut bounds = [0; BOUNDS];
        fields.numbers(&mut bounds);
        self.directory.ranges = Ranges { count, bounds };
    }

    // Turns bits of a parity byte over.
    fn flip_parity(&mut self, place: usize, mask: u8) {
        if let Some(lanes) = self.parity[..self.lengths.parity].get_mut(place) {
            *lanes ^= mask;
        }
    }
}
