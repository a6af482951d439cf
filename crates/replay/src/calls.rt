// Lines on a unit: calls, views and test calls, each with its row, and the board's answers.
ghost use Rattle.std.specs.Prelude.{◌≤◌, length};

use crate::digest::Adler;
use crate::script::Fields;
use crate::unit::Unit;
use board::ANSWERS;
use carried::CarriedWrites;
use directory::Outcome;
use numbers::answer_of;
use ranges::Kept;
use ways::Arrays;

// Room for the answers or bytes that a line gives.
const ROOM: usize = 64;

// Runs the lines of a script, each on the unit that the lines before it left. The first makes a unit, whatever its letter is.
pub fn run_script(rt: &impl Print, script: &[u8]) {
    if script.is_empty() {
        return;
    }
    let mut unit = Unit::empty();
    for (k, line) in script.split(|byte| *byte == b'\n').enumerate() {
        let (letter, mut fields) = Fields::of(line);
        unit.run_line(rt, if k == 0 { b'N' } else { letter }, &mut fields);
    }
}

impl Unit {
    fn run_line(&mut self, rt: &impl Print, letter: u8, fields: &mut Fields) {
        self.freshen_log();
        match letter {
            b'N' => self.unit_row(rt, fields),
            b'V' => self.view_row(rt, fields.number()),
            b't' => self.test_read_row(rt, fields.number(), fields.number()),
            b'g' => self.ranges_row(rt),
            b'B' => board_row(rt, fields.number(), fields.number()),
            b'R' | b'r' | b'Q' | b'W' | b'w' | b'X' | b'S' | b'F' | b'C' | b'Z' | b'p' | b'O' => {
                self.call_row(rt, letter, fields)
            }
            _ => self.store(letter, fields),
        }
    }

    fn unit_row(&mut self, rt: &impl Print, fields: &mut Fields) {
        self.begin(fields);
        self.freshen_log();
        let _ = println!(rt; "N\t{self}");
    }

    // Number, value, cycle count, the words of the records, and the digests.
    fn call_row(&mut self, rt: &impl Print, letter: u8, fields: &mut Fields) {
        let done = self.call(letter, fields);
        self.directory = done.directory;
        let _ = print!(rt;
            "{}\t{}\t{}\t{}",
            char::from(letter),
            done.number,
            done.value,
            done.cycles
        );
        let words = done.cycles as usize * 3;
        for word in self.log[..self.lengths.log].iter().take(words) {
            let _ = print!(rt; "\t{word}");
        }
        let _ = println!(rt; "\t{self}");
    }

    // The last is Z's, a reset.
    fn call(&mut self, letter: u8, fields: &mut Fields) -> Outcome {
        match letter {
            b'R' | b'r' => self.read(letter, fields),
            b'Q' => self.read_carrying(fields),
            b'W' | b'w' => self.write(letter, fields),
            b'X' => self.external_write(fields),
            b'S' => self.directory.snoop(fields.number()),
            b'F' => self.directory.flushed().answered(0),
            b'C' => self.directory.control(fields.number(), fields.number()),
            b'p' => self.test_write(fields),
            b'O' => self.set_ranges(fields),
            _ => self.directory.reset().answered(0),
        }
    }

    fn read(&mut self, letter: u8, fields: &mut Fields) -> Outcome {
        let address = fields.number();
        let width = fields.number();
        let pcd = fields.number::<u64>() == 1;
        let mut answers = [0; ROOM];
        let n = answers_of(letter, fields, address, width, &mut answers);
        let lent = self.lengths;
        let directory = self.directory;
        let ram = &self.ram[..];
        let parity = &self.parity[..];
        let data = &mut self.data[..];
        let log = &mut self.log[..];
        read_calls::read(
            directory,
            &ram[..lent.ram],
            &parity[..lent.parity],
            &mut data[..lent.data],
            address,
            width,
            pcd,
            &answers[..n],
            &mut log[..lent.log],
        )
    }

    fn read_carrying(&mut self, fields: &mut Fields) -> Outcome {
        let address = fields.number();
        let width = fields.number();
        let pcd = fields.number::<u64>() == 1;
        let mut answers = [0; ROOM];
        let n = fields.digits(&mut answers);
        let carried = carried_writes(fields);
        let lent = self.lengths;
        let directory = self.directory;
        let ram = &mut self.ram[..];
        let parity = &mut self.parity[..];
        let data = &mut self.data[..];
        let log = &mut self.log[..];
        carrying_calls::read_carrying(
            directory,
            &mut ram[..lent.ram],
            &mut parity[..lent.parity],
            &mut data[..lent.data],
            address,
            width,
            pcd,
            &answers[..n],
            &mut log[..lent.log],
            carried,
        )
    }

    fn write(&mut self, letter: u8, fields: &mut Fields) -> Outcome {
        let address = fields.number();
        let width = fields.number();
        let value = fields.number();
        let mut answers = [0; ROOM];
        let n = answers_of(letter, fields, address, width, &mut answers);
        let lent = self.lengths;
        let directory = self.directory;
        let ram = &mut self.ram[..];
        let parity = &mut self.parity[..];
        let data = &mut self.data[..];
        let log = &mut self.log[..];
        write_calls::write(
            directory,
            &mut ram[..lent.ram],
            &mut parity[..lent.parity],
            &mut data[..lent.data],
            address,
            width,
            value,
            &answers[..n],
            &mut log[..lent.log],
        )
    }

    fn external_write(&mut self, fields: &mut Fields) -> Outcome {
        let address = fields.number();
        let mut bytes = [0; ROOM];
        let n = fields.numbers(&mut bytes);
        let lent = self.lengths;
        let directory = self.directory;
        let ram = &mut self.ram[..];
        let parity = &mut self.parity[..];
        masters::external_write(
            directory,
            &mut ram[..lent.ram],
            &mut parity[..lent.parity],
            address,
            &bytes[..n],
        )
    }

    fn test_write(&mut self, fields: &mut Fields) -> Outcome {
        let lent = self.lengths;
        let set = fields.number();
        let way = fields.number();
        let tag = fields.number();
        let mark = fields.number();
        let mut bytes = [0; 16];
        fields.numbers(&mut bytes);
        diagnostics::test_write(
            self.directory,
            &mut self.data[..lent.data],
            set,
            way,
            tag,
            mark,
            bytes,
        )
    }

    // Number, tag, valid mark and LRU number of a test read, its sixteen bytes, which are one field, and the digests.
    fn test_read_row(&mut self, rt: &impl Print, set: u32, way: u32) {
        let lent = self.lengths;
        let done = diagnostics::test_read(self.directory, &self.data[..lent.data], set, way);
        let line = done.line;
        let _ = print!(rt;
            "t\t{}\t{}\t{}\t{}\t",
            line.number,
            line.tag,
            u8::from(line.valid),
            line.lru
        );
        print_pairs(rt, &line.bytes);
        self.directory = done.directory;
        let _ = println!(rt; "\t{self}");
    }

    // The words that the line gives are lent, a start without a length too.
    fn set_ranges(&mut self, fields: &mut Fields) -> Outcome {
        let lent = self.lengths;
        let mut words = [0; 32];
        let n = fields.numbers(&mut words);
        read_only_ranges::set_ranges(self.directory, &self.ram[..lent.ram], &words[..n])
    }

    // Number, length and bytes of a view, which are one field, empty where the view is turned away, and the digests, which show that
    // a view and its number leave all as it was.
    fn view_row(&self, rt: &impl Print, address: u32) {
        let lent = self.lengths;
        let d = &self.directory;
        let arrays = Arrays {
            tags: &d.tags,
            valid: &d.valid,
            lru: &d.lru,
        };
        let ranges = Kept {
            count: d.ranges.count,
            bounds: &d.ranges.bounds,
        };
        let ram = &self.ram[..lent.ram];
        let data = &self.data[..lent.data];
        let number = answer_of(views::view_number(arrays, ranges, ram, data, address));
        let shown = views::view(arrays, ranges, ram, data, address);
        let _ = print!(rt; "V\t{number}\t{}\t", shown.len());
        print_pairs(rt, shown);
        let _ = println!(rt; "\t{self}");
    }

    // A digest of the count of ranges and of all their words. Calls' rows leave it out.
    fn ranges_row(&self, rt: &impl Print) {
        let ranges = &self.directory.ranges;
        let sum = Adler::start().word(ranges.count).words(&ranges.bounds);
        let _ = println!(rt; "g\t{sum}");
    }
}

// The answers that the line gives; the board's where its letter is a small one.
fn answers_of(
    letter: u8,
    fields: &mut Fields,
    address: u32,
    width: u32,
    room: &mut [u8; ROOM],
) -> usize
    ensures { result ≤ 64 }
{
    if letter.is_ascii_uppercase() {
        return fields.digits(room);
    }
    let answers = board_answers(address, width);
    room[..ANSWERS].copy_from_slice(&answers);
    ANSWERS
}

fn board_answers(address: u32, width: u32) -> [u8; ANSWERS] {
    board::board_answers(&board::block_answers(), address, width)
}

// The writes that the line gives: how many, and of each cycle number, address, length and bytes, sixteen at most. A write that the line
// does not give has zeros.
fn carried_writes(fields: &mut Fields) -> CarriedWrites {
    let count = fields.number();
    let mut cycles = [0; 4];
    let mut addresses = [0; 4];
    let mut lengths = [0; 4];
    let mut bytes = [0; 64];
    for k in 0..4 {
        cycles[k] = fields.number();
        addresses[k] = fields.number();
        let length = fields.number();
        lengths[k] = length;
        let end = 16 * k + (length as usize).min(16);
        fields.numbers(&mut bytes[16 * k..end]);
    }
    CarriedWrites {
        count,
        cycles,
        addresses,
        lengths,
        bytes,
    }
}

// The answers are one field, a digit for each.
fn board_row(rt: &impl Print, address: u32, width: u32) {
    let _ = print!(rt; "B\t");
    for answer in board_answers(address, width) {
        let _ = print!(rt; "{answer}");
    }
    let _ = println!(rt);
}

// Two hexadecimal digits for each byte.
fn print_pairs(rt: &impl Print, bytes: &[u8]) {
    for byte in bytes {
        let _ = print!(rt; "{byte:02x}");
    }
}
