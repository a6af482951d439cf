// Units: what the calls are lent, and the line for a new one.
ghost use Rattle.std.specs.Prelude.{◌≡◌, ◌≤◌, length};

use crate::digest::Adler;
use crate::script::Fields;
use buffers::{array_of, large_buffer};
use directory::Directory;
use std::fmt;

// The most bytes that an array of a unit has, and the most words that its log has.
const MOST_BYTES: usize = 65536;

const MOST_WORDS: usize = 192;

// How much of each array of a unit is lent.
#[derive(Clone, Copy)]
pub struct Lengths {
    pub ram: usize,
    pub parity: usize,
    pub data: usize,
    pub log: usize,
    ghost ram_fits: { ram ≤ 65536 },
    ghost parity_fits: { parity ≤ 65536 },
    ghost data_fits: { «data» ≤ 65536 },
    ghost log_fits: { log ≤ 192 },
}

#[derive(Drop)]
pub struct Unit {
    pub directory: Directory,
    pub ram: [u8; MOST_BYTES],
    pub parity: [u8; MOST_BYTES],
    pub data: [u8; MOST_BYTES],
    pub log: [u32; MOST_WORDS],
    pub lengths: Lengths,
}

impl Unit {
    // The unit before a script's first line: nothing is lent.
    pub fn empty() -> Unit {
        Unit {
            directory: Directory::first(),
            ram: large_buffer(),
            parity: large_buffer(),
            data: large_buffer(),
            log: log_buffer(),
            lengths: Lengths {
                ram: 0,
                parity: 0,
                data: 0,
                log: 0,
            },
        }
    }

    // Makes a new unit of it, with the directory of a reset and parity that agrees. Its line gives the four lengths, and what RAM and
    // data array are filled from.
    pub fn begin(&mut self, fields: &mut Fields) {
        let lent = Lengths {
            ram: fields.number::<usize>().min(MOST_BYTES),
            parity: fields.number::<usize>().min(MOST_BYTES),
            data: fields.number::<usize>().min(MOST_BYTES),
            log: fields.number::<usize>().min(MOST_WORDS),
        };
        let ram_seed = fields.number();
        let data_seed = fields.number();
        self.directory = Directory::first();
        self.lengths = lent;
        let ram = &mut self.ram[..];
        let parity = &mut self.parity[..];
        let data = &mut self.data[..];
        set_bytes(&mut ram[..lent.ram], ram_seed);
        set_parity(&mut parity[..lent.parity], &ram[..lent.ram]);
        set_bytes(&mut data[..lent.data], data_seed);
    }

    // The log before each call, so that words which the call leaves alone show.
    pub fn freshen_log(&mut self) {
        let words = self.lengths.log;
        let mut value = 0xc0de_0000u32;
        for word in self.log[..words].iter_mut() {
            *word = value;
            value = value.wrapping_add(1);
        }
    }
}

// The digests of directory, RAM, parity array, data array and log.
impl fmt::Display for Unit {
    fn fmt<W: fmt::Write>(&self, f: &mut fmt::Formatter<W>) -> fmt::Result {
        let lent = self.lengths;
        let directory = directory_sum(&self.directory);
        let ram = Adler::start().bytes(&self.ram[..lent.ram]);
        let parity = Adler::start().bytes(&self.parity[..lent.parity]);
        let data = Adler::start().bytes(&self.data[..lent.data]);
        let log = Adler::start().words(&self.log[..lent.log]);
        write!(f, "{directory}\t{ram}\t{parity}\t{data}\t{log}")
    }
}

fn directory_sum(d: &Directory) -> Adler {
    let lines = Adler::start().words(&d.tags).marks(&d.valid);
    lines.bytes(&d.lru).mark(d.cd).mark(d.nw)
}

fn log_buffer() -> [u32; MOST_WORDS]
    ensures { 192 ≡ length result }
{
    array_of(0)
}

// Bytes of a linear congruential generator's states.
fn set_bytes(bytes: &mut [u8], seed: u32) {
    let mut state = seed;
    for byte in bytes.iter_mut() {
        state = state.wrapping_mul(1664525).wrapping_add(1013904223);
        *byte = (state >> 24) as u8;
    }
}

// Parity that agrees, as far as either array goes: a script may give them lengths that do not match.
fn set_parity(parity: &mut [u8], ram: &[u8]) {
    parity.fill(0);
    for (lanes, doubleword) in parity.iter_mut().zip(ram.chunks(4)) {
        *lanes = odd_lanes(doubleword);
    }
}

// The DP bits of the bytes with an odd number of ones, the first byte's the lowest.
fn odd_lanes(doubleword: &[u8]) -> u8 {
    doubleword.iter().rev().fold(0, |lanes, byte| lanes << 1 | (byte.count_ones() % 2) as u8)
}
