// Tables of a chip's rules, row by row and byte by byte, without wires: docs/RULES.md, "The register", "Writing" and "Wipers".
// A case answers how many rows agree, of how many.

use crate::case::{Case, Step};
use crate::setup::levels_of;
use crate::told::Told;
use ds1846::state::Ds1846;
use part::Part;
use part::levels::Levels;
use std::fmt;
use x9520::state::X9520;

#[derive(Clone, Copy)]
pub enum Table {
    Register,
    Locks,
    Wipers,
    Taps,
    Cells,
}

pub static CASES: &[Case] = &[
    Case {
        name: "register bytes by lock bits, latches and WP: the ACK, and a read after STOP and finish",
        steps: &[Step::Table(Table::Register)],
        expected: "24 of 24",
    },
    Case {
        name: "memory cells by lock bits: the ACK, what is stored, RWEL after the try, and the ACK of a byte for a DCP",
        steps: &[Step::Table(Table::Locks)],
        expected: "12 of 12",
    },
    Case {
        name: "a byte for a DCP by lock bits: the ACK, and RWEL, which stays set",
        steps: &[Step::Table(Table::Wipers)],
        expected: "4 of 4",
    },
    Case {
        name: "bytes for the three DCPs: the tap at once, and the byte read",
        steps: &[Step::Table(Table::Taps)],
        expected: "17 of 17",
    },
    Case {
        name: "bytes in cells F8h, F9h and FAh of a DS1846: the tap of the wiper from the finish on",
        steps: &[Step::Table(Table::Cells)],
        expected: "8 of 8",
    },
];

const MEMORY: u8 = 0xa0;

const REGISTER: u8 = 0xa4;

const DCPS: u8 = 0xae;

// Lock bits, how many latches are set (WEL first), the byte written, the levels; whether it gets an ACK, and what a read brings.
static REGISTER_BYTES: [(u8, u8, u8, u8, bool, u8); 24] = [
    (0, 0, 0x00, 0, true, 0x01),
    (0, 0, 0x02, 0, true, 0x03),
    (0, 0, 0x06, 0, false, 0x01),
    (0, 0, 0x0b, 0, false, 0x01),
    (0, 1, 0x00, 0, true, 0x01),
    (0, 1, 0x02, 0, true, 0x03),
    (0, 1, 0x06, 0, true, 0x07),
    (0, 1, 0x0b, 0, false, 0x03),
    (0, 2, 0x00, 0, true, 0x01),
    (0, 2, 0x02, 0, true, 0x02),
    (0, 2, 0x06, 0, true, 0x07),
    (0, 2, 0xff, 0, true, 0x07),
    (0, 2, 0x0b, 0, true, 0x0b),
    (0, 2, 0x9a, 0, true, 0x9a),
    (0, 2, 0x04, 0, false, 0x07),
    (0, 2, 0x09, 0, false, 0x07),
    (0, 0, 0x02, 4, true, 0x03),
    (0, 2, 0x06, 4, true, 0x07),
    (0, 2, 0x0b, 4, false, 0x07),
    (1, 0, 0x02, 4, false, 0x09),
    (1, 1, 0x00, 4, false, 0x0b),
    (3, 2, 0x06, 4, false, 0x1f),
    (3, 2, 0x03, 0, true, 0x03),
    (2, 1, 0x06, 0, true, 0x17),
];

// Lock bits, a memory cell, and whether a byte for it gets an ACK.
static LOCKED_CELLS: [(u8, u8, bool); 12] = [
    (0, 0x00, true),
    (0, 0xff, true),
    (1, 0x7f, true),
    (1, 0xbf, true),
    (1, 0xc0, false),
    (1, 0xff, false),
    (2, 0x7f, true),
    (2, 0x80, false),
    (2, 0xff, false),
    (3, 0x00, false),
    (3, 0x7f, false),
    (3, 0xff, false),
];

// Lock bits, and whether a byte for a DCP gets an ACK.
static LOCKED_WIPERS: [(u8, bool); 4] = [(0, true), (1, false), (2, false), (3, false)];

// A DCP, a byte written to it, the tap where its wiper then stands, and the byte read.
static DCP_BYTES: [(u8, u8, u16, u8); 17] = [
    (0, 0x00, 0, 0x00),
    (0, 0x3f, 63, 0x3f),
    (0, 0x40, 63, 0x3f),
    (0, 0xff, 63, 0x3f),
    (1, 24, 24, 24),
    (1, 25, 99, 96),
    (1, 56, 25, 56),
    (1, 32, 49, 32),
    (1, 31, 99, 96),
    (1, 64, 50, 64),
    (1, 88, 74, 88),
    (1, 89, 99, 96),
    (1, 120, 75, 120),
    (1, 96, 99, 96),
    (1, 255, 99, 96),
    (2, 0x80, 128, 0x80),
    (2, 0xff, 255, 0xff),
];

// A cell of a DS1846, a byte stored in it, a wiper, and the tap where it then stands.
static WIPER_CELLS: [(u8, u8, usize, u16); 8] = [
    (0xf8, 0x80, 1, 128),
    (0xf8, 0xff, 1, 255),
    (0xf9, 0x63, 0, 99),
    (0xf9, 0x64, 0, 99),
    (0xf9, 0xe4, 0, 99),
    (0xf9, 0x80, 0, 0),
    (0xfa, 0x62, 2, 98),
    (0xfa, 0xff, 2, 99),
];

// A first byte and a data byte to an address, with a STOP: whether the data byte got an ACK.
fn write<P: Part>(part: &mut P, address: u8, first: u8, byte: u8, levels: Levels) -> bool {
    part.start();
    let heard = part.address(address) && part.aim(address, levels, first);
    let acked = heard && part.take(address, levels, byte);
    part.stop(acked, levels);
    acked
}

// The byte that a chip gives first after an address byte for reading.
fn read<P: Part>(part: &mut P, address: u8) -> u8 {
    part.start();
    let byte = if part.address(address) {
        part.give(address)
    } else {
        0xff
    };
    part.stop(false, levels_of(0));
    byte
}

fn write_register(chip: &mut X9520, byte: u8) {
    write(chip, REGISTER, 0xff, byte, levels_of(0));
}

// An X9520 with these lock bits, and with 0, 1 or 2 of its latches set, WEL first.
pub(super) fn x9520_with(lock: u8, latches: u8) -> X9520 {
    let mut chip = X9520::fresh();
    write_register(&mut chip, 0x02);
    write_register(&mut chip, 0x06);
    write_register(&mut chip, lock % 4 * 8 + 3);
    chip.finish(0);
    if latches == 0 {
        write_register(&mut chip, 0x00);
    }
    if latches == 2 {
        write_register(&mut chip, 0x06);
    }
    chip
}

fn register_agrees(row: (u8, u8, u8, u8, bool, u8)) -> bool {
    let (lock, latches, byte, levels, acked, reads) = row;
    let mut chip = x9520_with(lock, latches);
    let taken = write(&mut chip, REGISTER, 0xff, byte, levels_of(levels));
    chip.finish(0);
    taken == acked && read(&mut chip, REGISTER + 1) == reads
}

fn lock_agrees((lock, cell, acked): (u8, u8, bool)) -> bool {
    let mut chip = x9520_with(lock, 2);
    let taken = write(&mut chip, MEMORY, cell, 0x55, levels_of(0));
    chip.finish(0);
    let stored = if acked { 0x55 } else { 0x00 };
    let armed = read(&mut chip, REGISTER + 1) / 4 % 2 == 1;
    let holds = chip.cell(0, usize::from(cell)) == Some(stored);
    let moved = write(&mut x9520_with(lock, 2), DCPS, 0x02, 0x55, levels_of(0));
    taken == acked && armed == acked && holds && moved == (lock == 0)
}

fn wiper_agrees((lock, acked): (u8, bool)) -> bool {
    let mut chip = x9520_with(lock, 2);
    let taken = write(&mut chip, DCPS, 0x02, 0x55, levels_of(0));
    taken == acked && read(&mut chip, REGISTER + 1) / 4 % 2 == 1
}

// WP is HIGH, which does not matter for a byte that is not to be stored.
fn tap_agrees((dcp, byte, tap, reads): (u8, u8, u16, u8)) -> bool {
    let mut chip = x9520_with(0, 1);
    let taken = write(&mut chip, DCPS, dcp, byte, levels_of(4));
    let stands = chip.tap(0, usize::from(dcp)) == Some(tap);
    taken && stands && read(&mut chip, DCPS + 1) == reads && !chip.busy(0)
}

fn cell_agrees((cell, byte, wiper, tap): (u8, u8, usize, u16)) -> bool {
    let mut chip = Ds1846::fresh();
    let taken = write(&mut chip, 0xa2, cell, byte, levels_of(0));
    let stays = chip.tap(0, wiper) == Some(0);
    chip.finish(0);
    taken && stays && chip.tap(0, wiper) == Some(tap)
}

// How many rows of a table agree, of how many.
#[derive(Clone, Copy)]
struct Rows {
    agree: usize,
    all: usize,
}

impl fmt::Display for Rows {
    fn fmt<W: fmt::Write>(&self, f: &mut fmt::Formatter<W>) -> fmt::Result {
        let Rows { agree, all } = *self;
        write!(f, "{agree} of {all}")
    }
}

impl Table {
    pub(super) fn perform(self, told: &mut Told) {
        let mut rows = Rows { agree: 0, all: 0 };
        match self {
            Table::Register => REGISTER_BYTES
                .iter()
                .for_each(|&row| rows.add(register_agrees(row))),
            Table::Locks => LOCKED_CELLS
                .iter()
                .for_each(|&row| rows.add(lock_agrees(row))),
            Table::Wipers => LOCKED_WIPERS
                .iter()
                .for_each(|&row| rows.add(wiper_agrees(row))),
            Table::Taps => DCP_BYTES.iter().for_each(|&row| rows.add(tap_agrees(row))),
            Table::Cells => WIPER_CELLS
                .iter()
                .for_each(|&row| rows.add(cell_agrees(row))),
        }
        told.tell(rows);
    }
}

impl Rows {
    fn add(&mut self, agrees: bool) {
        self.agree = self.agree.saturating_add(usize::from(agrees));
        self.all = self.all.saturating_add(1);
    }
}
