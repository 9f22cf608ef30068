// Moves and questions of the chips out of turn, and the renewal: docs/RULES.md, "Out of turn" of each chip, "Pairs" and
// "The board's calls and questions".

use crate::case::{Case, Step};
use crate::setup::levels_of;
use crate::tables::x9520_with;
use crate::tally::x9520_ds1846;
use crate::told::{Same, Stored, Told};
use board::board::Board;
use ds1846::state::Ds1846;
use pair::Pair;
use part::Part;
use x9520::state::X9520;

// What is done with chips byte by byte, without wires.
#[derive(Clone, Copy)]
pub enum Moves {
    // A byte fetched with no read open, from a DS1846 and an X9520.
    Fetched,
    // A first byte and a later byte with no address heard.
    Unheard,
    // A byte under A4h where A2h is the heard address and a byte is staged for cell 10h: its ACK, what is staged, what is heard.
    OtherAddress,
    // A finish of part 1 of a busy DS1846: what is under way.
    OtherPart,
    // Questions outside a chip: a cell of part 1, the owner of 51h at part 1, the offset of cell 300 of part 7.
    Questions,
    // Whether parts 0 and 1 of two DS1846 own 51h.
    Owners,
    // Whether A2h counts as heard in two DS1846, handed over with it heard in the first, and in the second.
    PairHeard,
    // A pair of an X9520 with all locked and both latches set, and a DS1846 with a byte stored in cell 20h, a write to cell 10h under way
    // and its counter at 11h: the register's stored byte, that of cell 20h and what is under way in the pair, and whether the board
    // made of it is that of fresh chips.
    Renewed,
}

pub static CASES: &[Case] = &[
    Case {
        name: "a byte fetched with no read open is FFh",
        steps: &[Step::Moves(Moves::Fetched)],
        expected: "ff, ff",
    },
    Case {
        name: "a first or a later byte with no address heard gets no ACK",
        steps: &[Step::Moves(Moves::Unheard)],
        expected: "false, false",
    },
    Case {
        name: "a byte under another address byte gets no ACK, and nothing stays staged or heard",
        steps: &[Step::Moves(Moves::OtherAddress)],
        expected: "ab, false, none, false",
    },
    Case {
        name: "a finish of another part number changes nothing",
        steps: &[Step::Moves(Moves::OtherPart)],
        expected: "ab, ab",
    },
    Case {
        name: "a question outside a chip answers none or no, and an offset its number modulo 16",
        steps: &[Step::Moves(Moves::Questions)],
        expected: "none, false, 12",
    },
    Case {
        name: "of two parts that have an address the first is its owner",
        steps: &[Step::Moves(Moves::Owners)],
        expected: "true, false",
    },
    Case {
        name: "what a pair has heard is asked of the part that the byte is for: of two that have its address the first",
        steps: &[Step::Moves(Moves::PairHeard)],
        expected: "true, false",
    },
    Case {
        name: "making a pair changes neither part, and making a board makes both chips fresh, also a busy one",
        steps: &[Step::Moves(Moves::Renewed)],
        expected: "1b, 5a, ab, same",
    },
];

impl Moves {
    pub(super) fn perform(self, told: &mut Told) {
        match self {
            Moves::Fetched => {
                told.tell(Stored(Ds1846::fresh().give(0xa3)));
                told.tell(Stored(X9520::fresh().give(0xa1)));
            }
            Moves::Unheard => {
                let mut chip = Ds1846::fresh();
                told.tell(chip.aim(0xa2, levels_of(0), 0x10));
                told.tell(chip.take(0xa2, levels_of(0), 0xab));
            }
            Moves::OtherAddress => other_address(told),
            Moves::OtherPart => other_part(told),
            Moves::Questions => questions(told),
            Moves::Owners => {
                let pair = Pair::new(Ds1846::fresh(), Ds1846::fresh());
                told.tell(pair.owns(0, 0x51));
                told.tell(pair.owns(1, 0x51));
            }
            Moves::PairHeard => {
                told.tell(Pair::new(staged(), Ds1846::fresh()).heard(0xa2));
                told.tell(Pair::new(Ds1846::fresh(), staged()).heard(0xa2));
            }
            Moves::Renewed => renewed(told),
        }
    }
}

fn tell_byte(byte: Option<u8>, told: &mut Told) {
    match byte {
        Some(byte) => told.tell(Stored(byte)),
        None => told.tell("none"),
    }
}

fn questions(told: &mut Told) {
    let chip = Ds1846::fresh();
    tell_byte(chip.cell(1, 0), told);
    told.tell(chip.owns(1, 0x51));
    told.tell(chip.offset(7, 300));
}

// Opens a transfer and stages a byte for a cell in it.
fn stage(chip: &mut Ds1846, cell: u8, byte: u8) {
    chip.start();
    chip.address(0xa2);
    chip.aim(0xa2, levels_of(0), cell);
    chip.take(0xa2, levels_of(0), byte);
}

// A DS1846 with ABh staged for cell 10h in an open transfer.
fn staged() -> Ds1846 {
    let mut chip = Ds1846::fresh();
    stage(&mut chip, 0x10, 0xab);
    chip
}

// A DS1846 with 5Ah stored in cell 20h, and a write of ABh to cell 10h under way, which has moved the counter to 11h.
fn used() -> Ds1846 {
    let mut chip = Ds1846::fresh();
    stage(&mut chip, 0x20, 0x5a);
    chip.stop(true, levels_of(0));
    chip.finish(0);
    stage(&mut chip, 0x10, 0xab);
    chip.stop(true, levels_of(0));
    chip
}

fn other_address(told: &mut Told) {
    let mut chip = staged();
    tell_byte(chip.staged(0, 0x10), told);
    told.tell(chip.take(0xa4, levels_of(0), 0xcd));
    tell_byte(chip.staged(0, 0x10), told);
    told.tell(chip.heard(0xa2));
}

fn other_part(told: &mut Told) {
    let mut chip = staged();
    chip.stop(true, levels_of(0));
    tell_byte(chip.under_way(0, 0x10), told);
    chip.finish(1);
    tell_byte(chip.under_way(0, 0x10), told);
}

fn renewed(told: &mut Told) {
    let pair = Pair::new(x9520_with(3, 2), used());
    tell_byte(pair.cell(0, 259), told);
    tell_byte(pair.cell(1, 0x20), told);
    tell_byte(pair.under_way(1, 0x10), told);
    let board = Board::new(pair);
    told.tell(Same(board == Board::new(x9520_ds1846())));
}
