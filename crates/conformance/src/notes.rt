// Notes, the WP guard and transfers by hand: docs/RULES.md, "The note", "The tool's line levels and the WP guard" and "Transfer states".

use crate::case::{Case, Step};
use crate::setup::{byte_of, levels_of};
use crate::told::{Outcome, Stored, Told};
use board::board::Board;
use controller::guard::WpGuard;
use controller::note::Note;
use controller::transfer::Quiet;
use controller::wait::wait;
use controller::write::write;
use jobfile::wait::Wait;
use jobfile::write::Write;
use part::Part;
use refusals::Refusal;

// What is done by calls of the tool, on a board with an X9520 and a DS1846.
#[derive(Clone, Copy)]
pub enum Notes {
    // A wait on a ready chip with no note.
    Poll,
    // A write to 51h; waits on 51h while busy, on 50h, and on 51h after the finish.
    Waits,
    // A guard on a record with WP and V3RO HIGH; the record while it lives, and afterwards.
    Guard,
    // A read of one byte from cell 10h of 51h, whose address is given as D1h: the ACKs, the byte and the count of bytes sent.
    ByHand,
}

pub static CASES: &[Case] = &[
    Case {
        name: "a poll makes no note",
        steps: &[Step::Notes(Notes::Poll)],
        expected: "ok, no note",
    },
    Case {
        name: "a refused wait and one on another address hand the note back; an accepted one on its address spends it",
        steps: &[Step::Notes(Notes::Waits)],
        expected: "no 10, note 81, ok, note 81, ok, no note",
    },
    Case {
        name: "a guard lowers WP of the record alone, and puts it back",
        steps: &[Step::Notes(Notes::Guard)],
        expected: "10, 14",
    },
    Case {
        name: "a transfer by hand counts the bytes sent, and takes the low seven bits of an address",
        steps: &[Step::Notes(Notes::ByHand)],
        expected: "ok, ok, ok, 00, 3",
    },
];

impl Notes {
    pub(super) fn perform<P: Part>(
        self,
        board: &mut Board<P>,
        told: &mut Told,
    ) -> Result<(), Refusal> {
        match self {
            Notes::Poll => poll(board, told),
            Notes::Waits => waits(board, told),
            Notes::Guard => {
                guard(told);
                Ok(())
            }
            Notes::ByHand => {
                by_hand(board, told);
                Ok(())
            }
        }
    }
}

// The address of a note that is then given up.
fn given_up(note: Option<Note>) -> Option<u8> {
    match note {
        Some(busy) => Some(busy.give_up()),
        None => None,
    }
}

fn noted(note: &Option<Note>) -> Option<u8> {
    match note {
        Some(busy) => Some(busy.address()),
        None => None,
    }
}

fn tell_wait(left: Option<u8>, answer: Result<(), Refusal>, told: &mut Told) {
    told.tell(Outcome(answer));
    match left {
        Some(address) => told.tell(format_args!("note {address}")),
        None => told.tell("no note"),
    }
}

fn poll<P: Part>(board: &mut Board<P>, told: &mut Told) -> Result<(), Refusal> {
    let job = Wait::new(0x51, 1)?;
    let (note, answer) = wait(board, &mut levels_of(0), &job, None);
    tell_wait(given_up(note), answer, told);
    Ok(())
}

// No `?` leaves while a note is held.
fn waits<P: Part>(board: &mut Board<P>, told: &mut Told) -> Result<(), Refusal> {
    let mut lines = levels_of(0);
    let job = Write::new(0x51, &[0x10, 0xab], 0)?;
    let here = Wait::new(0x51, 2)?;
    let elsewhere = Wait::new(0x50, 2)?;
    let note = Some(write(board, &mut lines, &job)?);
    let (note, busy) = wait(board, &mut lines, &here, note);
    tell_wait(noted(&note), busy, told);
    let (note, other) = wait(board, &mut lines, &elsewhere, note);
    tell_wait(noted(&note), other, told);
    let _ = board.finish(1);
    let (note, ready) = wait(board, &mut lines, &here, note);
    tell_wait(given_up(note), ready, told);
    Ok(())
}

fn guard(told: &mut Told) {
    let mut lines = levels_of(0x14);
    {
        let guard = WpGuard::lower(&mut lines);
        told.tell(Stored(byte_of(guard.levels())));
    }
    told.tell(Stored(byte_of(lines)));
}

fn by_hand<P: Part>(board: &mut Board<P>, told: &mut Told) {
    let lines = levels_of(0);
    let (writing, addressed) = Quiet::new().write(board, &lines, 0xd1);
    let (writing, aimed) = writing.send(board, &lines, 0x10);
    let (reading, asked) = writing.read(board, &lines, 0xd1);
    let (reading, byte) = reading.receive(board, &lines, false);
    let sent = reading.stop(board, &lines).end();
    told.tell(Outcome(addressed));
    told.tell(Outcome(aimed));
    told.tell(Outcome(asked));
    told.tell(Stored(byte));
    told.tell(sent);
}
