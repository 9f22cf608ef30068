// The board on which the steps of a case are run.

use crate::case::Step;
use crate::file_run::{NO_RESULT, run};
use crate::told::{NineBits, Same, Stored, Told};
use crate::wire::{Wire, recording};
use board::board::Board;
use part::Part;
use part::levels::Levels;
use reader::line::RefusedText;
use reader::read::read;
use reader::transfer::Transfer;
use rows::row::Row;
use runner::line::{ResultLine, line};
use runner::room::{Room, room_for};
use runner::run::result_of;
use std::alloc::{AllocError, Global};

pub const NO_TRANSFER: Transfer = Transfer {
    first: 0,
    last: 0,
    address: 0,
    ninths: 0,
    clean: false,
};

pub(super) fn levels_of(byte: u8) -> Levels {
    Levels {
        wp: byte / 4 % 2 == 1,
        v2ro: byte / 8 % 2 == 1,
        v3ro: byte / 16 % 2 == 1,
    }
}

pub(super) fn byte_of(levels: Levels) -> u8 {
    u8::from(levels.wp) * 4 + u8::from(levels.v2ro) * 8 + u8::from(levels.v3ro) * 16
}

// A board, the tool's record of line levels, and what was answered so far.
#[derive(Drop)]
pub struct Setup<P: Drop> {
    board: Board<P>,
    lines: Levels,
    told: Told,
    alloc: Global,
}

impl<P: Part + Drop + PartialEq> Setup<P> {
    pub(super) fn new(alloc: Global, part: P) -> Setup<P> {
        Setup {
            board: Board::new(part),
            lines: levels_of(0),
            told: Told::new(alloc),
            alloc,
        }
    }

    // What was answered.
    pub(super) fn came(&self) -> Result<&str, AllocError> {
        self.told.text()
    }

    // Runs a step; `other` is a board of the same chips, fresh until the one `SameAs` that a case may have.
    pub(super) fn step(&mut self, step: Step, other: &mut Board<P>) -> anyhow::Result<()> {
        match step {
            Step::Do(file) => self.perform(file),
            Step::Run(file) => self.run_into(room_for(file), file),
            Step::RunInto(results, bytes, file) => self.run_into(Room { results, bytes }, file),
            Step::LineOf(number, file) => self.line_of(number, file),
            Step::Wires(wires) => self.wires(wires),
            Step::Recording(room, wires) => self.recording(room, wires),
            Step::SameAs(file) => self.same_as(file, other),
            Step::Lists(lists) => Ok(lists.perform(&mut self.board, &mut self.told)?),
            Step::Notes(notes) => Ok(notes.perform(&mut self.board, &mut self.told)?),
            Step::Moves(moves) => {
                moves.perform(&mut self.told);
                Ok(())
            }
            Step::Makers(makers) => {
                makers.perform(&mut self.told);
                Ok(())
            }
            Step::Table(table) => {
                table.perform(&mut self.told);
                Ok(())
            }
            _ => {
                self.ask(step);
                Ok(())
            }
        }
    }

    // Runs a step that allocates nothing.
    fn ask(&mut self, step: Step) {
        match step {
            Step::Set(levels) => self.lines = levels_of(levels),
            Step::Lines => self.told.tell(Stored(byte_of(self.lines))),
            Step::Cell(part, n) => match self.board.cell(part, n) {
                Ok(byte) => self.told.tell(Stored(byte)),
                Err(refusal) => self.told.tell(RefusedText(refusal)),
            },
            Step::Tap(part, n) => match self.board.tap(part, n) {
                Ok(tap) => self.told.tell(tap),
                Err(refusal) => self.told.tell(RefusedText(refusal)),
            },
            _ => {}
        }
    }

    fn perform(&mut self, file: &[u8]) -> anyhow::Result<()> {
        let room = room_for(file);
        run(self.alloc, &mut self.board, &mut self.lines, room, file)?;
        Ok(())
    }

    fn run_into(&mut self, room: Room, file: &[u8]) -> anyhow::Result<()> {
        let ran = run(self.alloc, &mut self.board, &mut self.lines, room, file)?;
        if let Some(refusal) = ran.refused {
            self.told.tell(RefusedText(refusal));
        }
        for &result in ran.results.iter().take(ran.count) {
            let bytes = &ran.bytes;
            self.told.tell(ResultLine { result, bytes });
        }
        Ok(())
    }

    fn line_of(&mut self, number: usize, file: &[u8]) -> anyhow::Result<()> {
        let room = room_for(file);
        let ran = run(self.alloc, &mut self.board, &mut self.lines, room, file)?;
        let mut list = vec![in self.alloc; NO_RESULT; room.results]?;
        let mut row = Row::new(&mut list);
        for &result in ran.results.iter().take(ran.count) {
            row.append(result)?;
        }
        let Some(place) = result_of(&row, number) else {
            self.told.tell("none");
            return Ok(());
        };
        self.told.tell(place);
        if let Some(result) = row.get(place) {
            let text = line(self.alloc, result, &ran.bytes)?;
            self.told.tell(text.as_str());
        }
        Ok(())
    }

    fn same_as(&mut self, file: &[u8], other: &mut Board<P>) -> anyhow::Result<()> {
        let mut lines = levels_of(0);
        run(self.alloc, other, &mut lines, room_for(file), file)?;
        let same = self.board == *other;
        self.told.tell(Same(same));
        Ok(())
    }

    fn recording(&mut self, room: usize, wires: &[Wire]) -> anyhow::Result<()> {
        let samples = recording(self.alloc, wires)?;
        let mut transfers = vec![in self.alloc; NO_TRANSFER; room]?;
        let mut row = Row::new(&mut transfers);
        if let Err(refusal) = read(&samples, &mut row) {
            self.told.tell(RefusedText(refusal));
        }
        for &transfer in row.items() {
            self.told.tell(transfer);
        }
        Ok(())
    }

    fn wires(&mut self, wires: &[Wire]) -> anyhow::Result<()> {
        let mut levels = 0;
        for &wire in wires {
            let mut samples = Vec::new(self.alloc);
            wire.append_to(&mut samples, levels)?;
            match wire {
                Wire::Bytes(_) | Wire::Acked(_) => self.bytes(&samples),
                Wire::Raw(_) => self.raw(&samples),
                _ => self.give(&samples),
            }
            levels = wire.levels_after(levels);
        }
        Ok(())
    }

    fn give(&mut self, samples: &[u8]) {
        for &sample in samples {
            let _ = self.board.sample(sample);
        }
    }

    fn raw(&mut self, samples: &[u8]) {
        for &sample in samples {
            match self.board.sample(sample) {
                Ok(high) => self.told.tell(u8::from(high)),
                Err(refusal) => self.told.tell(RefusedText(refusal)),
            }
        }
    }

    // Each bit is three samples, with SCL HIGH in the second, and each byte nine bits.
    fn bytes(&mut self, samples: &[u8]) {
        let mut bits = 0;
        let mut count = 0u8;
        for &sample in samples {
            let high = self.board.sample(sample) == Ok(true);
            if sample % 2 == 1 {
                bits = bits % 256 * 2 + u16::from(high);
                count = count % 9 + 1;
                if count == 9 {
                    self.told.tell(NineBits(bits));
                }
            }
        }
    }
}
