// Refusal 9: lists that are too short, and what such a call leaves as it was. docs/RULES.md, "Rows" and "Refusals".

use crate::case::Step::{Do, SameAs};
use crate::case::{Case, Step};
use crate::file_run::NO_RESULT;
use crate::files::{DS1846_BUSY, FINISH_1};
use crate::setup::{NO_TRANSFER, levels_of};
use crate::told::{Outcome, Stored, Told};
use board::answer::Answer;
use board::board::Board;
use board::call::Call;
use controller::read::read;
use controller::samples::samples;
use jobfile::read::Read;
use jobfile::samples::Samples;
use part::Part;
use reader::read::read as read_recording;
use refusals::Refusal;
use rows::row::Row;
use runner::line::ResultLine;
use runner::run::run_file;

// What is done with lists that are lent, on a board whose part 1 is a DS1846.
#[derive(Clone, Copy)]
pub enum Lists {
    // A read of three bytes, a bad samples job and a good one of three, with room for two.
    Short,
    // A read of two bytes with room for two.
    Enough,
    // Two finishes and a read of two bytes, with room for so many results and so many bytes.
    File(usize, usize),
    // A finish and a read of two bytes, with room for two results and one byte.
    FreeSlot,
    // A recording of two transfers, and then one of one, with room for one.
    Recorded,
    // A START, a finish of part 2 and a sample 20h in a list of calls, with room for so many answers.
    Calls(usize),
}

pub static CASES: &[Case] = &[
    Case {
        name: "refusal 9 of a read, 1 before 9, and 9 of a samples job: board, row and free slots stay",
        steps: &[
            Do(DS1846_BUSY),
            Step::Lists(Lists::Short),
            SameAs(DS1846_BUSY),
        ],
        expected: "no 9, no 1, no 9, 1, 09, 07, 07, same",
    },
    Case {
        name: "a read with just the room appends to the row",
        steps: &[Do(DS1846_BUSY), Do(FINISH_1), Step::Lists(Lists::Enough)],
        expected: "ok, 3, 09, ab, 00",
    },
    Case {
        name: "refusal 9 of a file for want of room for results: nothing is run or appended",
        steps: &[
            Do(DS1846_BUSY),
            Step::Lists(Lists::File(2, 2)),
            SameAs(DS1846_BUSY),
        ],
        expected: "no 9, 1, same",
    },
    Case {
        name: "refusal 9 of a file for want of room for bytes: nothing is run or appended",
        steps: &[
            Do(DS1846_BUSY),
            Step::Lists(Lists::File(3, 1)),
            SameAs(DS1846_BUSY),
        ],
        expected: "no 9, 1, same",
    },
    Case {
        name: "refusal 9 of a file leaves the free slots of the byte list",
        steps: &[
            Do(DS1846_BUSY),
            Step::Lists(Lists::FreeSlot),
            SameAs(DS1846_BUSY),
        ],
        expected: "no 9, 0, 07, same",
    },
    Case {
        name: "a file with just the room appends to both rows",
        steps: &[Do(DS1846_BUSY), Step::Lists(Lists::File(3, 2))],
        expected: "ok, 3, 1 no 3 0, 2 ok -, 3 ok ab00",
    },
    Case {
        name: "refusal 9 of a recording: the row stays; with just the room it grows",
        steps: &[Step::Lists(Lists::Recorded)],
        expected: "no 9, 1, ok, 0 0 0 0 0, 0 1 0 0 0",
    },
    Case {
        name: "refusal 9 of a list of calls comes before the first call",
        steps: &[
            Do(DS1846_BUSY),
            Step::Lists(Lists::Calls(2)),
            SameAs(DS1846_BUSY),
        ],
        expected: "no 9, same",
    },
    Case {
        name: "in a list of calls those after a refused one are given all the same",
        steps: &[Step::Lists(Lists::Calls(3))],
        expected: "ok, 0, no 2, no 1",
    },
];

impl Lists {
    pub(super) fn perform<P: Part>(
        self,
        board: &mut Board<P>,
        told: &mut Told,
    ) -> Result<(), Refusal> {
        match self {
            Lists::Short => short(board, told),
            Lists::Enough => enough(board, told),
            Lists::File(results, bytes) => {
                file(board, results, bytes, told);
                Ok(())
            }
            Lists::FreeSlot => {
                free_slot(board, told);
                Ok(())
            }
            Lists::Recorded => {
                recorded(told);
                Ok(())
            }
            Lists::Calls(room) => {
                calls(board, room, told);
                Ok(())
            }
        }
    }
}

fn short<P: Part>(board: &mut Board<P>, told: &mut Told) -> Result<(), Refusal> {
    let three = Read::new(0x51, &[0x10], 0, 3)?;
    let bad = Samples::new(&[3, 1, 0x20], 0)?;
    let many = Samples::new(&[3, 1, 0], 0)?;
    let mut list = [7u8; 3];
    let mut row = Row::new(&mut list);
    let _ = row.append(9);
    told.tell(Outcome(read(board, &levels_of(0), &three, &mut row)));
    told.tell(Outcome(samples(board, &bad, &mut row)));
    told.tell(Outcome(samples(board, &many, &mut row)));
    told.tell(row.len());
    for &byte in &list {
        told.tell(Stored(byte));
    }
    Ok(())
}

fn enough<P: Part>(board: &mut Board<P>, told: &mut Told) -> Result<(), Refusal> {
    let two = Read::new(0x51, &[0x10], 0, 2)?;
    let mut list = [7u8; 3];
    let mut row = Row::new(&mut list);
    let _ = row.append(9);
    told.tell(Outcome(read(board, &levels_of(0), &two, &mut row)));
    told.tell(row.len());
    for &byte in &list {
        told.tell(Stored(byte));
    }
    Ok(())
}

// One byte stands in the byte list already.
fn file<P: Part>(board: &mut Board<P>, results: usize, bytes: usize, told: &mut Told) {
    let mut result_list = [NO_RESULT; 3];
    let mut byte_list = [7u8; 4];
    let mut result_row = Row::new(&mut result_list[..results.min(3)]);
    let mut byte_row = Row::new(&mut byte_list[..bytes.min(3) + 1]);
    let _ = byte_row.append(9);
    let jobs = [4, 0, 4, 1, 2, 0x51, 1, 0x10, 2];
    let mut lines = levels_of(0);
    let ran = run_file(board, &mut lines, &jobs, &mut result_row, &mut byte_row);
    told.tell(Outcome(ran));
    told.tell(byte_row.len());
    for &result in result_row.items() {
        let bytes = byte_row.items();
        told.tell(ResultLine { result, bytes });
    }
}

fn free_slot<P: Part>(board: &mut Board<P>, told: &mut Told) {
    let mut result_list = [NO_RESULT; 2];
    let mut byte_list = [7u8; 1];
    let mut result_row = Row::new(&mut result_list);
    let mut byte_row = Row::new(&mut byte_list);
    let jobs = [4, 1, 2, 0x51, 1, 0x10, 2];
    let mut lines = levels_of(0);
    let ran = run_file(board, &mut lines, &jobs, &mut result_row, &mut byte_row);
    told.tell(Outcome(ran));
    told.tell(result_row.len());
    for &byte in &byte_list {
        told.tell(Stored(byte));
    }
}

fn recorded(told: &mut Told) {
    let mut list = [NO_TRANSFER; 2];
    let mut row = Row::new(&mut list);
    let _ = row.append(NO_TRANSFER);
    told.tell(Outcome(read_recording(&[1, 3, 1], &mut row)));
    told.tell(row.len());
    told.tell(Outcome(read_recording(&[1, 0], &mut row)));
    for &transfer in row.items() {
        told.tell(transfer);
    }
}

fn calls<P: Part>(board: &mut Board<P>, room: usize, told: &mut Told) {
    let mut list = [Answer::Done; 3];
    let mut row = Row::new(&mut list[..room.min(3)]);
    let calls = [
        Call::Sample { byte: 1 },
        Call::Finish { part: 2 },
        Call::Sample { byte: 0x20 },
    ];
    told.tell(Outcome(board.run(&calls, &mut row)));
    for &answer in row.items() {
        tell_answer(answer, told);
    }
}

fn tell_answer(answer: Answer, told: &mut Told) {
    match answer {
        Answer::Level { high } => told.tell(u8::from(high)),
        Answer::Done => told.tell("done"),
        Answer::Refused { refusal } => told.tell(Outcome(Err(refusal))),
    }
}
