// A job file run into lists of its own.

use board::board::Board;
use part::Part;
use part::levels::Levels;
use refusals::Refusal;
use rows::row::Row;
use runner::result::{Done, JobResult};
use runner::room::Room;
use runner::run::run_file;
use std::alloc::Global;

pub const NO_RESULT: JobResult = JobResult {
    number: 0,
    outcome: Ok(Done { from: 0, count: 0 }),
};

// The results of a file, of which there are so many, and the bytes answered; or why it was not run.
#[derive(Drop)]
pub struct Ran {
    pub results: Vec<JobResult>,
    pub count: usize,
    pub bytes: Vec<u8>,
    pub refused: Option<Refusal>,
}

pub(super) fn run<P: Part>(
    alloc: Global,
    board: &mut Board<P>,
    lines: &mut Levels,
    room: Room,
    file: &[u8],
) -> anyhow::Result<Ran> {
    let mut results = vec![in alloc; NO_RESULT; room.results]?;
    let mut bytes = vec![in alloc; 0u8; room.bytes]?;
    let mut result_row = Row::new(&mut results);
    let mut byte_row = Row::new(&mut bytes);
    let refused = run_file(board, lines, file, &mut result_row, &mut byte_row).err();
    let count = result_row.len();
    Ok(Ran {
        results,
        count,
        bytes,
        refused,
    })
}
