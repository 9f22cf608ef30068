// Runs a job file from standard input on a board with a fresh X9520 (part 0) paired with a fresh DS1846 (part 1), and prints a line for each job.
#![tactic(auto)]

use ds1846::state::Ds1846;
use part::levels::Levels;
use refusals::Refusal;
use rows::row::Row;
use runner::line::ResultLine;
use runner::result::{Done, JobResult, Refused};
use runner::room::room_for;
use runner::run::run_file;
use runs::x9520_first;
use std::io::Read;

// The longest job file.
const MOST: usize = 4096;

// A longer input is not run: it has this one line.
fn too_long() -> JobResult {
    JobResult {
        number: 0,
        outcome: Err(Refused::new(Refusal::OutOfLimit, MOST)),
    }
}

// The bytes of the input, up to one more than a job file may have.
fn read_file(rt: &HostRuntime) -> anyhow::Result<Vec<u8>> {
    let mut file = Vec::new(rt.alloc());
    rt.stdin().take(MOST as u64 + 1).read_to_end(&mut file)?;
    Ok(file)
}

fn run(rt: &HostRuntime, file: &[u8]) -> anyhow::Result<()> {
    let mut board = x9520_first(Ds1846::fresh());
    let mut lines = Levels {
        wp: false,
        v2ro: false,
        v3ro: false,
    };
    let room = room_for(file);
    let blank = JobResult {
        number: 0,
        outcome: Ok(Done { from: 0, count: 0 }),
    };
    let mut results = vec![in rt.alloc(); blank; room.results]?;
    let mut bytes = vec![in rt.alloc(); 0u8; room.bytes]?;
    {
        let mut result_row = Row::new(&mut results);
        let mut byte_row = Row::new(&mut bytes);
        run_file(&mut board, &mut lines, file, &mut result_row, &mut byte_row)?;
    }
    for &result in &results {
        let bytes = &bytes;
        rt.println(ResultLine { result, bytes })?;
    }
    Ok(())
}

fn main(rt: HostRuntime) -> anyhow::Result<()> {
    let file = read_file(&rt)?;
    if file.len() > MOST {
        let result = too_long();
        rt.println(ResultLine { result, bytes: &[] })?;
        return Ok(());
    }
    run(&rt, &file)
}
