// Runs worked cases on the real code and prints a line for each: what was expected, what came, and whether they agree.
#![tactic(auto)]

mod case;
mod dcps;
mod ds1846_cases;
mod file_run;
mod files;
mod jobs;
mod limits;
mod lists;
mod lock;
mod makers;
mod memory;
mod moves;
mod no_ack;
mod notes;
mod pairs;
mod parts;
mod protected;
mod recordings;
mod recoveries;
mod refused;
mod register;
mod results;
mod samples;
mod setup;
mod tables;
mod tally;
mod told;
mod transfers;
mod wipers;
mod wire;

use anyhow::ensure;
use tally::{Chips, Tally};

// The cases on a board with an X9520 and a DS1846.
fn run_all(rt: &(impl Print + AllocGlobal), tally: &mut Tally) -> anyhow::Result<()> {
    let groups = [
        samples::CASES,
        transfers::CASES,
        refused::CASES,
        no_ack::CASES,
        lists::CASES,
        results::CASES,
        parts::CASES,
        ds1846_cases::CASES,
        memory::CASES,
        register::CASES,
        protected::CASES,
        lock::CASES,
        dcps::CASES,
        wipers::CASES,
        jobs::CASES,
        recoveries::CASES,
        limits::CASES,
        makers::CASES,
        notes::CASES,
        moves::CASES,
        tables::CASES,
        recordings::CASES,
    ];
    for group in groups {
        tally.run(rt, Chips::X9520Ds1846, group)?;
    }
    Ok(())
}

fn main(rt: HostRuntime) -> anyhow::Result<()> {
    let mut tally = Tally::new();
    run_all(&rt, &mut tally)?;
    tally.run(&rt, Chips::Ds1846Ds1846, pairs::TWO_DS1846)?;
    tally.run(&rt, Chips::Ds1846X9520Ds1846, pairs::THREE_CHIPS)?;
    tally.run(&rt, Chips::X9520Echo, pairs::X9520_ECHO)?;
    let Tally { agree, all } = tally;
    println!(rt; "{agree} of {all} agree")?;
    ensure!(agree == all, "{agree} of {all} agree");
    Ok(())
}
