// The makers of job records, each limit met and passed, and a number as the decoder reads it: docs/RULES.md, "The job file".

use crate::case::{Case, Step};
use crate::told::{Outcome, Told};
use jobfile::job::Job;
use jobfile::next_job;
use jobfile::read::Read;
use jobfile::wait::Wait;
use jobfile::write::Write;
use refusals::Refusal;

// What is done with no file and no board.
#[derive(Clone, Copy)]
pub enum Makers {
    // Writes to address 128, of 256 bytes and of 255; a read of no bytes; waits of 1001 polls and of 1000.
    Limits,
    // The part number of a finish, and the offset after it.
    Number(&'static [u8]),
}

pub static CASES: &[Case] = &[
    Case {
        name: "the makers of a write, a read and a wait keep their limits",
        steps: &[Step::Makers(Makers::Limits)],
        expected: "no 7, no 7, ok, no 7, no 7, ok",
    },
    Case {
        name: "82h 2Ch is 300",
        steps: &[Step::Makers(Makers::Number(&[4, 0x82, 0x2c]))],
        expected: "300, 3",
    },
];

impl Makers {
    pub(super) fn perform(self, told: &mut Told) {
        match self {
            Makers::Limits => limits(told),
            Makers::Number(file) => number(file, told),
        }
    }
}

fn outcome<T: Drop>(made: Result<T, Refusal>) -> Outcome {
    Outcome(made.map(|_| ()))
}

fn limits(told: &mut Told) {
    let long = [0u8; 256];
    told.tell(outcome(Write::new(128, &[], 0)));
    told.tell(outcome(Write::new(127, &long, 0)));
    told.tell(outcome(Write::new(127, &long[..255], 0)));
    told.tell(outcome(Read::new(0, &[], 0, 0)));
    told.tell(outcome(Wait::new(0, 1001)));
    told.tell(outcome(Wait::new(0, 1000)));
}

fn number(file: &[u8], told: &mut Told) {
    match next_job(file, 0) {
        Ok((Job::Finish(finish), next)) => {
            told.tell(finish.part);
            told.tell(next);
        }
        _ => told.tell("no finish"),
    }
}
