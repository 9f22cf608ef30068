// Runs cases and prints a line for each.

use crate::case::Case;
use crate::setup::Setup;
use board::board::Board;
use ds1846::state::Ds1846;
use echo::Echo;
use pair::Pair;
use part::Part;
use std::io;
use x9520::state::X9520;

// The chips of a board. Its parts are numbered from 0 in the order of the names; an echo is none of them.
#[derive(Clone, Copy)]
pub enum Chips {
    X9520Ds1846,
    Ds1846Ds1846,
    Ds1846X9520Ds1846,
    X9520Echo,
}

fn run_on<P: Part + Drop + PartialEq>(
    rt: &(impl Print + AllocGlobal),
    tally: &mut Tally,
    case: &Case,
    part: P,
    other: P,
) -> anyhow::Result<()> {
    let mut setup = Setup::new(rt.alloc(), part);
    let mut other = Board::new(other);
    for &step in case.steps {
        setup.step(step, &mut other)?;
    }
    tally.tell(rt, case.name, case.expected, setup.came()?)?;
    Ok(())
}

pub(super) fn x9520_ds1846() -> Pair<X9520, Ds1846> {
    Pair::new(X9520::fresh(), Ds1846::fresh())
}

fn ds1846_ds1846() -> Pair<Ds1846, Ds1846> {
    Pair::new(Ds1846::fresh(), Ds1846::fresh())
}

fn ds1846_x9520_ds1846() -> Pair<Ds1846, Pair<X9520, Ds1846>> {
    Pair::new(Ds1846::fresh(), x9520_ds1846())
}

fn x9520_echo() -> Pair<X9520, Echo> {
    Pair::new(X9520::fresh(), Echo::new())
}

// How many cases agree, of how many.
#[derive(Clone, Copy)]
pub struct Tally {
    pub agree: usize,
    pub all: usize,
}

impl Tally {
    pub(super) fn new() -> Tally {
        Tally { agree: 0, all: 0 }
    }

    // Prints the line of a case.
    fn tell(&mut self, rt: &impl Print, name: &str, expected: &str, came: &str) -> io::Result<()> {
        let agrees = came == expected;
        let word = if agrees { "agrees" } else { "differs" };
        self.all = self.all.saturating_add(1);
        self.agree = self.agree.saturating_add(usize::from(agrees));
        println!(rt; "{name}: expected {expected}, came {came}: {word}")
    }

    // Runs cases, each on a fresh board with these chips.
    pub(super) fn run(
        &mut self,
        rt: &(impl Print + AllocGlobal),
        chips: Chips,
        cases: &[Case],
    ) -> anyhow::Result<()> {
        for case in cases {
            match chips {
                Chips::X9520Ds1846 => run_on(rt, self, case, x9520_ds1846(), x9520_ds1846())?,
                Chips::Ds1846Ds1846 => run_on(rt, self, case, ds1846_ds1846(), ds1846_ds1846())?,
                Chips::Ds1846X9520Ds1846 => run_on(
                    rt,
                    self,
                    case,
                    ds1846_x9520_ds1846(),
                    ds1846_x9520_ds1846(),
                )?,
                Chips::X9520Echo => run_on(rt, self, case, x9520_echo(), x9520_echo())?,
            }
        }
        Ok(())
    }
}
