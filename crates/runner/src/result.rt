// What became of each job of a file.
ghost use Rattle.std.specs.Prelude.{◌≡◌};
ghost use Rattle.refusals.specs.Told.{number};

use refusals::Refusal;
use rows::keyed::Keyed;

// The answered bytes stand in the byte list, `count` of them from `from` on: two numbers and no slice, since the list is lent
// and still grows.
#[derive(Clone, Copy, PartialEq, Eq, Debug)]
pub struct Done {
    pub from: usize,
    pub count: usize,
}

// What is told of a refused job: the refusal's number, and a place. The refusal itself is not kept, since the place of a job that
// cannot be decoded is not the refusal's own.
#[derive(Clone, Copy, PartialEq, Eq, Debug)]
pub struct Refused {
    pub number: u8,
    pub place: usize,
}

impl Refused {
    pub fn new(refusal: Refusal, place: usize) -> Refused
        ensures { result ≡ record { number = number refusal; place = place } }
    {
        Refused {
            number: refusal.number(),
            place,
        }
    }
}

// The jobs of a file are numbered from 1.
#[derive(Clone, Copy, PartialEq, Eq, Debug)]
pub struct JobResult {
    pub number: usize,
    pub outcome: Result<Done, Refused>,
}

// A result is found by its job's number.
impl Keyed for JobResult {
    ghost keyof = { λ result. result.number };

    fn key(&self) -> usize {
        self.number
    }
}
