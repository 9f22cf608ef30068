// Two parts on the same wires, as one part: the first part that has an address alone answers it,
// and the numbers of the second's parts come after those of the first's.
#![tactic(auto)]

ghost use Rattle.std.specs.Prelude.{◌≡◌};
ghost use Rattle.pair.specs.Both.{both, join};
ghost use Rattle.pair.specs.Keeping.{keeps_both};
ghost use Rattle.pair.specs.Seats.{Firsts, Seconds};

use part::Part;
use part::levels::Levels;
use part::power::PowerCut;

#[derive(Drop, PartialEq, Eq, Debug)]
pub struct Pair<A, B> {
    first: A,
    second: B,
}

impl<A: Part, B: Part> Pair<A, B> {
    pub fn new(first: A, second: B) -> Pair<A, B>
        ensures { result ≡ join first second }
    {
        Pair { first, second }
    }

    // Does nothing. It promises that a chip of type C that sits in either part sits in the pair:
    // a clause of `new` could not speak of every type C, and this function's are for each C that it is called at.
    pub fn seats<C: Part>()
        ensures firsts { Firsts A.Part.ops B.Part.ops C.Part.ops }
        ensures seconds { Seconds A.Part.ops B.Part.ops C.Part.ops }
    {}
}

impl<A: Part, B: Part> Part for Pair<A, B> {
    ghost ops = { both A.Part.ops B.Part.ops };

    ghost keeps = { keeps_both A.Part.ops B.Part.ops A.Part.keeps B.Part.keeps };

    fn past(&self, part: usize) -> Option<usize> {
        match self.first.past(part) {
            None => None,
            Some(rest) => self.second.past(rest),
        }
    }

    fn has(&self, address: u8) -> bool {
        self.first.has(address) || self.second.has(address)
    }

    fn owns(&self, part: usize, address: u8) -> bool {
        if self.first.has(address) {
            return self.first.owns(part, address);
        }
        match self.first.past(part) {
            None => false,
            Some(rest) => self.second.owns(rest, address),
        }
    }

    fn cell(&self, part: usize, n: usize) -> Option<u8> {
        match self.first.past(part) {
            None => self.first.cell(part, n),
            Some(rest) => self.second.cell(rest, n),
        }
    }

    fn offset(&self, part: usize, n: usize) -> u8 {
        match self.first.past(part) {
            None => self.first.offset(part, n),
            Some(rest) => self.second.offset(rest, n),
        }
    }

    fn staged(&self, part: usize, n: usize) -> Option<u8> {
        match self.first.past(part) {
            None => self.first.staged(part, n),
            Some(rest) => self.second.staged(rest, n),
        }
    }

    fn under_way(&self, part: usize, n: usize) -> Option<u8> {
        match self.first.past(part) {
            None => self.first.under_way(part, n),
            Some(rest) => self.second.under_way(rest, n),
        }
    }

    fn busy(&self, part: usize) -> bool {
        match self.first.past(part) {
            None => self.first.busy(part),
            Some(rest) => self.second.busy(rest),
        }
    }

    fn tap(&self, part: usize, n: usize) -> Option<u16> {
        match self.first.past(part) {
            None => self.first.tap(part, n),
            Some(rest) => self.second.tap(rest, n),
        }
    }

    fn heard(&self, byte: u8) -> bool {
        if self.first.has(byte / 2) {
            self.first.heard(byte)
        } else {
            self.second.heard(byte)
        }
    }

    fn hears(&self, byte: u8) -> bool {
        if self.first.has(byte / 2) {
            self.first.hears(byte)
        } else {
            self.second.hears(byte)
        }
    }

    fn renew(&mut self) {
        self.first.renew();
        self.second.renew();
    }

    fn start(&mut self) {
        self.first.start();
        self.second.start();
    }

    fn address(&mut self, byte: u8) -> bool {
        if self.first.has(byte / 2) {
            self.first.address(byte)
        } else {
            self.second.address(byte)
        }
    }

    fn aim(&mut self, address: u8, levels: Levels, byte: u8) -> bool {
        if self.first.has(address / 2) {
            self.first.aim(address, levels, byte)
        } else {
            self.second.aim(address, levels, byte)
        }
    }

    fn take(&mut self, address: u8, levels: Levels, byte: u8) -> bool {
        if self.first.has(address / 2) {
            self.first.take(address, levels, byte)
        } else {
            self.second.take(address, levels, byte)
        }
    }

    fn give(&mut self, address: u8) -> u8 {
        if self.first.has(address / 2) {
            self.first.give(address)
        } else {
            self.second.give(address)
        }
    }

    fn level(&mut self, levels: Levels) {
        self.first.level(levels);
        self.second.level(levels);
    }

    fn stop(&mut self, clean: bool, levels: Levels) {
        self.first.stop(clean, levels);
        self.second.stop(clean, levels);
    }

    fn finish(&mut self, part: usize) {
        match self.first.past(part) {
            None => self.first.finish(part),
            Some(rest) => self.second.finish(rest),
        }
    }

    fn cut(&mut self, power: PowerCut) {
        self.first.cut(power);
        self.second.cut(power);
    }
}
