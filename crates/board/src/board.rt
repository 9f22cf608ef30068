// A board: the bus and the part on it. Nothing lends either of them to be changed: only samples, finishes and power cuts move a board.
ghost use Rattle.std.specs.Prelude.{◌≡◌, [], ◌∷◌};
ghost use Rattle.refusals.specs.Told.{told};
ghost use Rattle.board.specs.Cause.{Caused};
ghost use Rattle.board.specs.Obeys.{Obeys};
ghost use Rattle.board.specs.Recovery.{Recoverable};
ghost use Rattle.board.specs.Runs.{SampledBy, GoesOn};
ghost use Rattle.board.specs.Samples.{sample_byte};
ghost use Rattle.board.specs.Engine.{idle, whole, rise, fetch, go_on, fall, start, stop, with_levels};
ghost use Rattle.board.specs.Engine.{sampled, sample_told, finished, finish_told, cut, numbered_told, cell_told, tap_told};

use super::bus::{Bus, Kind, Next, Phase};
use super::sample::Sample;
use part::Part;
use part::levels::Levels;
use part::power::PowerCut;
use refusals::Refusal;

#[derive(Drop, PartialEq, Eq, Debug)]
pub struct Board<P> {
    bus: Bus,
    part: P,
}

impl<P: Part> Board<P> {
    // A board on which every chip of the part is fresh. What holds of every run of calls from here on, whatever the part, stands here:
    // each state is what the rules make of the calls so far, a stored byte changes only for cause, ten clocks free the wires, and a run
    // goes on as one run. What holds of the chips besides stands in the crate `runs`.
    #[tactic(auto, using(crate::proofs::Lawful::made_obeys, crate::proofs::Lawful::made_causes, crate::proofs::Lawful::made_recovers, crate::proofs::Splices::goes_on))]
    pub fn new(part: P) -> Board<P>
        ensures made { result ≡ idle (P.Part.ops.renew part) }
        ensures obeys { Obeys P.Part.ops result }
        ensures causes { Caused P.Part.ops result }
        ensures recovers { Recoverable P.Part.ops result }
        ensures goes_on { GoesOn P.Part.ops result }
    {
        let mut part = part;
        part.renew();
        let bus = Bus::idle();
        Board { bus, part }
    }

    // Gives the board one sample by its byte and answers SDA on the wire.
    pub fn sample(&mut self, sample: u8) -> Result<bool, Refusal>
        ensures after { self.new ≡ sampled P.Part.ops self.old sample }
        ensures answer { told (λ x. x) result ≡ sample_told P.Part.ops self.old sample }
    {
        let sample = Sample::try_from(sample)?;
        Ok(self.put(sample.scl, sample.sda, &sample.levels))
    }

    // Gives the board one sample, which it cannot refuse, and answers SDA on the wire.
    #[tactic(auto, using(crate::proofs::Samples::put_sampled))]
    pub fn put(&mut self, scl: bool, sda: bool, levels: &Levels) -> bool
        ensures after { self.new ≡ with_levels P.Part.ops self.old scl sda levels.now }
        ensures answer { result ≡ self.new.bus.sda }
        ensures sampled { SampledBy P.Part.ops self.old (sample_byte levels.now scl sda ∷ []) self.new }
    {
        let levels = *levels;
        self.part.level(levels);
        if self.bus.scl && !scl {
            self.fall();
        }
        let wire = sda && !self.bus.phase.pulls();
        if scl {
            if !self.bus.scl {
                self.rise(wire, levels);
            } else if self.bus.sda && !wire {
                self.start();
            } else if !self.bus.sda && wire {
                self.stop(levels);
            }
        }
        self.bus.scl = scl;
        self.bus.sda = wire;
        wire
    }

    // Ends the writes under way in a numbered part.
    pub fn finish(&mut self, part: usize) -> Result<(), Refusal>
        ensures after { self.new ≡ finished P.Part.ops self.old part }
        ensures answer { told (λ x. x) result ≡ finish_told P.Part.ops self.old part }
    {
        self.numbered(part)?;
        if !self.part.busy(part) {
            return Err(Refusal::NothingUnderWay);
        }
        self.part.finish(part);
        Ok(())
    }

    // Cuts the power: the part powers up again, and the wires are as on a board just made.
    pub fn cut(&mut self, power: PowerCut)
        ensures { self.new ≡ cut P.Part.ops self.old power }
    {
        self.part.cut(power);
        self.bus = Bus::idle();
    }

    // The stored byte of a cell.
    pub fn cell(&self, part: usize, n: usize) -> Result<u8, Refusal>
        ensures { told (λ x. x) result ≡ cell_told P.Part.ops self.now part n }
    {
        self.numbered(part)?;
        self.part.cell(part, n).ok_or(Refusal::NoSuchCell)
    }

    // Where a wiper stands.
    pub fn tap(&self, part: usize, n: usize) -> Result<u16, Refusal>
        ensures { told (λ x. x) result ≡ tap_told P.Part.ops self.now part n }
    {
        self.numbered(part)?;
        self.part.tap(part, n).ok_or(Refusal::NoSuchCell)
    }

    // Refuses a number that no part of the board has.
    fn numbered(&self, part: usize) -> Result<(), Refusal>
        ensures { told (λ x. x) result ≡ numbered_told P.Part.ops self.now part }
    {
        match self.part.past(part) {
            None => Ok(()),
            Some(_) => Err(Refusal::NoSuchPart),
        }
    }

    // The edges and bits that few samples bring are calls of their own in the program too: so the way of most samples stays short.
    #[inline(never)]
    fn start(&mut self)
        ensures { self.new ≡ start P.Part.ops self.old }
    {
        self.part.start();
        self.bus.phase = Phase::no_bits(Kind::Address);
    }

    #[inline(never)]
    fn stop(&mut self, levels: Levels)
        ensures { self.new ≡ stop P.Part.ops self.old levels }
    {
        let ended = self.bus.phase.clean();
        self.part.stop(ended, levels);
        self.bus.phase = Phase::Closed;
    }

    fn rise(&mut self, bit: bool, levels: Levels)
        ensures { self.new ≡ rise P.Part.ops self.old bit levels }
    {
        match self.bus.phase {
            Phase::Closed | Phase::Deaf => {}
            Phase::Taking { kind, bits, byte } => {
                let byte = byte % 128 * 2 + u8::from(bit);
                if bits < 7 {
                    let bits = bits + 1;
                    self.bus.phase = Phase::Taking { kind, bits, byte };
                } else {
                    self.whole(kind, levels, byte);
                }
            }
            Phase::AckPulled { next } => self.bus.phase = Phase::AckRisen { next },
            Phase::Giving {
                address,
                rises,
                rest,
                bit,
            } => {
                let rises = if rises < 8 { rises + 1 } else { rises };
                self.bus.phase = Phase::Giving {
                    address,
                    rises,
                    rest,
                    bit,
                };
            }
            Phase::Released { address } => {
                self.bus.phase = if bit {
                    Phase::Deaf
                } else {
                    Phase::Wanted { address }
                };
            }
            // No rise comes here: a fall lies before it.
            _ => self.bus.phase = Phase::Deaf,
        }
    }

    // A byte is whole at its eighth rise.
    #[inline(never)]
    fn whole(&mut self, kind: Kind, levels: Levels, byte: u8)
        ensures { self.new ≡ whole P.Part.ops kind self.old levels byte }
    {
        let (acked, next) = match kind {
            Kind::Address => {
                let acked = self.part.address(byte);
                let next = if byte % 2 == 1 {
                    Next::ThenGiven { address: byte }
                } else {
                    Next::ThenFirst { address: byte }
                };
                (acked, next)
            }
            Kind::First { address } => (
                self.part.aim(address, levels, byte),
                Next::ThenLater { address },
            ),
            Kind::Later { address } => (
                self.part.take(address, levels, byte),
                Next::ThenLater { address },
            ),
        };
        self.bus.phase = if acked {
            Phase::AckDue { next }
        } else {
            Phase::Deaf
        };
    }

    fn fall(&mut self)
        ensures { self.new ≡ fall P.Part.ops self.old }
    {
        match self.bus.phase {
            Phase::AckDue { next } => {
                self.bus.phase = Phase::AckPulled { next };
            }
            Phase::AckRisen { next } => self.go_on(next),
            Phase::Giving {
                address,
                rises,
                rest,
                ..
            } => {
                self.bus.phase = if rises < 8 {
                    let bit = rest >= 128;
                    let rest = rest % 128 * 2;
                    Phase::Giving {
                        address,
                        rises,
                        rest,
                        bit,
                    }
                } else {
                    Phase::Released { address }
                };
            }
            Phase::Wanted { address } => self.fetch(address),
            _ => {}
        }
    }

    // What follows the ninth bit of an acknowledged byte.
    #[inline(never)]
    fn go_on(&mut self, next: Next)
        ensures { self.new ≡ go_on P.Part.ops next self.old }
    {
        match next {
            Next::ThenFirst { address } => {
                self.bus.phase = Phase::no_bits(Kind::First { address });
            }
            Next::ThenLater { address } => {
                self.bus.phase = Phase::no_bits(Kind::Later { address });
            }
            Next::ThenGiven { address } => self.fetch(address),
        }
    }

    #[inline(never)]
    fn fetch(&mut self, address: u8)
        ensures { self.new ≡ fetch P.Part.ops self.old address }
    {
        let byte = self.part.give(address);
        self.bus.phase = Phase::Giving {
            address,
            rises: 0,
            rest: byte % 128 * 2,
            bit: byte / 128 % 2 == 1,
        };
    }
}
