// A wiper: its register and how many taps it has.
ghost use Rattle.std.specs.Prelude.{◌≡◌};
ghost use Rattle.dcp.specs.Wiper.{entry_for, at_byte, tap_of, Holds};

use super::taps::{Entry, entry_of};

#[derive(Clone, Copy, PartialEq, Eq, Debug)]
pub struct Dcp {
    register: u8,
    taps: u16,
}

// The tap that a byte stands for, where there are so many taps, and the byte of that tap.
fn entry_for(taps: u16, byte: u8) -> Entry
    ensures { result ≡ entry_for taps byte }
{
    if taps == 100 {
        entry_of(byte)
    } else {
        let tap = u16::from(byte).min(taps.saturating_sub(1)) as u8;
        Entry { tap, byte: tap }
    }
}

impl Dcp {
    // The wiper at the tap of a byte.
    #[tactic(auto, using(crate::proofs::Standing::holds))]
    pub fn new(taps: u16, byte: u8) -> Dcp
        ensures made { result ≡ at_byte taps byte }
        ensures holds { Holds byte result }
    {
        Dcp {
            register: entry_for(taps, byte).byte,
            taps,
        }
    }

    pub fn register(&self) -> u8
        ensures { result ≡ self.now.register }
    {
        self.register
    }

    pub fn tap(&self) -> u16
        ensures { result ≡ tap_of self.now }
    {
        u16::from(entry_for(self.taps, self.register).tap)
    }

    // Moves the wiper to the tap of a byte.
    pub fn move_to(&mut self, byte: u8)
        ensures moved { self.new ≡ at_byte self.old.taps byte }
        ensures holds { Holds byte self.new }
    {
        *self = Dcp::new(self.taps, byte);
    }
}
