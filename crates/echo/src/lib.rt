// The smallest whole part, to be copied for one of your own: it listens at 21h and gives back the last byte written to it.
// Yours: what it is, in a line.
#![tactic(auto)]

ghost use Rattle.std.specs.Prelude.{◌≡◌};
ghost use Rattle.echo.specs.Chip.{echo, fresh};
ghost use Rattle.echo.specs.Keeping.{keeps_echo};

use part::Part;
use part::levels::Levels;
use part::power::PowerCut;

// Yours: its 7-bit address.
const ADDRESS: u8 = 0x21;

// Yours: keep `heard`, the address byte heard in this transfer; in place of `last` whatever your part remembers.
#[derive(Clone, Copy, PartialEq, Eq, Debug)]
pub struct Echo {
    heard: Option<u8>,
    last: u8,
}

impl Echo {
    // Yours: as it comes from power-up, with nothing heard.
    pub fn new() -> Echo
        ensures { result ≡ fresh }
    {
        Echo {
            heard: None,
            last: 0xff,
        }
    }
}

// The methods have their contracts from the trait: each does and answers what its field in Chip.antt says.
impl Part for Echo {
    ghost ops = { echo };

    ghost keeps = { keeps_echo };

    // Yours: its addresses, if it has more than one.
    fn has(&self, address: u8) -> bool {
        address == ADDRESS
    }

    fn heard(&self, byte: u8) -> bool {
        self.heard == Some(byte)
    }

    // Yours: a part that may be busy hears nothing meanwhile.
    fn hears(&self, byte: u8) -> bool {
        byte / 2 == ADDRESS
    }

    // The making of a board calls it, and leaves what is no chip as it is. Yours, if it is a chip: as a new one.
    fn renew(&mut self) {}

    fn start(&mut self) {
        self.heard = None;
    }

    fn address(&mut self, byte: u8) -> bool {
        let ack = self.hears(byte);
        self.heard = if ack { Some(byte) } else { None };
        ack
    }

    // Yours: what the first byte means, if not the same as a later one; often it is a register's number.
    fn aim(&mut self, address: u8, levels: Levels, byte: u8) -> bool {
        self.take(address, levels, byte)
    }

    // Yours: what a byte does. With no ACK where the transfer is not its own.
    fn take(&mut self, address: u8, _levels: Levels, byte: u8) -> bool {
        let ack = self.heard(address);
        if ack {
            self.last = byte;
        }
        ack
    }

    // Yours: which byte is read, and what moves on with it.
    fn give(&mut self, _address: u8) -> u8 {
        self.last
    }

    // Yours: what takes place at the STOP only, if it is clean or if WP is LOW.
    fn stop(&mut self, _clean: bool, _levels: Levels) {
        self.heard = None;
    }

    // Yours: what outlasts a power cut.
    fn cut(&mut self, _power: PowerCut) {
        *self = Echo::new();
    }

    // From here on alike in every part with no cells and no wipers that levels alone do not move. Yours: nothing to change.
    fn past(&self, part: usize) -> Option<usize> {
        Some(part)
    }

    fn owns(&self, _part: usize, _address: u8) -> bool {
        false
    }

    fn cell(&self, _part: usize, _n: usize) -> Option<u8> {
        None
    }

    fn offset(&self, _part: usize, _n: usize) -> u8 {
        0
    }

    fn staged(&self, _part: usize, _n: usize) -> Option<u8> {
        None
    }

    fn under_way(&self, _part: usize, _n: usize) -> Option<u8> {
        None
    }

    fn busy(&self, _part: usize) -> bool {
        false
    }

    fn tap(&self, _part: usize, _n: usize) -> Option<u16> {
        None
    }

    fn level(&mut self, _levels: Levels) {}

    fn finish(&mut self, _part: usize) {}
}
