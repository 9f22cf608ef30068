// What the chip answers, and what moves it.
ghost use Rattle.std.specs.Prelude.{◌≡◌};
ghost use Rattle.eeprom.specs.Cells.{byte_at, unstages};
ghost use Rattle.ds1846.specs.Chip.{ds1846, chip, tap_of};
ghost use Rattle.ds1846.specs.declared.state.Mode.TheVariants.{Idle};
ghost use Rattle.ds1846.specs.Keeping.{keeps_ds1846};

use super::state::{Ds1846, Mode};
use eeprom::pages::next_in_page;
use eeprom::parts::of_part;
use part::Part;
use part::levels::Levels;
use part::power::PowerCut;

const ADDRESS: u8 = 0x51;

const WRITE: u8 = 0xa2;

const READ: u8 = 0xa3;

// The tap of a wiper that has 100: what is above the last means the last.
fn tap_of(n: u8) -> u16
    ensures { result ≡ tap_of n }
{
    u16::from(n.min(99))
}

impl Ds1846 {
    fn byte(&self, n: usize) -> u8
        ensures { result ≡ byte_at self.now.eeprom n }
    {
        self.eeprom.byte(n).unwrap_or(0)
    }

    // Nothing staged stays, and the chip is out of the transfer. Its contract speaks of the whole chip, so each chip has its own.
    fn leave(&mut self)
        ensures { self.new ≡ chip (unstages self.old.eeprom) self.old.counter Idle }
    {
        self.eeprom.unstage();
        self.mode = Mode::Idle;
    }
}

impl Part for Ds1846 {
    ghost ops = { ds1846 };

    ghost keeps = { keeps_ds1846 };

    // What every such chip answers alike is a line each, here and in its like: the methods of a trait stand in its impls.
    fn past(&self, part: usize) -> Option<usize> {
        part.checked_sub(1)
    }

    fn has(&self, address: u8) -> bool {
        address == ADDRESS
    }

    fn owns(&self, part: usize, address: u8) -> bool {
        part == 0 && self.has(address)
    }

    fn cell(&self, part: usize, n: usize) -> Option<u8> {
        of_part(part, self.eeprom.byte(n), None)
    }

    fn offset(&self, _part: usize, n: usize) -> u8 {
        (n % 16) as u8
    }

    fn staged(&self, part: usize, n: usize) -> Option<u8> {
        of_part(part, self.eeprom.staged(n), None)
    }

    fn under_way(&self, part: usize, n: usize) -> Option<u8> {
        of_part(part, self.eeprom.under_way(n), None)
    }

    fn busy(&self, part: usize) -> bool {
        part == 0 && self.eeprom.busy()
    }

    // Each wiper follows a cell of its own.
    fn tap(&self, part: usize, n: usize) -> Option<u16> {
        match (part, n) {
            (0, 0) => Some(tap_of(self.byte(0xf9) % 128)),
            (0, 1) => Some(u16::from(self.byte(0xf8))),
            (0, 2) => Some(tap_of(self.byte(0xfa) % 128)),
            _ => None,
        }
    }

    fn heard(&self, byte: u8) -> bool {
        match self.mode {
            Mode::Idle => false,
            Mode::Aiming | Mode::Writing => byte == WRITE,
            Mode::Reading => byte == READ,
        }
    }

    fn hears(&self, byte: u8) -> bool {
        byte / 2 == ADDRESS && !self.eeprom.busy()
    }

    fn renew(&mut self) {
        *self = Ds1846::fresh();
    }

    fn start(&mut self) {
        self.leave();
    }

    fn address(&mut self, byte: u8) -> bool {
        let ack = self.hears(byte);
        self.leave();
        self.mode = if !ack {
            Mode::Idle
        } else if byte % 2 == 1 {
            Mode::Reading
        } else {
            Mode::Aiming
        };
        ack
    }

    fn aim(&mut self, address: u8, _levels: Levels, byte: u8) -> bool {
        let ack = self.mode == Mode::Aiming && address == WRITE && !self.eeprom.busy();
        self.leave();
        if ack {
            self.counter = byte;
            self.mode = Mode::Writing;
        }
        ack
    }

    fn take(&mut self, address: u8, levels: Levels, byte: u8) -> bool {
        let ack = self.mode == Mode::Writing
            && address == WRITE
            && !self.eeprom.busy()
            && !levels.wp;
        if ack {
            self.eeprom.stage(usize::from(self.counter), byte);
            self.counter = next_in_page::<8>(self.counter);
        } else {
            self.leave();
        }
        ack
    }

    fn give(&mut self, address: u8) -> u8 {
        if self.mode != Mode::Reading || address != READ {
            return 0xff;
        }
        let byte = self.byte(usize::from(self.counter));
        self.counter = self.counter.wrapping_add(1);
        byte
    }

    fn level(&mut self, _levels: Levels) {}

    fn stop(&mut self, clean: bool, levels: Levels) {
        self.eeprom.stop(clean && !levels.wp);
        self.mode = Mode::Idle;
    }

    fn finish(&mut self, part: usize) {
        if part == 0 {
            self.eeprom.finish();
        }
    }

    fn cut(&mut self, power: PowerCut) {
        self.eeprom.cut(power.mask);
        self.counter = 0;
        self.mode = Mode::Idle;
    }
}
