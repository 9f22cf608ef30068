// The register: its byte, and what a byte written to it does, when it is taken and at the STOP.
ghost use Rattle.std.specs.Prelude.{◌≡◌};
ghost use Rattle.x9520.specs.Register.{stored_register, register_byte, latched};
ghost use Rattle.x9520.specs.Writing.{latches, armed_verdict, register_verdict, acks, taken};

use super::state::{Mode, X9520};
use protection::latches::Latches;
use protection::lock::wp_forbids;

// The latches after a latch byte. It is matched as it comes on the wire: a byte waits for the STOP, whatever it will do there.
pub(super) fn latched(mut latches: Latches, byte: u8) -> Latches
    ensures { result ≡ latched latches byte }
{
    match byte {
        0 => latches = Latches::new(),
        2 => latches.enable(),
        6 => latches.arm(),
        _ => {}
    }
    latches
}

impl X9520 {
    pub(super) fn register_byte(&self) -> u8
        ensures { result ≡ register_byte self.now }
    {
        let stored = self.stored_register();
        stored / 128 * 128
            + u8::from(self.flags.v2os) * 64
            + u8::from(self.flags.v3os) * 32
            + stored / 8 % 4 * 8
            + u8::from(self.latches.rwel()) * 4
            + u8::from(self.latches.wel()) * 2
            + stored % 2
    }

    // The byte waits for the STOP to change the latches.
    fn wait_to_latch(&mut self, byte: u8) -> bool
        ensures answer { result ≡ acks latches }
        ensures after { self.new ≡ taken latches self.old byte }
    {
        self.mode = Mode::Latching { byte };
        true
    }

    // A byte other than 00h, with RWEL set.
    fn take_armed(&mut self, wp: bool, byte: u8) -> bool
        ensures answer { result ≡ acks (armed_verdict (stored_register self.old) wp byte) }
        ensures after { self.new ≡ taken (armed_verdict (stored_register self.old) wp byte) self.old byte }
    {
        if byte / 2 % 2 != 1 {
            return self.refuse();
        }
        if byte / 4 % 2 == 1 {
            return self.wait_to_latch(byte);
        }
        let register = self.stored_register();
        if wp_forbids(true, wp, register) {
            return self.refuse();
        }
        self.eeprom.stage(259, byte);
        self.mode = Mode::Storing { byte };
        true
    }

    // The one data byte for the register.
    pub(super) fn take_register(&mut self, wp: bool, byte: u8) -> bool
        ensures answer { result ≡ acks (register_verdict self.old.latches (stored_register self.old) wp byte) }
        ensures after { self.new ≡ taken (register_verdict self.old.latches (stored_register self.old) wp byte) self.old byte }
    {
        let register = self.stored_register();
        if wp_forbids(false, wp, register) {
            return self.refuse();
        }
        if byte == 0 {
            return self.wait_to_latch(byte);
        }
        if self.latches.rwel() {
            return self.take_armed(wp, byte);
        }
        if byte == 2 || (byte == 6 && self.latches.wel()) {
            self.wait_to_latch(byte)
        } else {
            self.refuse()
        }
    }
}
