// The memory: bytes are staged at the counter, and read from there.
ghost use Rattle.std.specs.Prelude.{◌≡◌, Some};
ghost use Rattle.x9520.specs.Chip.{given, gave};
ghost use Rattle.x9520.specs.Register.{stored_register};
ghost use Rattle.x9520.specs.Writing.{memory_verdict, acks, taken};
ghost use Rattle.x9520.specs.declared.state.Device.TheVariants.{Memory};

use super::state::{Mode, X9520};
use eeprom::pages::next_in_page;
use protection::lock::{locks_memory, wp_forbids};

impl X9520 {
    pub(super) fn take_memory(&mut self, wp: bool, byte: u8) -> bool
        ensures answer { result ≡ acks (memory_verdict self.old.latches (stored_register self.old) self.old.counter wp) }
        ensures after { self.new ≡ taken (memory_verdict self.old.latches (stored_register self.old) self.old.counter wp) self.old byte }
    {
        if !self.latches.wel() {
            return self.refuse();
        }
        let register = self.stored_register();
        if wp_forbids(true, wp, register) {
            return self.refuse();
        }
        if locks_memory(register, self.counter) {
            self.latches.disarm();
            return self.refuse();
        }
        self.eeprom.stage(usize::from(self.counter), byte);
        self.counter = next_in_page::<16>(self.counter);
        self.mode = Mode::MemoryBytes;
        true
    }

    pub(super) fn give_memory(&mut self) -> u8
        ensures answer { result ≡ given (Some Memory) self.old }
        ensures after { self.new ≡ gave (Some Memory) self.old }
    {
        let byte = self.eeprom.byte(usize::from(self.counter)).unwrap_or(0);
        self.counter = self.counter.wrapping_add(1);
        byte
    }
}
