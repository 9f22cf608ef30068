// The DCPs: a byte moves the named wiper, and may be stored as well.
ghost use Rattle.std.specs.Prelude.{◌≡◌};
ghost use Rattle.part.specs.Ops.{below};
ghost use Rattle.x9520.specs.Chip.{wiper_register, tap_at};
ghost use Rattle.x9520.specs.Register.{stored_register};
ghost use Rattle.x9520.specs.Writing.{dcp_verdict, acks, taken, with_moved};

use super::state::{Mode, X9520};
use dcp::dcp::Dcp;
use protection::lock::{locks_wipers, wp_forbids};

// Lends one of the three to be moved, where there is such a one: by index, since after a `get_mut` the check knows nothing of
// the array but its length.
fn move_one(dcps: &mut [Dcp; 3], n: usize, byte: u8)
    ensures { dcps.new ≡ with_moved dcps.old n byte }
{
    if n < 3 {
        dcps[n].move_to(byte);
    }
}

impl X9520 {
    // The one data byte for the named DCP.
    pub(super) fn take_dcp(&mut self, store: bool, wp: bool, byte: u8) -> bool
        ensures answer { result ≡ acks (dcp_verdict self.old.latches (stored_register self.old) store wp) }
        ensures after { self.new ≡ taken (dcp_verdict self.old.latches (stored_register self.old) store wp) self.old byte }
    {
        let register = self.stored_register();
        if !self.latches.wel() || wp_forbids(store, wp, register) || locks_wipers(register) {
            return self.refuse();
        }
        move_one(&mut self.dcps, usize::from(self.named), byte);
        if store {
            self.eeprom.stage(256 + usize::from(self.named), byte);
        }
        self.mode = Mode::Moved;
        true
    }

    // The wiper register last named.
    pub(super) fn wiper_register(&self) -> u8
        ensures { result ≡ wiper_register self.now.dcps self.now.named }
    {
        let named = self.dcps.get(usize::from(self.named));
        named.map_or(0, |dcp| dcp.register())
    }

    // Where a wiper stands, or none where there is no such one.
    pub(super) fn wiper_tap(&self, n: usize) -> Option<u16>
        ensures { result ≡ below 3 n (tap_at self.now.dcps n) }
    {
        self.dcps.get(n).map(|dcp| dcp.tap())
    }
}
