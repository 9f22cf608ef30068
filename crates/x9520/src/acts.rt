// What the chip answers, and what moves it.
ghost use Rattle.std.specs.Prelude.{◌≡◌, ◌/◌, if◌then◌else◌};
ghost use Rattle.x9520.specs.Chip.{x9520, hears, latches_stopped, flags_stopped};
ghost use Rattle.x9520.specs.Register.{stored_register};
ghost use Rattle.x9520.specs.State.{known, device, write_byte, heard_in};
ghost use Rattle.x9520.specs.Writing.{aim_for, aim_acks, aimed};
ghost use Rattle.x9520.specs.Keeping.{keeps_x9520};

use super::register::latched;
use super::state::{Device, Flags, Mode, X9520};
use eeprom::parts::of_part;
use part::Part;
use part::levels::Levels;
use part::power::PowerCut;
use protection::latches::Latches;
use protection::lock::wp_forbids;

// What an address of the chip stands for.
fn device_at(address: u8) -> Option<Device>
    ensures { result ≡ (if known address then Some (device address) else None) }
{
    match address {
        0x50 => Some(Device::Memory),
        0x52 => Some(Device::Register),
        0x57 => Some(Device::Dcps),
        _ => None,
    }
}

// The address byte for writing, as it is on the wire.
fn write_byte(device: Device) -> u8
    ensures { result ≡ write_byte device }
{
    match device {
        Device::Memory => 0xa0,
        Device::Register => 0xa4,
        Device::Dcps => 0xae,
    }
}

// The address byte heard.
fn heard_in(mode: Mode) -> Option<u8>
    ensures { result ≡ heard_in mode }
{
    match mode {
        Mode::Idle => None,
        Mode::Aiming { device } => Some(write_byte(device)),
        Mode::MemoryBytes => Some(write_byte(Device::Memory)),
        Mode::DcpByte { .. } | Mode::Moved => Some(write_byte(Device::Dcps)),
        Mode::RegisterByte | Mode::Latching { .. } | Mode::Storing { .. } => {
            Some(write_byte(Device::Register))
        }
        Mode::Reading { device } => Some(write_byte(device) + 1),
    }
}

impl X9520 {
    // What an address byte that is heard now is for.
    fn device_heard(&self, byte: u8) -> Option<Device>
        ensures { result ≡ (if hears self.now byte then Some (device (byte / 2)) else None) }
    {
        if self.eeprom.busy() {
            None
        } else {
            device_at(byte / 2)
        }
    }

    // The first byte for a device.
    fn aim_at(&mut self, device: Device, byte: u8) -> bool
        ensures answer { result ≡ aim_acks (aim_for device byte) }
        ensures after { self.new ≡ aimed (aim_for device byte) self.old }
    {
        self.leave();
        match device {
            Device::Memory => {
                self.counter = byte;
                self.mode = Mode::MemoryBytes;
                true
            }
            Device::Register if byte == 0xff => {
                self.mode = Mode::RegisterByte;
                true
            }
            Device::Dcps if byte % 128 < 3 => {
                self.named = byte % 128;
                let store = byte >= 128;
                self.mode = Mode::DcpByte { store };
                true
            }
            _ => false,
        }
    }

    // The latches after a STOP.
    fn latches_stopped(&self, clean: bool, wp: bool) -> Latches
        ensures { result ≡ latches_stopped self.now.mode clean wp (stored_register self.now) self.now.latches }
    {
        let mut latches = self.latches;
        match self.mode {
            Mode::Latching { byte } if clean && !wp_forbids(false, wp, self.stored_register()) => {
                latched(latches, byte)
            }
            Mode::Storing { .. } if clean && !wp => {
                latches.disarm();
                latches
            }
            _ => latches,
        }
    }

    // The flags after a STOP.
    fn flags_stopped(&self, begins: bool, levels: Levels) -> Flags
        ensures { result ≡ flags_stopped self.now.mode begins levels self.now.flags }
    {
        match self.mode {
            Mode::Storing { byte } if begins => Flags {
                v2os: byte / 64 % 2 == 1 && levels.v2ro,
                v3os: byte / 32 % 2 == 1 && levels.v3ro,
            },
            _ => self.flags,
        }
    }
}

impl Part for X9520 {
    ghost ops = { x9520 };

    ghost keeps = { keeps_x9520 };

    // What every such chip answers alike is a line each, here and in its like: the methods of a trait stand in its impls.
    fn past(&self, part: usize) -> Option<usize> {
        part.checked_sub(1)
    }

    fn has(&self, address: u8) -> bool {
        device_at(address).is_some()
    }

    fn owns(&self, part: usize, address: u8) -> bool {
        part == 0 && self.has(address)
    }

    fn cell(&self, part: usize, n: usize) -> Option<u8> {
        of_part(part, self.eeprom.byte(n), None)
    }

    fn offset(&self, _part: usize, n: usize) -> u8 {
        (n % 16) as u8
    }

    fn staged(&self, part: usize, n: usize) -> Option<u8> {
        of_part(part, self.eeprom.staged(n), None)
    }

    fn under_way(&self, part: usize, n: usize) -> Option<u8> {
        of_part(part, self.eeprom.under_way(n), None)
    }

    fn busy(&self, part: usize) -> bool {
        part == 0 && self.eeprom.busy()
    }

    fn tap(&self, part: usize, n: usize) -> Option<u16> {
        // (not by `of_part`, which would search the table of taps for another part too)
        match part {
            0 => self.wiper_tap(n),
            _ => None,
        }
    }

    fn heard(&self, byte: u8) -> bool {
        heard_in(self.mode) == Some(byte)
    }

    fn hears(&self, byte: u8) -> bool {
        self.device_heard(byte).is_some()
    }

    fn renew(&mut self) {
        *self = X9520::fresh();
    }

    fn start(&mut self) {
        self.leave();
    }

    fn address(&mut self, byte: u8) -> bool {
        let heard = self.device_heard(byte);
        self.leave();
        self.mode = match heard {
            Some(device) if byte % 2 == 1 => Mode::Reading { device },
            Some(device) => Mode::Aiming { device },
            None => Mode::Idle,
        };
        heard.is_some()
    }

    fn aim(&mut self, address: u8, _levels: Levels, byte: u8) -> bool {
        if !self.heard(address) {
            return self.refuse();
        }
        match self.mode {
            Mode::Aiming { device } => self.aim_at(device, byte),
            _ => self.refuse(),
        }
    }

    fn take(&mut self, address: u8, levels: Levels, byte: u8) -> bool {
        if !self.heard(address) {
            return self.refuse();
        }
        match self.mode {
            Mode::MemoryBytes => self.take_memory(levels.wp, byte),
            Mode::DcpByte { store } => self.take_dcp(store, levels.wp, byte),
            Mode::RegisterByte => self.take_register(levels.wp, byte),
            _ => self.refuse(),
        }
    }

    fn give(&mut self, address: u8) -> u8 {
        if !self.heard(address) {
            return 0xff;
        }
        match self.mode {
            Mode::Reading { device } => match device {
                Device::Memory => self.give_memory(),
                Device::Register => self.register_byte(),
                Device::Dcps => self.wiper_register(),
            },
            _ => 0xff,
        }
    }

    fn level(&mut self, levels: Levels) {
        self.flags.v2os = self.flags.v2os && levels.v2ro;
        self.flags.v3os = self.flags.v3os && levels.v3ro;
    }

    fn stop(&mut self, clean: bool, levels: Levels) {
        let begins = clean && !levels.wp;
        let latches = self.latches_stopped(clean, levels.wp);
        let flags = self.flags_stopped(begins, levels);
        self.eeprom.stop(begins);
        self.latches = latches;
        self.flags = flags;
        self.mode = Mode::Idle;
    }

    fn finish(&mut self, part: usize) {
        if part == 0 {
            self.eeprom.finish();
        }
    }

    fn cut(&mut self, power: PowerCut) {
        self.eeprom.cut(power.mask);
        *self = X9520::powered(self.eeprom);
    }
}
