// What an X9520 holds between two calls.
ghost use Rattle.std.specs.Prelude.{◌≡◌, false};
ghost use Rattle.part.specs.Chips.{AlwaysChip, StaysSettled, Renews};
ghost use Rattle.part.specs.Seats.{Itself};
ghost use Rattle.x9520.specs.Chip.{x9520};
ghost use Rattle.x9520.specs.Register.{stored_register};
ghost use Rattle.x9520.specs.Sound.{AlwaysSound};
ghost use Rattle.x9520.specs.State.{factory, fresh, powered};
ghost use Rattle.x9520.specs.Writing.{refused, taken};

use dcp::dcp::Dcp;
use eeprom::Eeprom;
use protection::latches::Latches;

// What an address stands for.
#[derive(Clone, Copy, PartialEq, Eq, Debug)]
pub enum Device {
    Memory,
    Register,
    Dcps,
}

// Where the chip stands in a transfer, by what it waits for.
#[derive(Clone, Copy, PartialEq, Eq, Debug)]
pub enum Mode {
    // No address heard.
    Idle,
    // The first byte after a write address.
    Aiming { device: Device },
    MemoryBytes,
    // The one byte for the named DCP, which is also stored if so asked.
    DcpByte { store: bool },
    RegisterByte,
    // A STOP: the wiper has moved.
    Moved,
    // A STOP, at which this register byte changes the latches, or begins to be stored.
    Latching { byte: u8 },
    Storing { byte: u8 },
    Reading { device: Device },
}

// The status flags of the two monitor outputs.
#[derive(Clone, Copy, PartialEq, Eq, Debug)]
pub struct Flags {
    pub v2os: bool,
    pub v3os: bool,
}

// Cells 0 to 255 are the memory, 256 to 258 the stored wipers, 259 the register byte.
// The counter is the number of the next memory cell to write or read; `named` is the DCP that was last named.
#[derive(Clone, Copy, PartialEq, Eq, Debug)]
pub struct X9520 {
    pub(super) eeprom: Eeprom<260>,
    pub(super) dcps: [Dcp; 3],
    pub(super) latches: Latches,
    pub(super) flags: Flags,
    pub(super) counter: u8,
    pub(super) named: u8,
    pub(super) mode: Mode,
}

// The lasting cells as they leave the factory.
fn factory() -> Eeprom<260>
    ensures { result ≡ factory }
{
    let mut cells = Eeprom::fresh();
    cells.stage(259, 1);
    cells.stop(true);
    cells.finish();
    cells
}

impl X9520 {
    // The chip as it powers up, with these lasting cells.
    pub(super) fn powered(eeprom: Eeprom<260>) -> X9520
        ensures { result ≡ powered eeprom }
    {
        let dcps = [
            Dcp::new(64, eeprom.byte(256).unwrap_or(0)),
            Dcp::new(100, eeprom.byte(257).unwrap_or(0)),
            Dcp::new(256, eeprom.byte(258).unwrap_or(0)),
        ];
        X9520 {
            eeprom,
            dcps,
            latches: Latches::new(),
            flags: Flags {
                v2os: false,
                v3os: false,
            },
            counter: 0,
            named: 0,
            mode: Mode::Idle,
        }
    }

    // The register byte as it is stored.
    pub(super) fn stored_register(&self) -> u8
        ensures { result ≡ stored_register self.now }
    {
        self.eeprom.byte(259).unwrap_or(0)
    }

    // Nothing staged stays, and the chip is out of the transfer.
    pub(super) fn leave(&mut self)
        ensures { self.new ≡ taken refused self.old 0 }
    {
        self.eeprom.unstage();
        self.mode = Mode::Idle;
    }

    // A byte gets no ACK.
    pub(super) fn refuse(&mut self) -> bool
        ensures answer { result ≡ false }
        ensures after { self.new ≡ taken refused self.old 0 }
    {
        self.leave();
        false
    }

    // Besides, that the chip is a part of its own, what it promises in every state that moves can make of it, and in any state at
    // all: levels that it knows it knows after a STOP at them and after a finish, and a renewal makes it this one.
    pub fn fresh() -> X9520
        ensures made { result ≡ fresh }
        ensures seat { Itself x9520 }
        ensures always { AlwaysChip x9520 fresh }
        ensures settled { StaysSettled x9520 }
        ensures renews { Renews x9520 fresh }
        ensures sound { AlwaysSound fresh }
    {
        X9520::powered(factory())
    }
}
