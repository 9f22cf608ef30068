ghost use Rattle.std.specs.Prelude.{◌≡◌};
ghost use Rattle.part.specs.Chips.{AlwaysChip, StaysSettled, Renews};
ghost use Rattle.part.specs.Seats.{Itself};
ghost use Rattle.ds1846.specs.Chip.{ds1846, fresh};

use eeprom::Eeprom;

// Where the chip stands in a transfer: no address heard, a write address, the bytes after it, or a read address.
#[derive(Clone, Copy, PartialEq, Eq, Debug)]
pub enum Mode {
    Idle,
    Aiming,
    Writing,
    Reading,
}

// The counter is the number of the next cell to write or read.
#[derive(Clone, Copy, PartialEq, Eq, Debug)]
pub struct Ds1846 {
    pub(super) eeprom: Eeprom<256>,
    pub(super) counter: u8,
    pub(super) mode: Mode,
}

impl Ds1846 {
    // Besides, that the chip is a part of its own, what it promises in every state that moves can make of it, and in any state at
    // all: levels that it knows it knows after a STOP at them and after a finish, and a renewal makes it this one.
    pub fn fresh() -> Ds1846
        ensures made { result ≡ fresh }
        ensures seat { Itself ds1846 }
        ensures always { AlwaysChip ds1846 fresh }
        ensures settled { StaysSettled ds1846 }
        ensures renews { Renews ds1846 fresh }
    {
        Ds1846 {
            eeprom: Eeprom::fresh(),
            counter: 0,
            mode: Mode::Idle,
        }
    }
}
