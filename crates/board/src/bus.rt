// Where the bus stands between two samples.
ghost use Rattle.std.specs.Prelude.{◌≡◌};
ghost use Rattle.board.specs.Engine.{pulls, clean, no_bits, idle_bus};

// What a byte that the master sends is in its transfer.
#[derive(Clone, Copy, PartialEq, Eq, Debug)]
pub enum Kind {
    Address,
    // The first byte after a write address.
    First { address: u8 },
    Later { address: u8 },
}

// What follows an acknowledged byte; `address` is the transfer's address byte.
#[derive(Clone, Copy, PartialEq, Eq, Debug)]
pub enum Next {
    ThenFirst { address: u8 },
    ThenLater { address: u8 },
    ThenGiven { address: u8 },
}

#[derive(Clone, Copy, PartialEq, Eq, Debug)]
pub enum Phase {
    // No transfer is open.
    Closed,
    // In a transfer, and no byte is taken or given until START.
    Deaf,
    // The master sends a byte: `bits` of it have come, and make up `byte`.
    Taking {
        kind: Kind,
        bits: u8,
        byte: u8,
    },
    // The byte is whole and acknowledged: the pull begins at the next fall.
    AckDue {
        next: Next,
    },
    // The ACK is pulled, and the ninth rise is to come.
    AckPulled {
        next: Next,
    },
    // The ninth rise has come: the pull lasts until the next fall.
    AckRisen {
        next: Next,
    },
    // A part gives a byte: `rises` have come, `bit` is on the wire, and `rest` holds the bits after it, highest first.
    Giving {
        address: u8,
        rises: u8,
        rest: u8,
        bit: bool,
    },
    // SDA is released for the master's ninth bit.
    Released {
        address: u8,
    },
    // The ninth bit was LOW: the next byte is fetched at the next fall.
    Wanted {
        address: u8,
    },
}

impl Phase {
    // The master begins to send a byte.
    pub(crate) fn no_bits(kind: Kind) -> Phase
        ensures { result ≡ no_bits kind }
    {
        Phase::Taking {
            kind,
            bits: 0,
            byte: 0,
        }
    }

    // Whether a part pulls SDA LOW.
    pub(crate) fn pulls(self) -> bool
        ensures { result ≡ pulls self }
    {
        match self {
            Phase::AckPulled { .. } | Phase::AckRisen { .. } => true,
            Phase::Giving { bit, .. } => !bit,
            _ => false,
        }
    }

    // Whether a STOP here is clean.
    pub(crate) fn clean(self) -> bool
        ensures { result ≡ clean self }
    {
        match self {
            Phase::Taking { kind, bits, .. } => kind != Kind::Address && bits == 1,
            Phase::Giving { rises, .. } => rises == 1,
            _ => false,
        }
    }
}

// The levels of the two wires in the last sample, SDA as it was on the wire, and the phase.
#[derive(Clone, Copy, PartialEq, Eq, Debug)]
pub struct Bus {
    pub scl: bool,
    pub sda: bool,
    pub phase: Phase,
}

impl Bus {
    // The wires when nobody drives them: both HIGH, no transfer open and nothing pulled.
    pub(crate) fn idle() -> Bus
        ensures { result ≡ idle_bus }
    {
        Bus {
            scl: true,
            sda: true,
            phase: Phase::Closed,
        }
    }
}
