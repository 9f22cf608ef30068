// The two wires of a sample, and what lies between one sample and the next.
ghost use Rattle.std.specs.Prelude.{◌≡◌};
ghost use Rattle.board.specs.Wires.{edge};
ghost use Rattle.reader.specs.Kept.{idle_wires, wires_at, edge_of, starts};

// SCL and SDA, `true` for HIGH.
#[derive(Clone, Copy)]
pub(crate) struct Wires {
    pub scl: bool,
    pub sda: bool,
}

#[derive(Clone, Copy)]
pub(crate) enum Edge {
    Steady,
    Start,
    Stop,
    Rise { bit: bool },
    Fall,
}

impl Wires {
    // Before the first sample both count as HIGH.
    pub(crate) fn idle() -> Wires
        ensures { result ≡ idle_wires }
    {
        Wires {
            scl: true,
            sda: true,
        }
    }

    pub(crate) fn at(sample: u8) -> Wires
        ensures { result ≡ wires_at sample }
    {
        Wires {
            scl: sample % 2 == 1,
            sda: sample / 2 % 2 == 1,
        }
    }

    // What lies between these levels and those of the next sample. Its SCL is looked at first: where it is LOW, no more is asked.
    pub(crate) fn edge(self, next: Wires) -> Edge
        ensures { edge_of result ≡ edge self.scl next.scl self.sda next.sda }
    {
        match (next.scl, self.scl) {
            (true, true) => match (self.sda, next.sda) {
                (true, false) => Edge::Start,
                (false, true) => Edge::Stop,
                _ => Edge::Steady,
            },
            (false, true) => Edge::Fall,
            (true, false) => Edge::Rise { bit: next.sda },
            (false, false) => Edge::Steady,
        }
    }
}

impl Edge {
    pub(crate) fn is_start(self) -> bool
        ensures { result ≡ starts (edge_of self) }
    {
        matches!(self, Edge::Start)
    }
}
