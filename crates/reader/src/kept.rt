// What is kept of a transfer while it is open.
ghost use Rattle.std.specs.Prelude.{◌≡◌};
ghost use Rattle.reader.specs.Kept.{Small, AllSmall, edge_of, kept_new, kept_risen, kept_next, kept_address, kept_clean, rise_shows};

use super::wires::Edge;

// The bits since the last whole byte by their count and their number, the whole bytes by their count, the address byte and
// whether the last of them was acknowledged; before the first that is false. A recording shows an ACK, whoever gave it, as a LOW ninth bit.
#[derive(Clone, Copy)]
pub(crate) struct Kept {
    pub ninths: usize,
    pub bits: u8,
    pub value: u8,
    pub address: u8,
    pub acked: bool,
}

impl Kept {
    pub(crate) fn new() -> Kept
        ensures { result ≡ kept_new }
    {
        Kept {
            bits: 0,
            value: 0,
            ninths: 0,
            address: 0,
            acked: false,
        }
    }

    // After one rise more.
    pub(crate) fn risen(self, bit: bool) -> Kept
        requires { Small self }
        ensures { result ≡ kept_risen bit self }
    {
        if self.bits < 8 {
            Kept {
                bits: self.bits + 1,
                value: self.value * 2 + u8::from(bit),
                ..self
            }
        } else {
            Kept {
                bits: 0,
                value: 0,
                ninths: self.ninths + 1,
                address: if self.ninths == 0 {
                    self.value
                } else {
                    self.address
                },
                acked: !bit,
            }
        }
    }

    // The address byte once its eight bits have come, and 0 before.
    pub(crate) fn address(&self) -> u8
        ensures { result ≡ kept_address self.now }
    {
        if self.ninths > 0 {
            self.address
        } else if self.bits == 8 {
            self.value
        } else {
            0
        }
    }

    // Whether the last rise shows in the record: the eighth and the ninth of a byte do.
    pub(crate) fn rise_shows(&self) -> bool
        ensures { result ≡ rise_shows self.now }
    {
        self.bits == 8 || self.bits == 0
    }

    // Whether a STOP would be clean now.
    pub(crate) fn is_clean(&self) -> bool
        ensures { result ≡ kept_clean self.now }
    {
        self.bits == 1 && self.acked
    }
}

// The open transfer after what lies between two samples.
pub(crate) fn next(kept: Option<Kept>, edge: Edge) -> Option<Kept>
    requires { AllSmall kept }
    ensures { result ≡ kept_next (edge_of edge) kept }
{
    match edge {
        Edge::Start => Some(Kept::new()),
        Edge::Stop => None,
        Edge::Rise { bit } => kept.map(|kept| kept.risen(bit)),
        Edge::Steady | Edge::Fall => kept,
    }
}
