// A transfer that a recording shows.
use rows::keyed::Keyed;

// Samples are counted from 0. `last` is the sample that ends the transfer: its STOP, the next START, or the last of the recording.
// `address` is the address byte, or 0 if it is not whole; `ninths` counts the ninth rises, and that of the address byte is one of them.
#[derive(Clone, Copy, PartialEq, Eq, Debug)]
pub struct Transfer {
    pub first: usize,
    pub last: usize,
    pub ninths: usize,
    pub address: u8,
    pub clean: bool,
}

// A transfer is found by its first sample.
impl Keyed for Transfer {
    ghost keyof = { λ transfer. transfer.first };

    fn key(&self) -> usize {
        self.first
    }
}
