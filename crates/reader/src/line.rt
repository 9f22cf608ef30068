// The text of a transfer's line, and of a refusal's.
ghost use Rattle.std.specs.Prelude.{Some};
ghost use Rattle.reader.specs.Lines.{transfer_text, refused_text};

use super::transfer::Transfer;
use refusals::Refusal;
use std::fmt;

// Five decimal numbers: first, last, address, ninths, and 1 or 0 for clean.
impl fmt::Display for Transfer {
    ghost output = { λ transfer. Some (transfer_text transfer) };

    fn fmt<W: fmt::Write>(&self, f: &mut fmt::Formatter<W>) -> fmt::Result {
        let Transfer {
            first,
            last,
            address,
            ninths,
            clean,
        } = *self;
        let clean = u8::from(clean);
        write!(f, "{first} {last} {address} {ninths} {clean}")
    }
}

// Why a recording was refused, by its number.
#[derive(Clone, Copy)]
pub struct RefusedText(pub Refusal);

impl fmt::Display for RefusedText {
    ghost output = { λ refused. Some (refused_text refused.0) };

    fn fmt<W: fmt::Write>(&self, f: &mut fmt::Formatter<W>) -> fmt::Result {
        let number = self.0.number();
        write!(f, "no {number}")
    }
}
