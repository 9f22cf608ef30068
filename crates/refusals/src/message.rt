// A refusal in words.
ghost use Rattle.std.specs.Prelude.{Some};
ghost use Rattle.refusals.specs.Message.{message};

use crate::Refusal;
use std::error::Error;
use std::fmt;

impl fmt::Display for Refusal {
    ghost output = { λ refusal. Some (message refusal) };

    fn fmt<W: fmt::Write>(&self, f: &mut fmt::Formatter<W>) -> fmt::Result {
        match self {
            Refusal::BadSample => f.write_str("a sample has bit 5, 6 or 7 set"),
            Refusal::NoSuchPart => f.write_str("the board has no such part"),
            Refusal::NothingUnderWay => f.write_str("no write is under way"),
            Refusal::NoSuchCell => f.write_str("the part has no such cell or wiper"),
            Refusal::FileEnds => f.write_str("the file ends inside a job"),
            Refusal::UnknownKind => f.write_str("no job has this kind byte"),
            Refusal::OutOfLimit => f.write_str("a number breaks a limit"),
            Refusal::NoAck { byte } => write!(f, "byte {byte} got no ACK"),
            Refusal::NoRoom => f.write_str("a row is too short for all that is to go in"),
            Refusal::NeverReady => f.write_str("no poll got an ACK"),
        }
    }
}

impl Error for Refusal {}
