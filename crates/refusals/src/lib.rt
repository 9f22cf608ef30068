// Why a call was refused. Every layer refuses with this one enum; docs/RULES.md lists the numbers.
#![tactic(auto)]

ghost use Rattle.std.specs.Prelude.{◌≡◌};
ghost use Rattle.refusals.specs.Told.{number, place};

mod message;

#[derive(Clone, Copy, PartialEq, Eq, Debug)]
pub enum Refusal {
    // A sample has bit 5, 6 or 7 set.
    BadSample,
    // The part number is outside the board.
    NoSuchPart,
    // A finish finds no write under way.
    NothingUnderWay,
    // A question names a cell or a wiper that the part lacks.
    NoSuchCell,
    // The file ends inside a job.
    FileEnds,
    // No job has this kind byte.
    UnknownKind,
    // A number has over three groups or breaks a limit.
    OutOfLimit,
    // A byte that was sent got no ACK; the bytes of a job are numbered from 0.
    NoAck { byte: usize },
    // A row or its byte list is too short for all that is to go in.
    NoRoom,
    // All polls of a wait got no ACK.
    NeverReady,
}

impl Refusal {
    // A method and no `From`: a refusal tells two numbers, and the call has to name which.
    pub fn number(&self) -> u8
        ensures { result ≡ number self.now }
    {
        match self {
            Refusal::BadSample => 1,
            Refusal::NoSuchPart => 2,
            Refusal::NothingUnderWay => 3,
            Refusal::NoSuchCell => 4,
            Refusal::FileEnds => 5,
            Refusal::UnknownKind => 6,
            Refusal::OutOfLimit => 7,
            Refusal::NoAck { byte: _ } => 8,
            Refusal::NoRoom => 9,
            Refusal::NeverReady => 10,
        }
    }

    // The number that is told beside the refusal's own: that of the byte without an ACK, otherwise 0.
    pub fn place(&self) -> usize
        ensures { result ≡ place self.now }
    {
        match self {
            Refusal::NoAck { byte } => *byte,
            _ => 0,
        }
    }
}
