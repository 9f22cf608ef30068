// The kinds of jobs.
ghost use Rattle.jobfile.specs.Kinds.{Decodes};

use refusals::Refusal;

#[derive(Clone, Copy, PartialEq, Eq, Debug)]
pub(crate) enum Kind {
    Write,
    Read,
    Wait,
    Finish,
    Cut,
    Recover,
    Samples,
}

// By the byte that a job begins with.
impl TryFrom<u8> for Kind {
    type Error = Refusal;

    ghost try_from_gives = { Decodes };

    fn try_from(byte: u8) -> Result<Self, Refusal> {
        match byte {
            1 => Ok(Kind::Write),
            2 => Ok(Kind::Read),
            3 => Ok(Kind::Wait),
            4 => Ok(Kind::Finish),
            5 => Ok(Kind::Cut),
            6 => Ok(Kind::Recover),
            7 => Ok(Kind::Samples),
            _ => Err(Refusal::UnknownKind),
        }
    }
}
