// The calls that move a board.
use part::power::PowerCut;

// A sample by its byte, a finish of a numbered part, or a power cut.
#[derive(Clone, Copy, PartialEq, Eq, Debug)]
pub enum Call {
    Sample { byte: u8 },
    Finish { part: usize },
    Cut { power: PowerCut },
}
