// What a call that moves a board answers.
use refusals::Refusal;

// A sample the level of SDA on the wire, a finish or a power cut that it was done, or any of them why it was refused.
#[derive(Clone, Copy, PartialEq, Eq, Debug)]
pub enum Answer {
    Level { high: bool },
    Done,
    Refused { refusal: Refusal },
}
