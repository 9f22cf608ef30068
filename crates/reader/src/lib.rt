// The reader of recorded wires: which transfers a recording shows.
#![tactic(auto)]

pub mod agreement;
mod kept;
pub mod line;
pub mod read;
mod reader;
pub mod transfer;
mod wires;
