// The tool's side of the bus: its jobs, given sample by sample.
#![tactic(auto)]

pub mod guard;
pub mod note;
mod polls;
pub mod read;
mod receiving;
pub mod recovery;
pub mod samples;
mod sending;
pub mod transfer;
pub mod wait;
mod wires;
pub mod write;
