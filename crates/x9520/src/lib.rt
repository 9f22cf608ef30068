// The X9520: 256 cells of memory, three digital potentiometers (DCPs) and a register with the lock.
#![tactic(auto)]

pub mod acts;
mod dcps;
mod memory;
mod register;
pub mod state;
