// Digital potentiometers (DCPs): which byte stands for which tap, and a wiper that is moved by bytes.
#![tactic(auto)]

pub mod dcp;
pub mod taps;
