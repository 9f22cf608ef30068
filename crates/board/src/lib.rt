// The wire engine: a part of any kind on two wires.
#![tactic(auto)]

pub mod answer;
pub mod board;
pub mod bus;
pub mod call;
mod run;
pub mod sample;
