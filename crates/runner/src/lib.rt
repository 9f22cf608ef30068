// A whole job file run on a board, and the lines that tell its results.
#![tactic(auto)]

pub mod line;
pub mod result;
pub mod room;
pub mod run;
