// What protects an X9520 from being written: its two write enable latches, its lock, and WP.
#![tactic(auto)]

pub mod latches;
pub mod lock;
