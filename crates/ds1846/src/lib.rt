// The DS1846 with its address pin A0 HIGH: 256 lasting cells and three wipers that follow three of them.
#![tactic(auto)]

pub mod acts;
pub mod state;
