// Rows: lists that a caller lends, filled from the front. Every record type shares this one code.
#![tactic(auto)]

pub mod keyed;
pub mod row;
