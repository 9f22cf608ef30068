// The results of a job file, found by their numbers, and their lines: docs/RULES.md, "Results of a whole file".

use crate::case::Case;
use crate::case::Step::{Do, LineOf};

// A finish of part 1, a read of two bytes, and a wait on an address beyond its limit.
const READ_AND_LIMIT: &[u8] = &[4, 1, 2, 0x51, 1, 0x10, 2, 3, 0x81, 0, 4];

pub static CASES: &[Case] = &[Case {
    name: "the result of a number and its line, and of a number that no result has",
    steps: &[
        Do(&[1, 0x51, 3, 0x10, 0xab, 0xcd]),
        LineOf(2, READ_AND_LIMIT),
        LineOf(3, READ_AND_LIMIT),
        LineOf(4, READ_AND_LIMIT),
    ],
    expected: "1, 2 ok abcd, 2, 3 no 7 7, none",
}];
