// Numbers, kinds and limits of a job file, each limit met and then passed: docs/RULES.md, "The job file".
// Numbers have groups of seven bits: 81h 00h is 128, 81h 7Fh 255, 82h 00h 256, 87h 68h 1000.

use crate::case::Case;
use crate::case::Step::{Do, Run, RunInto, SameAs};
use crate::files::X9520_BUSY;

pub static CASES: &[Case] = &[
    Case {
        name: "an empty file has no jobs",
        steps: &[Run(&[]), SameAs(&[])],
        expected: "same",
    },
    Case {
        name: "address 127 in a write, a read and a wait",
        steps: &[Run(&[1, 0x7f, 0, 2, 0x7f, 0, 1, 3, 0x7f, 1])],
        expected: "1 no 8 0, 2 no 8 0, 3 no 10 0",
    },
    Case {
        name: "address 128 in a write, a read and a wait",
        steps: &[
            Run(&[1, 0x81, 0x00, 0]),
            Run(&[2, 0x81, 0x00, 0, 1]),
            Run(&[3, 0x81, 0x00, 1]),
        ],
        expected: "1 no 7 0, 1 no 7 0, 1 no 7 0",
    },
    Case {
        // the file ends inside the 255 bytes, and before the 256
        name: "255 bytes in a write and in a samples job, and 256",
        steps: &[
            Run(&[1, 0x51, 0x81, 0x7f]),
            Run(&[7, 0x81, 0x7f]),
            Run(&[1, 0x51, 0x82, 0x00]),
            Run(&[7, 0x82, 0x00]),
        ],
        expected: "1 no 5 0, 1 no 5 0, 1 no 7 0, 1 no 7 0",
    },
    Case {
        name: "reads of 1, 255, 0 and 256 bytes, at an address that no part has",
        steps: &[
            Run(&[2, 0x53, 0, 1]),
            Run(&[2, 0x53, 0, 0x81, 0x7f]),
            Run(&[2, 0x53, 0, 0]),
            Run(&[2, 0x53, 0, 0x82, 0x00]),
        ],
        expected: "1 no 8 0, 1 no 8 0, 1 no 7 0, 1 no 7 0",
    },
    Case {
        name: "reads with two aim bytes and with three",
        steps: &[Run(&[2, 0x53, 2, 1, 2, 1]), Run(&[2, 0x53, 3, 1, 2, 3, 1])],
        expected: "1 no 8 0, 1 no 7 0",
    },
    Case {
        name: "waits of 1, 1000, 0 and 1001 polls",
        steps: &[
            Run(&[3, 0x51, 1]),
            Run(&[3, 0x51, 0x87, 0x68]),
            Run(&[3, 0x51, 0]),
            Run(&[3, 0x51, 0x87, 0x69]),
        ],
        expected: "1 ok -, 1 ok -, 1 no 7 0, 1 no 7 0",
    },
    Case {
        name: "the part number of a finish has no limit but the three groups",
        steps: &[
            Run(&[4, 0xff, 0xff, 0x7f]),
            Run(&[4, 0xff, 0xff, 0xff, 0x00]),
        ],
        expected: "1 no 2 0, 1 no 7 0",
    },
    Case {
        name: "a third group that marks more is refused at once, also where the file ends",
        steps: &[Run(&[4, 0x80, 0x80, 0x80]), Run(&[1, 0x80, 0x80, 0x80])],
        expected: "1 no 7 0, 1 no 7 0",
    },
    Case {
        name: "a number of two groups that mark more is cut short",
        steps: &[Run(&[4, 0x80, 0x80]), Run(&[4, 0x80])],
        expected: "1 no 5 0, 1 no 5 0",
    },
    Case {
        name: "a part number that is cut off, one of three groups that mark more, an address and bytes that are cut off",
        steps: &[
            Run(&[4, 0x82]),
            Run(&[4, 0x81, 0x81, 0x81]),
            Run(&[1, 0xff]),
            Run(&[1, 0x7f, 1]),
        ],
        expected: "1 no 5 0, 1 no 7 0, 1 no 5 0, 1 no 5 0",
    },
    Case {
        name: "masks 65535 and 65536",
        steps: &[
            Do(X9520_BUSY),
            Run(&[5, 0x83, 0xff, 0x7f, 5, 0x84, 0x80, 0x00]),
            Run(&[2, 0x50, 1, 0x10, 1]),
        ],
        expected: "1 ok -, 2 no 7 4, 1 ok ab",
    },
    Case {
        name: "leading groups of zero are allowed",
        steps: &[
            Run(&[1, 0x80, 0x80, 0x51, 0x80, 0x02, 0x10, 0xab]),
            Run(&[4, 0x80, 0x80, 0x01]),
            Run(&[2, 0x80, 0x51, 0x80, 0x01, 0x10, 0x80, 0x80, 0x01]),
        ],
        expected: "1 ok -, 1 ok -, 1 ok ab",
    },
    Case {
        name: "a kind is one plain byte, and data bytes are plain too",
        steps: &[
            Run(&[0x80, 0x01, 0x51, 0]),
            Run(&[1, 0x51, 2, 0x90, 0xff, 4, 1, 2, 0x51, 1, 0x90, 1]),
        ],
        expected: "1 no 6 0, 1 ok -, 2 ok -, 3 ok ff",
    },
    Case {
        name: "room is needed for a result of each job, up to one that cannot be decoded",
        steps: &[
            RunInto(1, 0, &[4, 0, 4, 0]),
            RunInto(2, 0, &[4, 0, 4, 0]),
            RunInto(2, 0, &[4, 0, 9, 4, 0, 4, 0]),
        ],
        expected: "no 9, 1 no 3 0, 2 no 3 0, 1 no 3 0, 2 no 6 2",
    },
    Case {
        // 2 bytes of the read, 1 of the recovery and 3 of the samples
        name: "room is needed for all answers, also those of jobs that will be refused",
        steps: &[
            RunInto(3, 5, &[2, 0x53, 0, 2, 6, 7, 3, 3, 3, 3]),
            SameAs(&[]),
            RunInto(3, 6, &[2, 0x53, 0, 2, 6, 7, 3, 3, 3, 3]),
        ],
        expected: "no 9, same, 1 no 8 0, 2 ok 01, 3 ok 010101",
    },
];
