// Refusal 8 with each byte number: docs/RULES.md, "Numbering of sent bytes".

use crate::case::Case;
use crate::case::Step::{Cell, Do, Lines, Run, Set, Wires};
use crate::files::{DS1846_BUSY, FINISH_0, FINISH_1, RECOVER, WEL, X9520_BUSY};
use crate::wire::Wire::{Bytes, Start};

pub static CASES: &[Case] = &[
    Case {
        name: "write, byte 0: the address of a busy chip, and one that no part has",
        steps: &[
            Do(X9520_BUSY),
            Run(&[1, 0x50, 2, 0x11, 0xcd]),
            Run(&[1, 0x53, 0]),
        ],
        expected: "1 no 8 0, 1 no 8 0",
    },
    Case {
        name: "write, byte 1: a first byte that no DCP has, and one that the register has not",
        steps: &[Run(&[1, 0x57, 1, 0x03]), Run(&[1, 0x52, 1, 0xfe])],
        expected: "1 no 8 1, 1 no 8 1",
    },
    Case {
        name: "write, byte 2: a data byte for the memory without WEL",
        steps: &[Run(&[1, 0x50, 2, 0x10, 0xab]), Run(FINISH_0), Cell(0, 0x10)],
        expected: "1 no 8 2, 1 no 3 0, 00",
    },
    Case {
        name: "write, byte 3: a second data byte for a DCP; bytes after it are not sent",
        steps: &[Do(WEL), Run(&[1, 0x57, 5, 0x00, 0x11, 0x12, 0x13, 0x14])],
        expected: "1 no 8 3",
    },
    Case {
        name: "read, byte 0: without an aim byte, and with one",
        steps: &[Run(&[2, 0x53, 0, 1]), Run(&[2, 0x53, 1, 0x10, 1])],
        expected: "1 no 8 0, 1 no 8 0",
    },
    Case {
        name: "read, byte 1: an aim byte that no DCP has",
        steps: &[Run(&[2, 0x57, 1, 0x03, 1])],
        expected: "1 no 8 1",
    },
    Case {
        name: "read, byte 2: a second aim byte for the memory without WEL",
        steps: &[Run(&[2, 0x50, 2, 0x10, 0xab, 1])],
        expected: "1 no 8 2",
    },
    Case {
        // The DS1846 sends bytes 00h. They hide the START and make an ACK at byte 0 and at the aim byte;
        // the START before the address for reading is hidden too, and bit 1 of A3h is then the ninth, which ends the sending.
        name: "read, byte 2: the address for reading after an aim byte, on wires that a part holds",
        steps: &[
            Wires(&[Start, Bytes(&[0xa3])]),
            Run(&[2, 0x51, 1, 0x10, 1]),
            Run(RECOVER),
        ],
        expected: "a3+, 1 no 8 2, 1 ok 01",
    },
    Case {
        name: "read, byte 3: the address for reading after two aim bytes, on wires that a part holds",
        steps: &[
            Wires(&[Start, Bytes(&[0xa3])]),
            Run(&[2, 0x51, 2, 0x10, 0x20, 1]),
            Run(RECOVER),
        ],
        expected: "a3+, 1 no 8 3, 1 ok 01",
    },
    Case {
        name: "a refused write gives its STOP, stores nothing and leaves WP of the record as it was",
        steps: &[
            Do(DS1846_BUSY),
            Set(0x04),
            Run(&[1, 0x51, 2, 0x10, 0xcd]),
            Lines,
            Run(RECOVER),
            Run(FINISH_1),
            Cell(1, 0x10),
        ],
        expected: "1 no 8 0, 04, 1 ok 01, 1 ok -, ab",
    },
    Case {
        name: "after a refused byte what was staged before it is dropped",
        steps: &[
            Do(WEL),
            // 80h names DCP 0, to be stored too
            Run(&[1, 0x57, 3, 0x80, 0x20, 0x21]),
            Run(FINISH_0),
            Cell(0, 256),
        ],
        expected: "1 no 8 3, 1 no 3 0, 00",
    },
];
