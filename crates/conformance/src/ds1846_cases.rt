// The DS1846, part 1: docs/RULES.md, "The DS1846". A2h is its address byte for writing, A3h for reading.

use crate::case::Case;
use crate::case::Step::{Cell, Do, Run, Tap, Wires};
use crate::files::{CUT_LOSING, DS1846_BUSY, FINISH_1, READ_DS1846};
use crate::wire::Wire::{Bytes, Levels, Start, Stop};

pub static CASES: &[Case] = &[
    Case {
        // 0Bh to 0Fh, then 08h to 0Ah, then 0Bh once more
        name: "a page of eight rolls over, a ninth byte replaces the first, and the counter follows",
        steps: &[
            Do(&[1, 0x51, 10, 0x0b, 1, 2, 3, 4, 5, 6, 7, 8, 9]),
            Do(FINISH_1),
            Run(READ_DS1846),
            Run(&[2, 0x51, 1, 0x08, 8]),
            Cell(1, 0x10),
        ],
        expected: "1 ok 02, 1 ok 0607080902030405, 00",
    },
    Case {
        name: "reading goes on through all cells, and from FFh to 00h",
        steps: &[
            Do(&[1, 0x51, 3, 0xfe, 0x11, 0x22, 4, 1]),
            Do(&[1, 0x51, 3, 0x00, 0x33, 0x44, 4, 1]),
            Run(&[2, 0x51, 1, 0xfe, 3]),
            Run(READ_DS1846),
        ],
        expected: "1 ok 112233, 1 ok 44",
    },
    Case {
        name: "with WP HIGH the first byte gets an ACK and sets the counter; a data byte gets none and leaves it",
        steps: &[
            Do(&[1, 0x51, 2, 0x20, 0xcd, 4, 1]),
            Wires(&[Levels(0x04), Start, Bytes(&[0xa2, 0x20, 0xab]), Stop]),
            Run(READ_DS1846),
        ],
        expected: "a2+, 20+, ab-, 1 ok cd",
    },
    Case {
        name: "a data byte with WP HIGH drops those staged before it",
        steps: &[
            Wires(&[Start, Bytes(&[0xa2, 0x10, 0xab])]),
            Wires(&[Levels(0x04), Bytes(&[0xcd]), Levels(0), Stop]),
            Run(FINISH_1),
            Cell(1, 0x10),
        ],
        expected: "a2+, 10+, ab+, cd-, 1 no 3 0, 00",
    },
    Case {
        name: "a STOP with WP HIGH starts nothing, and the counter stays where staged bytes moved it",
        steps: &[
            Do(&[1, 0x51, 2, 0x22, 0xee, 4, 1]),
            Wires(&[Start, Bytes(&[0xa2, 0x20, 0xab, 0xcd])]),
            Wires(&[Levels(0x04), Stop]),
            Run(FINISH_1),
            Run(READ_DS1846),
        ],
        expected: "a2+, 20+, ab+, cd+, 1 no 3 0, 1 ok ee",
    },
    Case {
        name: "a START drops what is staged, and the counter stays where staged bytes moved it",
        steps: &[
            Do(&[1, 0x51, 2, 0x22, 0xee, 4, 1]),
            Wires(&[Start, Bytes(&[0xa2, 0x20, 0xab, 0xcd])]),
            Wires(&[Start, Stop]),
            Run(FINISH_1),
            Run(READ_DS1846),
        ],
        expected: "a2+, 20+, ab+, cd+, 1 no 3 0, 1 ok ee",
    },
    Case {
        name: "a write of a first byte alone sets the counter and starts nothing",
        steps: &[
            Do(&[1, 0x51, 2, 0x30, 0xee, 4, 1]),
            Run(&[1, 0x51, 1, 0x30]),
            Run(FINISH_1),
            Run(READ_DS1846),
        ],
        expected: "1 ok -, 1 no 3 0, 1 ok ee",
    },
    Case {
        name: "a busy chip hears nothing, for reading or for writing, until its finish",
        steps: &[
            Do(DS1846_BUSY),
            Wires(&[Start, Bytes(&[0xa2]), Start, Bytes(&[0xa3]), Stop]),
            Do(FINISH_1),
            Wires(&[Start, Bytes(&[0xa2]), Start, Bytes(&[0xa3])]),
        ],
        expected: "a2-, a3-, a2+, a3+",
    },
    Case {
        // F8h is wiper 1, F9h wiper 0 and FAh wiper 2
        name: "wipers follow cells F8h, F9h and FAh at the finish and not before",
        steps: &[
            Do(&[1, 0x51, 4, 0xf8, 0x80, 0x81, 0x62]),
            Tap(1, 0),
            Tap(1, 1),
            Tap(1, 2),
            Do(FINISH_1),
            Tap(1, 0),
            Tap(1, 1),
            Tap(1, 2),
        ],
        expected: "0, 0, 0, 1, 128, 98",
    },
    Case {
        name: "wipers 0 and 2 take the low seven bits, and 99 where they are above 99",
        steps: &[
            Do(&[1, 0x51, 3, 0xf9, 0x64, 0xff, 4, 1]),
            Tap(1, 0),
            Tap(1, 2),
            Do(&[1, 0x51, 3, 0xf9, 0xe2, 0x63, 4, 1]),
            Tap(1, 0),
            Tap(1, 2),
        ],
        expected: "99, 99, 98, 99",
    },
    Case {
        // mask 0200h: offset 9, cell F9h
        name: "a wiper moves at the power cut that stores its cell",
        steps: &[
            Do(&[1, 0x51, 3, 0xf8, 0x80, 0x21]),
            Do(&[5, 0x84, 0x00]),
            Tap(1, 0),
            Tap(1, 1),
        ],
        expected: "33, 0",
    },
    Case {
        name: "after a power cut the counter is 0",
        steps: &[
            Do(&[1, 0x51, 2, 0x00, 0xaa, 4, 1]),
            Do(CUT_LOSING),
            Run(READ_DS1846),
        ],
        expected: "1 ok aa",
    },
];
