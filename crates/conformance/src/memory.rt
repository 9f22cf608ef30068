// The memory of the X9520, part 0: docs/RULES.md, "The X9520". A0h is its address byte for writing, A1h for reading.

use crate::case::Case;
use crate::case::Step::{Cell, Do, Lines, Run, Set, Wires};
use crate::files::{CUT_LOSING, DISABLE, FINISH_0, READ_MEMORY, WEL, X9520_BUSY};
use crate::wire::Wire::{Bytes, Levels, Start, Stop};

pub static CASES: &[Case] = &[
    Case {
        // 05h to 0Fh, then 00h to 04h, then 05h once more
        name: "a page of sixteen rolls over, a seventeenth byte replaces the first, and the counter follows",
        steps: &[
            Do(WEL),
            Do(&[
                1, 0x50, 18, 0x05, 1, 2, 3, 4, 5, 6, 7, 8, 9, 10, 11, 12, 13, 14, 15, 16, 17,
            ]),
            Do(FINISH_0),
            Run(READ_MEMORY),
            Run(&[2, 0x50, 1, 0x00, 16]),
            Cell(0, 0x10),
        ],
        expected: "1 ok 02, 1 ok 0c0d0e0f101102030405060708090a0b, 00",
    },
    Case {
        name: "reading goes on from FFh to 00h; after a power cut the counter is 0",
        steps: &[
            Do(WEL),
            Do(&[1, 0x50, 2, 0xff, 0x11, 4, 0]),
            Do(&[1, 0x50, 3, 0x00, 0x22, 0x33, 4, 0]),
            Run(&[2, 0x50, 1, 0xff, 2]),
            Run(READ_MEMORY),
            Do(CUT_LOSING),
            Run(READ_MEMORY),
        ],
        expected: "1 ok 1122, 1 ok 33, 1 ok 22",
    },
    Case {
        name: "without WEL the first byte sets the counter, and a data byte gets no ACK and leaves it",
        steps: &[
            Do(WEL),
            Do(&[1, 0x50, 2, 0x20, 0xcd, 4, 0]),
            Do(DISABLE),
            Run(&[1, 0x50, 2, 0x20, 0xab]),
            Run(READ_MEMORY),
        ],
        expected: "1 no 8 2, 1 ok cd",
    },
    Case {
        name: "with WP HIGH a data byte gets no ACK, and a STOP starts nothing",
        steps: &[
            Do(WEL),
            Wires(&[Levels(0x04), Start, Bytes(&[0xa0, 0x10, 0xab]), Stop]),
            Wires(&[Start, Bytes(&[0xa0, 0x10, 0xab])]),
            Wires(&[Levels(0x04), Stop]),
            Run(FINISH_0),
        ],
        expected: "a0+, 10+, ab-, a0+, 10+, ab+, 1 no 3 0",
    },
    Case {
        name: "the counter stays where staged bytes moved it that a START drops",
        steps: &[
            Do(WEL),
            Do(&[1, 0x50, 2, 0x22, 0xee, 4, 0]),
            Wires(&[Start, Bytes(&[0xa0, 0x20, 0xab, 0xcd])]),
            Wires(&[Start, Stop]),
            Run(FINISH_0),
            Run(READ_MEMORY),
        ],
        expected: "a0+, 20+, ab+, cd+, 1 no 3 0, 1 ok ee",
    },
    Case {
        name: "reading needs no latch, and WP HIGH does not matter for it",
        steps: &[
            Do(X9520_BUSY),
            Do(FINISH_0),
            Do(DISABLE),
            Set(0x04),
            Run(&[2, 0x50, 1, 0x10, 1]),
            Lines,
        ],
        expected: "1 ok ab, 04",
    },
    Case {
        name: "a busy chip hears none of its six address bytes",
        steps: &[
            Do(X9520_BUSY),
            Wires(&[
                Start,
                Bytes(&[0xa0]),
                Start,
                Bytes(&[0xa1]),
                Start,
                Bytes(&[0xa4]),
            ]),
            Wires(&[
                Start,
                Bytes(&[0xa5]),
                Start,
                Bytes(&[0xae]),
                Start,
                Bytes(&[0xaf]),
            ]),
        ],
        expected: "a0-, a1-, a4-, a5-, ae-, af-",
    },
    Case {
        // 1Eh, 1Fh, 10h and 11h; mask 8002h: offsets 15 and 1
        name: "a power cut stores the cells of a page that its mask marks",
        steps: &[
            Do(WEL),
            Do(&[1, 0x50, 5, 0x1e, 0xa1, 0xa2, 0xa3, 0xa4]),
            Do(&[5, 0x82, 0x80, 0x02]),
            Run(&[2, 0x50, 1, 0x1e, 2]),
            Run(&[2, 0x50, 1, 0x10, 2]),
        ],
        expected: "1 ok 00a2, 1 ok 00a4",
    },
];
