// Jobs as they run: docs/RULES.md, "The jobs" and "The tool's line levels and the WP guard".

use crate::case::Case;
use crate::case::Step::{Cell, Do, Lines, Run, SameAs, Set, Wires};
use crate::files::{DS1846_BUSY, FINISH_1, READ_DS1846, RECOVER};
use crate::wire::Wire::{Bytes, Start};

pub static CASES: &[Case] = &[
    Case {
        // cell 11h holds CDh; ABh is staged for cell 10h and dropped by the repeated START
        name: "the aim bytes of a read are followed by a repeated START, which drops what they staged",
        steps: &[
            Do(&[1, 0x51, 2, 0x11, 0xcd, 4, 1]),
            Run(&[2, 0x51, 2, 0x10, 0xab, 1]),
            Run(FINISH_1),
            Cell(1, 0x10),
        ],
        expected: "1 ok cd, 1 no 3 0, 00",
    },
    Case {
        name: "a write lowers WP, which stands as before afterwards, as V3RO does",
        steps: &[Set(0x14), Run(DS1846_BUSY), Run(FINISH_1), Lines],
        expected: "1 ok -, 1 ok -, 14",
    },
    Case {
        name: "putting WP back gives no sample: the board is the same whatever WP stood at",
        steps: &[Set(0x04), Do(DS1846_BUSY), SameAs(DS1846_BUSY)],
        expected: "same",
    },
    Case {
        name: "a read does not lower WP: its second aim byte gets no ACK",
        steps: &[Set(0x04), Run(&[2, 0x51, 2, 0x10, 0xab, 1]), Lines],
        expected: "1 no 8 2, 04",
    },
    Case {
        name: "an accepted wait leaves WP of the record as it was; its poll starts no write",
        steps: &[
            Set(0x04),
            Do(DS1846_BUSY),
            Run(&[3, 0x51, 2, 4, 1, 3, 0x51, 2, 4, 1]),
            Lines,
        ],
        expected: "1 no 10 0, 2 ok -, 3 ok -, 4 no 3 0, 04",
    },
    Case {
        name: "a write of no bytes sends the address alone, and the counter stays",
        steps: &[
            Do(&[1, 0x51, 2, 0x30, 0xee, 4, 1]),
            Do(&[1, 0x51, 1, 0x30]),
            Run(&[1, 0x51, 0]),
            Run(READ_DS1846),
        ],
        expected: "1 ok -, 1 ok ee",
    },
    Case {
        name: "the master acknowledges every byte received but the last: three bytes move the counter by three",
        steps: &[
            Do(&[1, 0x51, 5, 0x10, 0xa0, 0xa1, 0xa2, 0xa3, 4, 1]),
            Run(&[2, 0x51, 1, 0x10, 3]),
            Run(READ_DS1846),
        ],
        expected: "1 ok a0a1a2, 1 ok a3",
    },
    Case {
        name: "a samples job answers the levels; one of no samples answers none",
        steps: &[Run(&[7, 3, 0x03, 0x01, 0x1f, 7, 0])],
        expected: "1 ok 010001, 2 ok -",
    },
    Case {
        name: "a samples job may leave a transfer open, which the next one goes on with",
        steps: &[Run(&[7, 2, 0x01, 0x00]), Wires(&[Bytes(&[0xa2])])],
        expected: "1 ok 0000, a2+",
    },
    Case {
        name: "on wires that a part holds, a poll of an address that no part has is accepted",
        steps: &[
            // the DS1846 sends bytes 00h
            Wires(&[Start, Bytes(&[0xa3])]),
            Run(&[3, 0x53, 1]),
            Run(RECOVER),
            Run(&[3, 0x53, 1]),
        ],
        expected: "a3+, 1 ok -, 1 ok 07, 1 no 10 0",
    },
];
