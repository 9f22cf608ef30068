// The X9520, part 0, with WP HIGH (level 04h): docs/RULES.md, "The register".
// A4h is the register's address byte for writing, AEh that of the DCPs.

use crate::case::Case;
use crate::case::Step::{Cell, Do, Run, Set, Tap, Wires};
use crate::files::{BOTH_LATCHES, FINISH_0, LOCK_QUARTER, READ_REGISTER, RWEL, WEL};
use crate::wire::Wire::{Bytes, Levels, Start, Stop};

pub static CASES: &[Case] = &[
    Case {
        name: "BL 00: a latch byte is taken with WP HIGH throughout",
        steps: &[
            Wires(&[Levels(0x04), Start, Bytes(&[0xa4, 0xff, 0x02]), Stop]),
            Run(READ_REGISTER),
            Wires(&[Levels(0x04), Start, Bytes(&[0xa4, 0xff, 0x06]), Stop]),
            Run(READ_REGISTER),
        ],
        expected: "a4+, ff+, 02+, 1 ok 03, a4+, ff+, 06+, 1 ok 07",
    },
    Case {
        name: "BL 00: 00h is taken with WP HIGH throughout, and clears both latches",
        steps: &[
            Do(BOTH_LATCHES),
            Wires(&[Levels(0x04), Start, Bytes(&[0xa4, 0xff, 0x00]), Stop]),
            Run(READ_REGISTER),
        ],
        expected: "a4+, ff+, 00+, 1 ok 01",
    },
    Case {
        name: "BL 00: 0Eh with RWEL set is no stored write, and gets an ACK",
        steps: &[
            Do(BOTH_LATCHES),
            Wires(&[Levels(0x04), Start, Bytes(&[0xa4, 0xff, 0x0e]), Stop]),
            Run(READ_REGISTER),
        ],
        expected: "a4+, ff+, 0e+, 1 ok 07",
    },
    Case {
        name: "BL 01: a latch byte gets no ACK, not even 00h",
        steps: &[
            Do(LOCK_QUARTER),
            Wires(&[Levels(0x04), Start, Bytes(&[0xa4, 0xff, 0x00]), Stop]),
            Run(READ_REGISTER),
        ],
        expected: "a4+, ff+, 00-, 1 ok 0b",
    },
    Case {
        name: "BL 01: a latch byte with WP HIGH at the STOP alone changes nothing",
        steps: &[
            Do(LOCK_QUARTER),
            Wires(&[Start, Bytes(&[0xa4, 0xff, 0x00]), Levels(0x04), Stop]),
            Run(READ_REGISTER),
        ],
        expected: "a4+, ff+, 00+, 1 ok 0b",
    },
    Case {
        name: "BL 00: a byte to be stored in the register gets no ACK, and RWEL stays",
        steps: &[
            Do(BOTH_LATCHES),
            Wires(&[Levels(0x04), Start, Bytes(&[0xa4, 0xff, 0x0b]), Stop]),
            Run(READ_REGISTER),
        ],
        expected: "a4+, ff+, 0b-, 1 ok 07",
    },
    Case {
        // both flags are set by 62h; 02h would clear them
        name: "a register byte whose STOP finds WP HIGH starts nothing; RWEL and the flags stay",
        steps: &[
            Set(0x18),
            Do(BOTH_LATCHES),
            Do(&[1, 0x52, 2, 0xff, 0x62, 4, 0]),
            Do(RWEL),
            Wires(&[Levels(0x18), Start, Bytes(&[0xa4, 0xff, 0x02])]),
            Wires(&[Levels(0x1c), Stop]),
            Run(FINISH_0),
            Run(READ_REGISTER),
        ],
        expected: "a4+, ff+, 02+, 1 no 3 0, 1 ok 66",
    },
    Case {
        name: "BL 00: a DCP byte is taken if it is not to be stored, and not if it is",
        steps: &[
            Do(WEL),
            Wires(&[Levels(0x04), Start, Bytes(&[0xae, 0x00, 0x20]), Stop]),
            Tap(0, 0),
            Wires(&[Levels(0x04), Start, Bytes(&[0xae, 0x80, 0x21]), Stop]),
            Tap(0, 0),
        ],
        expected: "ae+, 00+, 20+, 32, ae+, 80+, 21-, 32",
    },
    Case {
        name: "BL 00: a DCP byte to be stored whose STOP finds WP HIGH moves the wiper and stores nothing",
        steps: &[
            Do(WEL),
            Wires(&[Start, Bytes(&[0xae, 0x80, 0x20]), Levels(0x04), Stop]),
            Tap(0, 0),
            Run(FINISH_0),
            Cell(0, 256),
        ],
        expected: "ae+, 80+, 20+, 32, 1 no 3 0, 00",
    },
    Case {
        name: "BL 01: no DCP byte is taken",
        steps: &[
            Do(LOCK_QUARTER),
            Wires(&[Levels(0x04), Start, Bytes(&[0xae, 0x00, 0x20]), Stop]),
            Tap(0, 0),
        ],
        expected: "ae+, 00+, 20-, 0",
    },
];
