// First bytes and reads of the DCPs of the X9520, part 0: docs/RULES.md, "Writing". AEh is their address byte for writing.

use crate::case::Case;
use crate::case::Step::{Cell, Do, Run, Tap, Wires};
use crate::files::{CUT_LOSING, DISABLE, FINISH_0, READ_DCP, WEL};
use crate::wire::Wire::{Bytes, Levels, Start, Stop};

pub static CASES: &[Case] = &[
    Case {
        name: "first bytes 00h, 01h, 02h, 80h, 81h and 82h get an ACK",
        steps: &[
            Wires(&[Start, Bytes(&[0xae, 0x00]), Start, Bytes(&[0xae, 0x01])]),
            Wires(&[Start, Bytes(&[0xae, 0x02]), Start, Bytes(&[0xae, 0x80])]),
            Wires(&[Start, Bytes(&[0xae, 0x81]), Start, Bytes(&[0xae, 0x82])]),
        ],
        expected: "ae+, 00+, ae+, 01+, ae+, 02+, ae+, 80+, ae+, 81+, ae+, 82+",
    },
    Case {
        name: "first bytes 03h, 04h, 40h and 83h get no ACK",
        steps: &[
            Wires(&[Start, Bytes(&[0xae, 0x03]), Start, Bytes(&[0xae, 0x04])]),
            Wires(&[Start, Bytes(&[0xae, 0x40]), Start, Bytes(&[0xae, 0x83])]),
        ],
        expected: "ae+, 03-, ae+, 04-, ae+, 40-, ae+, 83-",
    },
    Case {
        name: "with WEL set too first bytes 03h, 04h, 40h, 7Fh, 83h and FFh get no ACK",
        steps: &[
            Do(WEL),
            Run(&[1, 0x57, 2, 0x03, 0x18, 1, 0x57, 2, 0x04, 0x18]),
            Run(&[1, 0x57, 2, 0x40, 0x18, 1, 0x57, 2, 0x7f, 0x18]),
            Run(&[1, 0x57, 2, 0x83, 0x18, 1, 0x57, 2, 0xff, 0x18]),
        ],
        expected: "1 no 8 1, 2 no 8 1, 1 no 8 1, 2 no 8 1, 1 no 8 1, 2 no 8 1",
    },
    Case {
        name: "a first byte without an ACK names no DCP",
        steps: &[
            Do(WEL),
            Do(&[1, 0x57, 2, 0x01, 0x38]),
            Run(&[1, 0x57, 1, 0x03]),
            Run(READ_DCP),
        ],
        expected: "1 no 8 1, 1 ok 38",
    },
    Case {
        name: "a first byte names its DCP even if its data byte gets no ACK",
        steps: &[
            Do(WEL),
            Do(&[1, 0x57, 2, 0x02, 0xc8]),
            Do(&[1, 0x57, 2, 0x00, 0x11]),
            Do(DISABLE),
            Run(READ_DCP),
            Run(&[1, 0x57, 2, 0x02, 0x12]),
            Run(READ_DCP),
        ],
        expected: "1 ok 11, 1 no 8 2, 1 ok c8",
    },
    Case {
        name: "reads of a DCP repeat, and an aim byte names another",
        steps: &[
            Do(WEL),
            Do(&[1, 0x57, 2, 0x01, 0x38]),
            Do(&[1, 0x57, 2, 0x02, 0xc8]),
            Run(&[2, 0x57, 0, 3]),
            Run(&[2, 0x57, 1, 0x01, 2]),
        ],
        expected: "1 ok c8c8c8, 1 ok 3838",
    },
    Case {
        name: "after a power cut the named DCP is 0",
        steps: &[
            Do(WEL),
            Do(&[1, 0x57, 2, 0x80, 0x15, 4, 0]),
            Do(&[1, 0x57, 2, 0x02, 0xc8]),
            Do(CUT_LOSING),
            Run(READ_DCP),
        ],
        expected: "1 ok 15",
    },
    Case {
        name: "38h for DCP 1 is not stored with WP HIGH; stored with WP LOW it comes back at power-up, also after another byte",
        steps: &[
            Do(WEL),
            Wires(&[Levels(0x04), Start, Bytes(&[0xae, 0x81, 0x38]), Stop]),
            Do(&[1, 0x57, 2, 0x81, 0x38]),
            Do(FINISH_0),
            Do(&[1, 0x57, 2, 0x01, 0x18]),
            Tap(0, 1),
            Do(CUT_LOSING),
            Tap(0, 1),
            Cell(0, 257),
        ],
        expected: "ae+, 81+, 38-, 24, 25, 38",
    },
    Case {
        name: "without WEL no DCP byte is taken",
        steps: &[
            Run(&[1, 0x57, 2, 0x00, 0x20]),
            Run(&[1, 0x57, 2, 0x80, 0x20]),
            Tap(0, 0),
        ],
        expected: "1 no 8 2, 1 no 8 2, 0",
    },
];
