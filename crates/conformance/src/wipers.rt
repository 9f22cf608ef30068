// The wipers of the X9520, part 0, and their stored bytes in cells 256 to 258: docs/RULES.md, "The DCPs" and "Writing".

use crate::case::Case;
use crate::case::Step::{Cell, Do, Run, Tap, Wires};
use crate::files::{CUT_LOSING, FINISH_0, READ_DCP, WEL};
use crate::wire::Wire::{Bits, Bytes, Raw, Start};

pub static CASES: &[Case] = &[
    Case {
        name: "a byte with WT 1 moves the wiper at once and is stored at its finish",
        steps: &[
            Do(WEL),
            Do(&[1, 0x57, 2, 0x80, 0x20]),
            Tap(0, 0),
            Cell(0, 256),
            Do(FINISH_0),
            Tap(0, 0),
            Cell(0, 256),
        ],
        expected: "32, 00, 32, 20",
    },
    Case {
        name: "a byte with WT 0 moves the wiper until the power cut; the stored one comes back",
        steps: &[
            Do(WEL),
            Do(&[1, 0x57, 2, 0x80, 0x20, 4, 0]),
            Do(&[1, 0x57, 2, 0x00, 0x05]),
            Tap(0, 0),
            Run(FINISH_0),
            Do(CUT_LOSING),
            Tap(0, 0),
            Cell(0, 256),
        ],
        expected: "5, 1 no 3 0, 32, 20",
    },
    Case {
        // cell 256 has offset 0
        name: "a power cut loses or stores a byte with WT 1 that is under way",
        steps: &[
            Do(WEL),
            Do(&[1, 0x57, 2, 0x80, 0x20, 5, 0]),
            Tap(0, 0),
            Do(WEL),
            Do(&[1, 0x57, 2, 0x80, 0x20, 5, 1]),
            Tap(0, 0),
        ],
        expected: "0, 32",
    },
    Case {
        name: "the wiper moves at the eighth rise, and a STOP right after it leaves it there",
        steps: &[
            Do(WEL),
            Wires(&[Start, Bytes(&[0xae, 0x00]), Bits(7, 0x20), Raw(&[0, 1, 3])]),
            Tap(0, 0),
        ],
        expected: "ae+, 00+, 0, 0, 1, 32",
    },
    Case {
        name: "a second data byte gets no ACK, and the wiper stays where the first moved it",
        steps: &[Do(WEL), Run(&[1, 0x57, 3, 0x00, 0x20, 0x21]), Tap(0, 0)],
        expected: "1 no 8 3, 32",
    },
    Case {
        name: "DCP 0 has 64 taps: FFh is tap 63 and reads 3Fh; the cell keeps FFh",
        steps: &[
            Do(WEL),
            Do(&[1, 0x57, 2, 0x80, 0xff, 4, 0]),
            Tap(0, 0),
            Run(READ_DCP),
            Cell(0, 256),
            Do(CUT_LOSING),
            Tap(0, 0),
        ],
        expected: "63, 1 ok 3f, ff, 63",
    },
    Case {
        // 1Fh and 59h stand for no tap of their own; 58h is tap 74 and 78h tap 75
        name: "DCP 1 has 100 taps: 1Fh and 59h are tap 99 and read 60h; 58h and 78h are taps 74 and 75",
        steps: &[
            Do(WEL),
            Do(&[1, 0x57, 2, 0x01, 0x1f]),
            Tap(0, 1),
            Run(READ_DCP),
            Do(&[1, 0x57, 2, 0x01, 0x58]),
            Tap(0, 1),
            Do(&[1, 0x57, 2, 0x01, 0x59]),
            Tap(0, 1),
            Do(&[1, 0x57, 2, 0x01, 0x78]),
            Tap(0, 1),
        ],
        expected: "99, 1 ok 60, 74, 99, 75",
    },
    Case {
        name: "DCP 2 has 256 taps: FFh is tap 255 and reads FFh",
        steps: &[
            Do(WEL),
            Do(&[1, 0x57, 2, 0x02, 0xff]),
            Tap(0, 2),
            Run(READ_DCP),
        ],
        expected: "255, 1 ok ff",
    },
];
