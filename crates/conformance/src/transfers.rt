// Transfers, deafness and clean STOPs: docs/RULES.md, "The wires".
// The DS1846 is at A2h for writing and A3h for reading.

use crate::case::Case;
use crate::case::Step::{Do, Run, Wires};
use crate::files::{CUT_STORING, DS1846_BUSY, FINISH_1, READ_DS1846};
use crate::wire::Wire::{Acked, Bits, Bytes, Levels, Raw, Start, Stop};

pub static CASES: &[Case] = &[
    Case {
        name: "after a STOP nothing is taken until START",
        steps: &[Wires(&[Start, Stop, Bytes(&[0xa2]), Start, Bytes(&[0xa2])])],
        expected: "a2-, a2+",
    },
    Case {
        name: "after a byte without an ACK nothing is taken until START",
        steps: &[Wires(&[Start, Bytes(&[0xa6, 0xa2]), Start, Bytes(&[0xa2])])],
        expected: "a6-, a2-, a2+",
    },
    Case {
        name: "a LOW ninth bit that only the master makes is no ACK",
        steps: &[
            Wires(&[Start, Bytes(&[0xa2, 0x10]), Levels(0x04), Acked(&[0xab])]),
            Wires(&[Bytes(&[0xcd]), Stop]),
            Run(FINISH_1),
        ],
        expected: "a2+, 10+, ab+, cd-, 1 no 3 0",
    },
    Case {
        name: "a STOP one rise after the ninth is clean, also where samples are given twice",
        steps: &[
            Wires(&[Start, Bytes(&[0xa2, 0x10, 0xab])]),
            Wires(&[Raw(&[0, 0, 1, 1, 3, 3])]),
            Run(FINISH_1),
        ],
        expected: "a2+, 10+, ab+, 0, 0, 0, 0, 1, 1, 1 ok -",
    },
    Case {
        name: "a STOP two rises after the ninth is not clean",
        steps: &[
            Wires(&[Start, Bytes(&[0xa2, 0x10, 0xab]), Bits(1, 0), Stop]),
            Run(FINISH_1),
        ],
        expected: "a2+, 10+, ab+, 1 no 3 0",
    },
    Case {
        name: "a repeated START drops what is staged",
        steps: &[
            Wires(&[
                Start,
                Bytes(&[0xa2, 0x10, 0xab]),
                Start,
                Bytes(&[0xa2]),
                Stop,
            ]),
            Run(FINISH_1),
        ],
        expected: "a2+, 10+, ab+, a2+, 1 no 3 0",
    },
    Case {
        name: "a STOP right after the eighth rise: the counter that the byte has set stays set",
        steps: &[
            // ABh in cell 10h; the counter then is 11h
            Do(DS1846_BUSY),
            Do(FINISH_1),
            Wires(&[Start, Bytes(&[0xa2]), Bits(7, 0x10), Raw(&[0, 1, 3])]),
            Run(READ_DS1846),
        ],
        expected: "a2+, 0, 0, 1, 1 ok ab",
    },
    Case {
        name: "a STOP in the ninth clock of a byte received calls off the next byte",
        steps: &[
            Do(&[1, 0x51, 4, 0x10, 0xa0, 0xa1, 0xa2]),
            Do(FINISH_1),
            Do(&[1, 0x51, 1, 0x10]),
            // A0h is sent; its ninth bit is LOW, and then SDA goes HIGH
            Wires(&[Start, Bytes(&[0xa3]), Bits(8, 0xff), Raw(&[0, 1, 3])]),
            Run(READ_DS1846),
        ],
        expected: "a3+, 0, 0, 1, 1 ok a1",
    },
    Case {
        name: "a power cut ends a transfer with no STOP, and both wires count as HIGH",
        steps: &[
            Wires(&[Start, Bytes(&[0xa2, 0x10, 0xab])]),
            Do(CUT_STORING),
            Wires(&[Stop]),
            Run(FINISH_1),
            Wires(&[Bits(1, 0)]),
            Do(CUT_STORING),
            Wires(&[Raw(&[1, 0]), Bytes(&[0xa2])]),
        ],
        expected: "a2+, 10+, ab+, 1 no 3 0, 0, 0, a2+",
    },
];
