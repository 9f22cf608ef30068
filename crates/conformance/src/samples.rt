// Samples, and what one sample does: docs/RULES.md, "The wires".
// The DS1846 is at A2h for writing and A3h for reading, the register of the X9520 at A5h for reading.

use crate::case::Case;
use crate::case::Step::{Cell, Do, Run, SameAs, Set, Wires};
use crate::files::{BOTH_LATCHES, FINISH_0, FINISH_1, READ_REGISTER, RECOVER};
use crate::wire::Wire::{Bits, Bytes, Levels, Raw, Start, Stop};

pub static CASES: &[Case] = &[
    Case {
        name: "sample 1Fh is accepted and 20h is refused",
        steps: &[Wires(&[Raw(&[0x1f, 0x20])])],
        expected: "1, no 1",
    },
    Case {
        name: "samples 40h, 80h and FFh are refused, and reach no wire",
        steps: &[Wires(&[Raw(&[0x40, 0x80, 0xff])]), SameAs(&[])],
        expected: "no 1, no 1, no 1, same",
    },
    Case {
        name: "a refused sample inside a byte changes nothing",
        steps: &[
            Wires(&[Start, Bits(5, 0xa2), Raw(&[0x21, 0x42])]),
            // the other bits of A2h, 010, and the ninth clock, whose two samples read LOW
            Wires(&[Raw(&[0, 1, 0, 2, 3, 2, 0, 1, 0, 2, 3])]),
        ],
        expected: "no 1, no 1, 0, 0, 0, 1, 1, 1, 0, 0, 0, 0, 0",
    },
    Case {
        name: "on a fresh board a first sample with SDA LOW is a START",
        steps: &[Wires(&[Raw(&[1, 0]), Bytes(&[0xa2])])],
        expected: "0, 0, a2+",
    },
    Case {
        name: "SCL and SDA that go LOW together are a fall and no START",
        steps: &[Wires(&[Raw(&[0]), Bytes(&[0xa2])])],
        expected: "0, a2-",
    },
    Case {
        name: "SCL and SDA that go HIGH together are a rise and no STOP",
        steps: &[
            Wires(&[Start, Bytes(&[0xa2, 0x10, 0xab]), Raw(&[0, 3])]),
            Run(FINISH_1),
        ],
        expected: "a2+, 10+, ab+, 0, 1, 1 no 3 0",
    },
    Case {
        name: "while a part pulls, SDA of the master makes neither START nor STOP",
        steps: &[
            // in the ninth clock SDA of the master goes LOW and HIGH again
            Wires(&[Start, Bits(8, 0xa2), Raw(&[2, 3, 1, 3, 2])]),
            Wires(&[Bytes(&[0x10, 0xab]), Stop]),
            Run(FINISH_1),
        ],
        expected: "0, 0, 0, 0, 1, 10+, ab+, 1 ok -",
    },
    Case {
        name: "a byte is judged by the WP of its eighth rise: HIGH there",
        steps: &[Wires(&[
            Start,
            Bytes(&[0xa2, 0x10]),
            Bits(7, 0xab),
            Raw(&[2, 7, 2, 3]),
        ])],
        expected: "a2+, 10+, 1, 1, 1, 1",
    },
    Case {
        name: "a byte is judged by the WP of its eighth rise: LOW there alone; the fall shows the pull",
        steps: &[
            Wires(&[Start, Bytes(&[0xa2, 0x10]), Levels(0x04), Bits(7, 0xab)]),
            Wires(&[Raw(&[6, 3, 6, 7])]),
        ],
        expected: "a2+, 10+, 1, 1, 0, 0",
    },
    Case {
        name: "a STOP is judged by the WP of its own sample: LOW there alone",
        steps: &[
            Wires(&[Start, Bytes(&[0xa2, 0x10, 0xab]), Raw(&[4, 5, 3])]),
            Run(FINISH_1),
        ],
        expected: "a2+, 10+, ab+, 0, 0, 1, 1 ok -",
    },
    Case {
        name: "a STOP is judged by the WP of its own sample: HIGH there alone",
        steps: &[
            Wires(&[Start, Bytes(&[0xa2, 0x10, 0xab]), Raw(&[0, 1, 7])]),
            Run(FINISH_1),
        ],
        expected: "a2+, 10+, ab+, 0, 0, 1, 1 no 3 0",
    },
    Case {
        name: "a monitor line that goes LOW in the sample of the fetch is seen in the register byte",
        steps: &[
            // 62h stored with V2RO and V3RO HIGH at its STOP sets both flags
            Set(0x18),
            Do(BOTH_LATCHES),
            Do(&[1, 0x52, 2, 0xff, 0x62]),
            Do(FINISH_0),
            Run(READ_REGISTER),
            // the sample of the fetch has V2RO LOW
            Wires(&[Levels(0x18), Start, Bits(8, 0xa5)]),
            Wires(&[Raw(&[0x1a, 0x1b, 0x12]), Levels(0x10), Bytes(&[0xff])]),
        ],
        expected: "1 ok 62, 0, 0, 0, 22-",
    },
    Case {
        name: "a flag goes out with its monitor line, and the cell keeps the byte as it was sent",
        steps: &[
            Set(0x18),
            Do(BOTH_LATCHES),
            Do(&[1, 0x52, 2, 0xff, 0x63]),
            Do(FINISH_0),
            Run(READ_REGISTER),
            Set(0x10),
            Run(READ_REGISTER),
            Cell(0, 259),
        ],
        expected: "1 ok 63, 1 ok 23, 63",
    },
    Case {
        name: "a byte that is being sent stays as it was fetched",
        steps: &[
            Set(0x18),
            Do(BOTH_LATCHES),
            Do(&[1, 0x52, 2, 0xff, 0x62]),
            Do(FINISH_0),
            // after bit 7 both monitor lines go LOW; bits 6 and 5 are the flags
            Wires(&[Levels(0x18), Start, Bytes(&[0xa5])]),
            Wires(&[Raw(&[0x1a, 0x1b, 0x02, 0x03, 0x02, 0x03])]),
            Do(RECOVER),
            Run(READ_REGISTER),
        ],
        expected: "a5+, 0, 0, 1, 1, 1, 1, 1 ok 02",
    },
];
