// Register bytes of the X9520, part 0, with WP LOW, and the flags: docs/RULES.md, "The register" and "Writing".
// A4h is the register's address byte for writing.

use crate::case::Case;
use crate::case::Step::{Cell, Do, Run, Set, Wires};
use crate::files::{BOTH_LATCHES, CUT_LOSING, DISABLE, FINISH_0, READ_REGISTER, RWEL, WEL};
use crate::wire::Wire::{Bits, Bytes, Start, Stop};

pub static CASES: &[Case] = &[
    Case {
        name: "06h without WEL gets no ACK",
        steps: &[Run(RWEL), Run(READ_REGISTER)],
        expected: "1 no 8 2, 1 ok 01",
    },
    Case {
        name: "00h gets an ACK whatever the latches are, and clears both",
        steps: &[
            Run(DISABLE),
            Run(READ_REGISTER),
            Do(BOTH_LATCHES),
            Run(DISABLE),
            Run(FINISH_0),
            Run(READ_REGISTER),
        ],
        expected: "1 ok -, 1 ok 01, 1 ok -, 1 no 3 0, 1 ok 01",
    },
    Case {
        name: "0Eh and FFh, with bits 2 and 1 set, need RWEL and change nothing",
        steps: &[
            Do(WEL),
            Run(&[1, 0x52, 2, 0xff, 0x0e]),
            Do(RWEL),
            Run(&[1, 0x52, 2, 0xff, 0x0e]),
            Run(&[1, 0x52, 2, 0xff, 0xff]),
            Run(FINISH_0),
            Run(READ_REGISTER),
        ],
        expected: "1 no 8 2, 1 ok -, 1 ok -, 1 no 3 0, 1 ok 07",
    },
    Case {
        name: "0Bh, with bit 2 clear and bit 1 set, needs RWEL",
        steps: &[
            Run(&[1, 0x52, 2, 0xff, 0x0b]),
            Do(WEL),
            Run(&[1, 0x52, 2, 0xff, 0x0b]),
            Run(READ_REGISTER),
        ],
        expected: "1 no 8 2, 1 no 8 2, 1 ok 03",
    },
    Case {
        name: "01h, 04h and FDh, with bit 1 clear, get no ACK with RWEL set, and RWEL stays",
        steps: &[
            Do(BOTH_LATCHES),
            Run(&[1, 0x52, 2, 0xff, 0x01]),
            Run(&[1, 0x52, 2, 0xff, 0x04]),
            Run(&[1, 0x52, 2, 0xff, 0xfd]),
            Run(READ_REGISTER),
        ],
        expected: "1 no 8 2, 1 no 8 2, 1 no 8 2, 1 ok 07",
    },
    Case {
        name: "a second data byte gets no ACK and drops a latch byte",
        steps: &[Run(&[1, 0x52, 3, 0xff, 0x02, 0x02]), Run(READ_REGISTER)],
        expected: "1 no 8 3, 1 ok 01",
    },
    Case {
        name: "a second data byte gets no ACK and drops a byte to be stored; RWEL stays",
        steps: &[
            Do(BOTH_LATCHES),
            Run(&[1, 0x52, 3, 0xff, 0x0b, 0x0b]),
            Run(FINISH_0),
            Run(READ_REGISTER),
        ],
        expected: "1 no 8 3, 1 no 3 0, 1 ok 07",
    },
    Case {
        name: "a latch byte changes nothing at a STOP that is not clean, nor at a START",
        steps: &[
            Wires(&[Start, Bytes(&[0xa4, 0xff, 0x02]), Bits(1, 0), Stop]),
            Run(READ_REGISTER),
            Wires(&[Start, Bytes(&[0xa4, 0xff, 0x02]), Start, Stop]),
            Run(READ_REGISTER),
        ],
        expected: "a4+, ff+, 02+, 1 ok 01, a4+, ff+, 02+, 1 ok 01",
    },
    Case {
        name: "a byte to be stored is dropped at a STOP that is not clean; RWEL stays",
        steps: &[
            Do(BOTH_LATCHES),
            Wires(&[Start, Bytes(&[0xa4, 0xff, 0x0b]), Bits(1, 0), Stop]),
            Run(FINISH_0),
            Run(READ_REGISTER),
        ],
        expected: "a4+, ff+, 0b+, 1 no 3 0, 1 ok 07",
    },
    Case {
        // 6Bh: bits 6 and 5 are those of the flags; both monitor lines are LOW
        name: "cell 259 holds the byte as sent; a read shows flags and latches in their bits",
        steps: &[
            Do(BOTH_LATCHES),
            Do(&[1, 0x52, 2, 0xff, 0x6b]),
            Do(FINISH_0),
            Cell(0, 259),
            Run(READ_REGISTER),
        ],
        expected: "6b, 1 ok 0b",
    },
    Case {
        name: "reads of the register repeat",
        steps: &[Run(&[2, 0x52, 0, 3])],
        expected: "1 ok 010101",
    },
    Case {
        // 62h, with V2RO alone HIGH at its STOP; then V2RO goes LOW
        name: "a flag is set at the STOP where bit and line are HIGH, and cleared where the line is LOW",
        steps: &[
            Set(0x08),
            Do(BOTH_LATCHES),
            Do(&[1, 0x52, 2, 0xff, 0x62]),
            Do(FINISH_0),
            Run(READ_REGISTER),
            Set(0x00),
            Run(READ_REGISTER),
            Set(0x08),
            Run(READ_REGISTER),
        ],
        expected: "1 ok 42, 1 ok 02, 1 ok 02",
    },
    Case {
        // 22h has bit 5 alone of the two
        name: "a flag whose bit is 0 becomes 0 at the STOP, also with its line HIGH",
        steps: &[
            Set(0x18),
            Do(BOTH_LATCHES),
            Do(&[1, 0x52, 2, 0xff, 0x62, 4, 0]),
            Do(RWEL),
            Do(&[1, 0x52, 2, 0xff, 0x22, 4, 0]),
            Run(READ_REGISTER),
        ],
        expected: "1 ok 22",
    },
    Case {
        name: "a power cut clears latches and flags",
        steps: &[
            Set(0x18),
            Do(BOTH_LATCHES),
            Do(&[1, 0x52, 2, 0xff, 0x62, 4, 0]),
            Run(READ_REGISTER),
            Do(CUT_LOSING),
            Run(READ_REGISTER),
        ],
        expected: "1 ok 62, 1 ok 00",
    },
];
