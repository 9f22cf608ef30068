// Numbered parts, their finishes and power cuts: docs/RULES.md, "What a part is" and "Pairs".

use crate::case::Case;
use crate::case::Step::{Cell, Do, Run, Tap, Wires};
use crate::files::{CUT_STORING, DS1846_BUSY, FINISH_0, FINISH_1, WEL, X9520_BUSY};
use crate::wire::Wire::{Bits, Bytes, Raw, Start};

pub static CASES: &[Case] = &[
    Case {
        name: "a finish reaches one part alone; the other goes on with its write",
        steps: &[
            Do(X9520_BUSY),
            Do(DS1846_BUSY),
            Run(&[4, 1, 2, 0x50, 1, 0x10, 1, 2, 0x51, 1, 0x10, 1]),
            Cell(0, 0x10),
            Run(FINISH_0),
            Cell(0, 0x10),
        ],
        expected: "1 ok -, 2 no 8 0, 3 ok ab, 00, 1 ok -, ab",
    },
    Case {
        name: "a cell answers what is stored, not what is staged or under way",
        steps: &[
            Wires(&[Start, Bytes(&[0xa2, 0x10, 0xab])]),
            Cell(1, 0x10),
            Do(DS1846_BUSY),
            Cell(1, 0x10),
            Do(FINISH_1),
            Cell(1, 0x10),
        ],
        expected: "a2+, 10+, ab+, 00, 00, ab",
    },
    Case {
        name: "a finish in the middle of an address byte lets that byte be heard",
        steps: &[
            Do(DS1846_BUSY),
            Wires(&[Start, Bits(7, 0xa2)]),
            Run(FINISH_1),
            Wires(&[Raw(&[0, 1, 2, 3])]),
        ],
        expected: "1 ok -, 0, 0, 0, 0",
    },
    Case {
        name: "a finish after the eighth rise of an address byte is too late for that byte",
        steps: &[
            Do(DS1846_BUSY),
            Wires(&[Start, Bits(8, 0xa2)]),
            Run(FINISH_1),
            Wires(&[Raw(&[2, 3])]),
        ],
        expected: "1 ok -, 1, 1",
    },
    Case {
        // mask 000Ch: offsets 2 and 3
        name: "a power cut stores what its mask marks, in both parts, and leaves neither busy",
        steps: &[
            Do(WEL),
            Do(&[1, 0x50, 5, 0x10, 0xa0, 0xa1, 0xa2, 0xa3]),
            Do(&[1, 0x51, 5, 0x12, 0xb2, 0xb3, 0xb4, 0xb5]),
            Run(&[5, 0x0c]),
            Run(&[2, 0x50, 1, 0x10, 4]),
            Run(&[2, 0x51, 1, 0x12, 4]),
            Run(&[4, 0, 4, 1]),
        ],
        expected: "1 ok -, 1 ok 0000a2a3, 1 ok b2b30000, 1 no 3 0, 2 no 3 0",
    },
    Case {
        // mask 0100h: offset 8
        name: "the offset of a cell is its number modulo 16, also where a page has eight cells",
        steps: &[
            Do(&[1, 0x51, 3, 0x18, 0xaa, 0xbb]),
            Do(&[5, 0x82, 0x00]),
            Run(&[2, 0x51, 1, 0x18, 2]),
        ],
        expected: "1 ok aa00",
    },
    Case {
        // cell 257 is the stored wiper of DCP 1, and its byte 38h is tap 25; masks 0002h and FFFDh
        name: "cell 257 has offset 1",
        steps: &[
            Do(WEL),
            Do(&[1, 0x57, 2, 0x81, 0x38]),
            Do(&[5, 0x02]),
            Cell(0, 257),
            Do(WEL),
            Do(&[1, 0x57, 2, 0x81, 0x14]),
            Tap(0, 1),
            Do(&[5, 0x83, 0xff, 0x7d]),
            Cell(0, 257),
            Tap(0, 1),
        ],
        expected: "38, 20, 38, 25",
    },
    Case {
        name: "a power cut loses what is staged, whatever its mask",
        steps: &[
            Wires(&[Start, Bytes(&[0xa2, 0x10, 0xab])]),
            Do(CUT_STORING),
            Cell(1, 0x10),
        ],
        expected: "a2+, 10+, ab+, 00",
    },
];
