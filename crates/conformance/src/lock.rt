// The lock of the X9520, part 0, and RWEL: docs/RULES.md, "The register" and "Writing".
// Address bytes for writing: A0h memory, A4h register, AEh DCPs; A5h reads the register.

use crate::case::Case;
use crate::case::Step::{Cell, Do, Run, Tap, Wires};
use crate::files::{
    BOTH_LATCHES, CUT_LOSING, CUT_STORING, FINISH_0, LOCK_ALL, LOCK_HALF, LOCK_QUARTER,
    READ_REGISTER, RWEL, WEL,
};
use crate::wire::Wire::{Bytes, Levels, Start, Stop};

pub static CASES: &[Case] = &[
    Case {
        name: "BL 00: no memory is locked",
        steps: &[Do(WEL), Run(&[1, 0x50, 2, 0xff, 0x55])],
        expected: "1 ok -",
    },
    Case {
        name: "BL 01: the last quarter is locked, FFh too",
        steps: &[Do(LOCK_QUARTER), Run(&[1, 0x50, 2, 0xff, 0x55])],
        expected: "1 no 8 2",
    },
    Case {
        name: "BL 10: 80h is locked and 7Fh is not",
        steps: &[
            Do(LOCK_HALF),
            Run(&[1, 0x50, 2, 0x80, 0x55]),
            Run(&[1, 0x50, 2, 0x7f, 0x55]),
        ],
        expected: "1 no 8 2, 1 ok -",
    },
    Case {
        name: "BL 11: 00h and 7Fh are locked",
        steps: &[
            Do(LOCK_ALL),
            Run(&[1, 0x50, 2, 0x00, 0x55]),
            Run(&[1, 0x50, 2, 0x7f, 0x55]),
        ],
        expected: "1 no 8 2, 1 no 8 2",
    },
    Case {
        name: "BL 01: no DCP byte is taken, to be stored or not",
        steps: &[
            Do(LOCK_QUARTER),
            Run(&[1, 0x57, 2, 0x00, 0x10]),
            Run(&[1, 0x57, 2, 0x80, 0x10]),
            Tap(0, 0),
        ],
        expected: "1 no 8 2, 1 no 8 2, 0",
    },
    Case {
        name: "a try at locked memory clears RWEL with no STOP; WEL stays",
        steps: &[
            Do(LOCK_QUARTER),
            Do(RWEL),
            Run(READ_REGISTER),
            Wires(&[Start, Bytes(&[0xa0, 0xc0, 0x55])]),
            Wires(&[Start, Bytes(&[0xa5, 0xff])]),
        ],
        expected: "1 ok 0f, a0+, c0+, 55-, a5+, 0b-",
    },
    Case {
        name: "a try at a locked DCP leaves RWEL set",
        steps: &[
            Do(LOCK_QUARTER),
            Do(RWEL),
            Run(&[1, 0x57, 2, 0x00, 0x10]),
            Run(READ_REGISTER),
        ],
        expected: "1 no 8 2, 1 ok 0f",
    },
    Case {
        name: "a byte for locked memory with WP HIGH fails for WP, and RWEL stays set",
        steps: &[
            Do(LOCK_QUARTER),
            Do(RWEL),
            Wires(&[Levels(0x04), Start, Bytes(&[0xa0, 0xc0, 0x55]), Stop]),
            Run(READ_REGISTER),
        ],
        expected: "a0+, c0+, 55-, 1 ok 0f",
    },
    Case {
        name: "a first byte for locked memory alone leaves RWEL set",
        steps: &[
            Do(LOCK_QUARTER),
            Do(RWEL),
            Run(&[1, 0x50, 1, 0xc0]),
            Run(READ_REGISTER),
        ],
        expected: "1 ok -, 1 ok 0f",
    },
    Case {
        name: "a lock under way is not stored yet, and a power cut may lose it",
        steps: &[
            Do(BOTH_LATCHES),
            Do(&[1, 0x52, 2, 0xff, 0x0b]),
            Cell(0, 259),
            Do(CUT_LOSING),
            Run(READ_REGISTER),
            Do(WEL),
            Run(&[1, 0x50, 2, 0xc0, 0x55]),
        ],
        expected: "01, 1 ok 01, 1 ok -",
    },
    Case {
        name: "a lock holds from the power cut that stores its byte; the latches are clear then",
        steps: &[
            Do(BOTH_LATCHES),
            Do(&[1, 0x52, 2, 0xff, 0x0b]),
            Do(CUT_STORING),
            Run(READ_REGISTER),
            Do(WEL),
            Run(&[1, 0x50, 2, 0xc0, 0x55]),
        ],
        expected: "1 ok 09, 1 no 8 2",
    },
    Case {
        name: "02h with RWEL set is stored, and from its finish on nothing is locked",
        steps: &[
            Do(LOCK_ALL),
            Do(RWEL),
            Run(WEL),
            Run(FINISH_0),
            Run(READ_REGISTER),
            Run(&[1, 0x50, 2, 0x00, 0x55]),
        ],
        expected: "1 ok -, 1 ok -, 1 ok 02, 1 ok -",
    },
];
