// Recoveries of wires that a part holds, and of others: docs/RULES.md, "Recovery" and "Clocks".

use crate::case::Case;
use crate::case::Step::{Do, Lines, Run, RunInto, SameAs, Set, Tap, Wires};
use crate::files::{FINISH_1, RECOVER, WEL};
use crate::wire::Wire::{Bits, Bytes, Raw, Start};

pub static CASES: &[Case] = &[
    Case {
        name: "a recovery of idle wires is one clock, and leaves the board as it was",
        steps: &[Run(RECOVER), SameAs(&[])],
        expected: "1 ok 01, same",
    },
    Case {
        name: "a recovery after a read address whose eighth bit is taken is ten clocks",
        steps: &[
            Wires(&[Start, Bits(7, 0xa3), Raw(&[2, 3])]),
            Run(RECOVER),
            Run(RECOVER),
        ],
        expected: "1, 1, 1 ok 0a, 1 ok 01",
    },
    Case {
        // clock 1 reads the ACK, and clock 2 the first bit of FFh
        name: "a recovery ends at the first clock that reads HIGH",
        steps: &[
            Do(&[1, 0x51, 2, 0x10, 0xff, 4, 1]),
            Do(&[1, 0x51, 1, 0x10]),
            Wires(&[Start, Bits(7, 0xa3), Raw(&[2, 3])]),
            Run(RECOVER),
        ],
        expected: "1, 1, 1 ok 02",
    },
    Case {
        // seven bits of 20h, and a clock with SDA released: 21h
        name: "a clock of a recovery may complete a byte, which takes effect",
        steps: &[
            Do(WEL),
            Wires(&[Start, Bytes(&[0xae, 0x00]), Bits(7, 0x20)]),
            Run(RECOVER),
            Tap(0, 0),
        ],
        expected: "ae+, 00+, 1 ok 01, 33",
    },
    Case {
        name: "a recovery uses the lines as they stand: with WP HIGH that byte, to be stored, is refused",
        steps: &[
            Do(WEL),
            Set(0x04),
            Wires(&[Start, Bytes(&[0xae, 0x80]), Bits(7, 0x20)]),
            Run(RECOVER),
            Tap(0, 0),
            Lines,
        ],
        expected: "ae+, 80+, 1 ok 01, 0, 04",
    },
    Case {
        name: "the START of a recovery drops what is staged",
        steps: &[
            Wires(&[Start, Bytes(&[0xa2, 0x10, 0xab])]),
            Run(RECOVER),
            Run(FINISH_1),
        ],
        expected: "a2+, 10+, ab+, 1 ok 01, 1 no 3 0",
    },
    Case {
        name: "a recovery is given room for its byte beforehand",
        steps: &[RunInto(1, 0, RECOVER), RunInto(1, 1, RECOVER)],
        expected: "no 9, 1 ok 01",
    },
];
