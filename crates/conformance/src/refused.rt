// Refusals 1 to 7, 9 and 10, and what they leave as it was: docs/RULES.md, "Refusals".

use crate::case::Case;
use crate::case::Step::{Cell, Do, Lines, Run, SameAs, Set, Tap, Wires};
use crate::files::{DS1846_BUSY, FINISH_0, FINISH_1, RECOVER};
use crate::wire::Wire::{Bytes, Raw, Start, Stop};

pub static CASES: &[Case] = &[
    Case {
        name: "refusal 1: samples of which one is bad are not given, nor those before it",
        steps: &[Run(&[7, 3, 0x03, 0x01, 0x23]), SameAs(&[])],
        expected: "1 no 1 0, same",
    },
    Case {
        name: "refusal 1: a sample with bit 5 alone",
        steps: &[Do(DS1846_BUSY), Wires(&[Raw(&[0x20])]), SameAs(DS1846_BUSY)],
        expected: "no 1, same",
    },
    Case {
        name: "refusal 2: a finish of a part that is not there",
        steps: &[Do(DS1846_BUSY), Run(&[4, 2]), SameAs(DS1846_BUSY)],
        expected: "1 no 2 0, same",
    },
    Case {
        name: "refusal 2 before 3: nothing is under way, and the part is not there",
        steps: &[Run(&[4, 2]), SameAs(&[])],
        expected: "1 no 2 0, same",
    },
    Case {
        name: "refusal 2 before 4: neither the part nor its cell or wiper is there",
        steps: &[Cell(2, 999), Tap(2, 9), SameAs(&[])],
        expected: "no 2, no 2, same",
    },
    Case {
        name: "refusal 3: a finish of a part with nothing under way",
        steps: &[Do(DS1846_BUSY), Run(FINISH_0), SameAs(DS1846_BUSY)],
        expected: "1 no 3 0, same",
    },
    Case {
        name: "refusal 3: what is staged is not under way before its STOP",
        steps: &[
            Wires(&[Start, Bytes(&[0xa2, 0x10, 0xab])]),
            Run(FINISH_1),
            Wires(&[Stop]),
            Run(FINISH_1),
            Cell(1, 0x10),
        ],
        expected: "a2+, 10+, ab+, 1 no 3 0, 1 ok -, ab",
    },
    Case {
        name: "refusal 4: cells beyond 259 and 255",
        steps: &[
            Cell(0, 259),
            Cell(0, 260),
            Cell(1, 255),
            Cell(1, 256),
            SameAs(&[]),
        ],
        expected: "01, no 4, 00, no 4, same",
    },
    Case {
        name: "refusal 4: wipers beyond 2",
        steps: &[Tap(0, 2), Tap(0, 3), Tap(1, 2), Tap(1, 3), SameAs(&[])],
        expected: "0, no 4, 0, no 4, same",
    },
    Case {
        name: "refusal 5: the file ends inside a write, a read, a wait, a finish, a power cut and a samples job",
        steps: &[
            Run(&[1, 0x51, 2, 0x10]),
            Run(&[2, 0x51, 1, 0x10]),
            Run(&[3, 0x51]),
            Run(&[4]),
            Run(&[5, 0x80]),
            Run(&[7, 2, 0x03]),
            SameAs(&[]),
        ],
        expected: "1 no 5 0, 1 no 5 0, 1 no 5 0, 1 no 5 0, 1 no 5 0, 1 no 5 0, same",
    },
    Case {
        name: "refusal 5 before 1: a samples job that is cut short and has a bad sample",
        steps: &[Run(&[7, 2, 0x20]), SameAs(&[])],
        expected: "1 no 5 0, same",
    },
    Case {
        name: "refusal 5 before 7: the file ends inside an address that would be beyond 127",
        steps: &[Run(&[1, 0x81]), SameAs(&[])],
        expected: "1 no 5 0, same",
    },
    Case {
        name: "refusal 6: kind bytes 0, 8 and FFh, and 81h, which is no number in groups",
        steps: &[
            Run(&[0]),
            Run(&[8]),
            Run(&[0xff]),
            Run(&[0x81, 0x51, 0]),
            SameAs(&[]),
        ],
        expected: "1 no 6 0, 1 no 6 0, 1 no 6 0, 1 no 6 0, same",
    },
    Case {
        name: "refusal 7 before 5: a number beyond its limit, after which the file ends",
        steps: &[
            Run(&[1, 0x81, 0x00]),
            Run(&[2, 0x51, 3]),
            Run(&[3, 0x51, 0]),
            SameAs(&[]),
        ],
        expected: "1 no 7 0, 1 no 7 0, 1 no 7 0, same",
    },
    Case {
        name: "refusals 5, 6 and 7 tell the offset of the job and end the run; 2 and 3 do not end it",
        steps: &[
            Run(&[4, 2, 6, 4]),
            Run(&[4, 0, 6, 9, 6]),
            Run(&[6, 3, 0x51, 0, 6]),
        ],
        expected: "1 no 2 0, 2 ok 01, 3 no 5 3, 1 no 3 0, 2 ok 01, 3 no 6 3, 1 ok 01, 2 no 7 1",
    },
    Case {
        name: "refusal 10: a wait on a busy chip; WP and the other lines of the record stand as before",
        steps: &[
            Do(DS1846_BUSY),
            Set(0x14),
            Run(&[3, 0x51, 3]),
            Lines,
            SameAs(DS1846_BUSY),
            Run(RECOVER),
        ],
        expected: "1 no 10 0, 14, same, 1 ok 01",
    },
];
