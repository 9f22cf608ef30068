// Who answers on boards with pairs of other chips, and how their parts are numbered: docs/RULES.md, "Pairs" and "The echo".

use crate::case::Case;
use crate::case::Step::{Cell, Do, Run, Tap};
use crate::files::{CUT_LOSING, CUT_STORING, DS1846_BUSY, FINISH_0, FINISH_1, X9520_BUSY};

// Two DS1846, which both have 51h.
pub static TWO_DS1846: &[Case] = &[
    Case {
        name: "two DS1846: parts 0 and 1, and no part 2",
        steps: &[
            Cell(0, 255),
            Cell(1, 255),
            Cell(2, 0),
            Tap(1, 2),
            Tap(2, 0),
            Run(&[4, 2]),
        ],
        expected: "00, 00, no 2, 0, no 2, 1 no 2 0",
    },
    Case {
        name: "two DS1846: the first alone answers 51h, and while it is busy none does",
        steps: &[
            Do(DS1846_BUSY),
            Run(&[1, 0x51, 2, 0x20, 0xcd]),
            Run(&[3, 0x51, 2]),
            Run(FINISH_1),
            Run(FINISH_0),
            Cell(0, 0x10),
            Cell(1, 0x10),
            Cell(1, 0x20),
        ],
        expected: "1 no 8 0, 1 no 10 0, 1 no 3 0, 1 ok -, ab, 00, 00",
    },
];

// A DS1846, part 0, with a pair of an X9520, part 1, and another DS1846, part 2.
pub static THREE_CHIPS: &[Case] = &[
    Case {
        name: "three chips: each part has its own cells, and there is no part 3",
        steps: &[
            Cell(0, 255),
            Cell(0, 256),
            Cell(1, 259),
            Cell(2, 255),
            Cell(2, 256),
            Cell(3, 0),
        ],
        expected: "00, no 4, 01, 00, no 4, no 2",
    },
    Case {
        name: "three chips: 50h is part 1 and 51h part 0; a finish reaches one of them",
        steps: &[
            Do(X9520_BUSY),
            Do(DS1846_BUSY),
            Run(&[4, 2, 4, 0]),
            Cell(0, 0x10),
            Cell(1, 0x10),
            Run(&[4, 1]),
            Cell(1, 0x10),
            Cell(2, 0x10),
        ],
        expected: "1 no 3 0, 2 ok -, ab, 00, 1 ok -, ab, 00",
    },
    Case {
        name: "three chips: a power cut reaches all of them",
        steps: &[
            Do(X9520_BUSY),
            Do(DS1846_BUSY),
            Do(CUT_LOSING),
            Run(&[4, 0, 4, 1, 4, 2]),
            Run(&[2, 0x51, 1, 0x10, 1]),
        ],
        expected: "1 no 3 0, 2 no 3 0, 3 no 3 0, 1 ok 00",
    },
];

// An X9520, part 0, with an echo, which listens at 21h and has no numbered part.
pub static X9520_ECHO: &[Case] = &[
    Case {
        name: "an echo: the last byte written, as often as it is read; FFh before any and after a power cut",
        steps: &[
            Run(&[2, 0x21, 0, 1]),
            Run(&[1, 0x21, 2, 0x12, 0xab, 2, 0x21, 0, 2]),
            Do(CUT_STORING),
            Run(&[2, 0x21, 0, 1]),
        ],
        expected: "1 ok ff, 1 ok -, 2 ok abab, 1 ok ff",
    },
    Case {
        name: "an X9520 with an echo: there is no part 1",
        steps: &[Cell(0, 259), Cell(1, 0), Tap(1, 0), Run(FINISH_1)],
        expected: "01, no 2, no 2, 1 no 2 0",
    },
];
