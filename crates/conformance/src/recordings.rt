// Recordings and the transfers that they show: docs/RULES.md, "Recordings".
// START takes samples 0 to 3 and falls at sample 2; a byte with its ninth bit takes 27; STOP takes 3 and falls at the last.
// The first number of a step is the room of the row; the others of a line are first, last, address, ninths and clean.

use crate::case::Case;
use crate::case::Step::Recording;
use crate::wire::Wire::{Acked, Bits, Bytes, Levels, Raw, Start, Stop};

pub static CASES: &[Case] = &[
    Case {
        name: "recording: a write with a clean STOP",
        steps: &[Recording(2, &[Start, Acked(&[0xa2, 0x10, 0xab]), Stop])],
        expected: "2 87 162 3 1",
    },
    Case {
        name: "recording: an answered poll ends with a clean STOP, since the address byte counts",
        steps: &[Recording(2, &[Start, Acked(&[0xa2]), Stop])],
        expected: "2 33 162 1 1",
    },
    Case {
        name: "recording: the sample of a repeated START is the last of one transfer and the first of the next",
        steps: &[Recording(
            2,
            &[
                Start,
                Acked(&[0xa2, 0x10]),
                Start,
                Acked(&[0xa3]),
                Bytes(&[0x00]),
                Stop,
            ],
        )],
        expected: "2 60 162 2 0, 60 118 163 2 0",
    },
    Case {
        name: "recording: a transfer left open ends at the last sample",
        steps: &[Recording(2, &[Start, Acked(&[0xa2]), Bits(3, 0xff)])],
        expected: "2 39 162 1 0",
    },
    Case {
        name: "recording: a START right after a START",
        steps: &[Recording(2, &[Start, Start])],
        expected: "2 6 0 0 0, 6 7 0 0 0",
    },
    Case {
        name: "recording: a STOP with no transfer open is passed over",
        steps: &[Recording(2, &[Stop, Start, Stop, Bits(1, 0), Stop])],
        expected: "5 9 0 0 0",
    },
    Case {
        name: "recording: the address is whole at its eighth rise, also where that is the one before the STOP",
        steps: &[
            Recording(2, &[Start, Bits(7, 0xa2), Stop]),
            Recording(2, &[Start, Bits(6, 0xa2), Stop]),
        ],
        expected: "2 27 162 0 0, 2 24 0 0 0",
    },
    Case {
        name: "recording: a ninth rise with SDA HIGH counts too, but the STOP after it is not clean",
        steps: &[Recording(2, &[Start, Acked(&[0xa2]), Bytes(&[0x10]), Stop])],
        expected: "2 60 162 2 0",
    },
    Case {
        name: "recording: a STOP in the ninth clock, and one two rises after it, are not clean",
        steps: &[
            Recording(2, &[Start, Bits(8, 0xa2), Stop]),
            Recording(2, &[Start, Acked(&[0xa2]), Bits(1, 0xff), Stop]),
        ],
        expected: "2 30 162 1 0, 2 36 162 1 0",
    },
    Case {
        name: "recording: a STOP after a byte with a LOW ninth bit is clean, also where a byte before it has a HIGH one",
        steps: &[Recording(2, &[Start, Bytes(&[0xa6]), Acked(&[0x10, 0xab]), Stop])],
        expected: "2 87 166 3 1",
    },
    Case {
        name: "recording: a STOP after an address byte with a HIGH ninth bit is not clean",
        steps: &[Recording(2, &[Start, Bytes(&[0xa6]), Stop])],
        expected: "2 33 166 1 0",
    },
    Case {
        name: "recording: a STOP two rises after a LOW ninth bit is not clean, also where a byte before it has a HIGH one",
        steps: &[Recording(
            2,
            &[Start, Bytes(&[0xa6]), Acked(&[0x10]), Bits(1, 0xff), Stop],
        )],
        expected: "2 63 166 2 0",
    },
    Case {
        name: "recording: a read that its master ends with a HIGH ninth bit is not clean",
        steps: &[Recording(2, &[Start, Acked(&[0xa3, 0x5a]), Bytes(&[0xc3]), Stop])],
        expected: "2 87 163 3 0",
    },
    Case {
        name: "recording: SCL and SDA that change together make neither START nor STOP",
        steps: &[Recording(2, &[Raw(&[0, 3, 0, 1, 2]), Bits(8, 0xa2)])],
        expected: "nothing",
    },
    Case {
        name: "recording: WP and the monitor lines are not looked at",
        steps: &[Recording(
            2,
            &[Levels(0x1c), Start, Acked(&[0xa2]), Levels(0x04), Stop],
        )],
        expected: "2 33 162 1 1",
    },
    Case {
        name: "recording: room for all transfers is needed, and no more",
        steps: &[
            Recording(1, &[Start, Start]),
            Recording(0, &[Stop]),
            Recording(1, &[Start]),
        ],
        expected: "no 9, 2 3 0 0 0",
    },
    Case {
        name: "recording: a sample with bit 5, 6 or 7 set is refused before the room is tested",
        steps: &[
            Recording(0, &[Start, Raw(&[0x20])]),
            Recording(1, &[Start, Raw(&[0x40])]),
            Recording(1, &[Raw(&[0x80]), Start]),
        ],
        expected: "no 1, no 1, no 1",
    },
];
