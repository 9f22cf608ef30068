// Job files that many cases begin with. A job is its kind and its fields:
// 1 address, count, bytes: a write; 2 address, aim count, aim bytes, count: a read; 3 address, polls: a wait; 4 part: a finish;
// 5 mask: a power cut; 6: a recovery; 7 count, samples: samples.

// Register writes of the X9520: 02h sets WEL, 06h sets RWEL, 00h clears both.
pub const WEL: &[u8] = &[1, 0x52, 2, 0xff, 0x02];

pub const RWEL: &[u8] = &[1, 0x52, 2, 0xff, 0x06];

pub const DISABLE: &[u8] = &[1, 0x52, 2, 0xff, 0x00];

pub const BOTH_LATCHES: &[u8] = &[1, 0x52, 2, 0xff, 0x02, 1, 0x52, 2, 0xff, 0x06];

// A register byte with BL 01, 10 or 11, stored: 0Bh, 13h or 1Bh. WEL is set afterwards, and RWEL is clear.
pub const LOCK_QUARTER: &[u8] = &[
    1, 0x52, 2, 0xff, 0x02, 1, 0x52, 2, 0xff, 0x06, 1, 0x52, 2, 0xff, 0x0b, 4, 0,
];

pub const LOCK_HALF: &[u8] = &[
    1, 0x52, 2, 0xff, 0x02, 1, 0x52, 2, 0xff, 0x06, 1, 0x52, 2, 0xff, 0x13, 4, 0,
];

pub const LOCK_ALL: &[u8] = &[
    1, 0x52, 2, 0xff, 0x02, 1, 0x52, 2, 0xff, 0x06, 1, 0x52, 2, 0xff, 0x1b, 4, 0,
];

// ABh for cell 10h is under way in the X9520, or in the DS1846.
pub const X9520_BUSY: &[u8] = &[1, 0x52, 2, 0xff, 0x02, 1, 0x50, 2, 0x10, 0xab];

pub const DS1846_BUSY: &[u8] = &[1, 0x51, 2, 0x10, 0xab];

pub const FINISH_0: &[u8] = &[4, 0];

pub const FINISH_1: &[u8] = &[4, 1];

// Cuts that lose all that is under way, or store all of it.
pub const CUT_LOSING: &[u8] = &[5, 0];

pub const CUT_STORING: &[u8] = &[5, 0x83, 0xff, 0x7f];

// One byte read with no first byte before it.
pub const READ_MEMORY: &[u8] = &[2, 0x50, 0, 1];

pub const READ_DS1846: &[u8] = &[2, 0x51, 0, 1];

pub const READ_REGISTER: &[u8] = &[2, 0x52, 0, 1];

pub const READ_DCP: &[u8] = &[2, 0x57, 0, 1];

pub const RECOVER: &[u8] = &[6];
