// What is put on the two wires, and the samples that it is made of.

use std::alloc::{AllocError, Global};

// Address bytes: A0h and A1h for the memory of the X9520, A4h and A5h for its register, AEh and AFh for its DCPs; A2h and A3h for the DS1846.
#[derive(Clone, Copy)]
pub enum Wire {
    Start,
    Stop,
    // Bytes, each of eight bits, highest first, and a ninth with SDA released. FFh releases SDA throughout, for a byte that a
    // part sends. Answers each byte that was on the wire, with + for a LOW ninth bit and - for a HIGH one.
    Bytes(&'static [u8]),
    // The same with a LOW ninth bit of the master: the ACK for a received byte. In a recording any ACK.
    Acked(&'static [u8]),
    // The first bits of a byte.
    Bits(u8, u8),
    // Samples as they are. Answers the level of SDA for each, or its refusal.
    Raw(&'static [u8]),
    // WP, V2RO and V3RO in the items after it, but for samples as they are.
    Levels(u8),
}

fn bit(samples: &mut Vec<u8>, levels: u8, bit: u8) -> Result<(), AllocError> {
    let sda = bit % 2 * 2;
    samples.push(levels | sda)?;
    samples.push(levels | sda | 1)?;
    samples.push(levels | sda)?;
    Ok(())
}

fn bits(samples: &mut Vec<u8>, levels: u8, count: u8, byte: u8) -> Result<(), AllocError> {
    let mut rest = byte;
    for _ in 0..count {
        bit(samples, levels, rest / 128)?;
        rest = rest % 128 * 2;
    }
    Ok(())
}

fn bytes(samples: &mut Vec<u8>, levels: u8, sent: &[u8], ninth: u8) -> Result<(), AllocError> {
    for &byte in sent {
        bits(samples, levels, 8, byte)?;
        bit(samples, levels, ninth)?;
    }
    Ok(())
}

fn all(samples: &mut Vec<u8>, levels: u8, given: &[u8]) -> Result<(), AllocError> {
    for &sample in given {
        samples.push(levels | sample)?;
    }
    Ok(())
}

impl Wire {
    // Appends its samples, with these levels of the lines beside the wires.
    pub(super) fn append_to(&self, samples: &mut Vec<u8>, levels: u8) -> Result<(), AllocError> {
        match *self {
            Wire::Start => all(samples, levels, &[2, 3, 1, 0]),
            Wire::Stop => all(samples, levels, &[0, 1, 3]),
            Wire::Bytes(sent) => bytes(samples, levels, sent, 1),
            Wire::Acked(sent) => bytes(samples, levels, sent, 0),
            Wire::Bits(count, byte) => bits(samples, levels, count, byte),
            Wire::Raw(given) => all(samples, 0, given),
            Wire::Levels(_) => Ok(()),
        }
    }

    // The levels beside the wires in the items after this one.
    pub(super) fn levels_after(&self, levels: u8) -> u8 {
        match *self {
            Wire::Levels(set) => set,
            _ => levels,
        }
    }
}

// The samples of all items.
pub(super) fn recording(alloc: Global, wires: &[Wire]) -> Result<Vec<u8>, AllocError> {
    let mut samples = Vec::new(alloc);
    let mut levels = 0;
    for wire in wires {
        wire.append_to(&mut samples, levels)?;
        levels = wire.levels_after(levels);
    }
    Ok(samples)
}
