// START, bits, bytes and STOP, sample by sample. Board and levels are two parameters in all of this crate: in one struct each
// function would have to promise besides that the struct holds the same board still, and the same levels. Which master a function
// is (`run`) is the contract of each: no two are the same. A range counts the bits of a byte; it indexes nothing.
ghost use Rattle.std.specs.Prelude.{◌≡◌};
ghost use Rattle.controller.specs.Master.{run};
ghost use Rattle.controller.specs.Bytes.{put, start, stop, send_bit, read_bit, send, receive};

use board::board::Board;
use part::Part;
use part::levels::Levels;

// One sample; answers SDA on the wire.
#[tactic(auto, using(crate::proofs::Runs::put_sample))]
pub(super) fn put<P: Part>(board: &mut Board<P>, levels: &Levels, scl: bool, sda: bool) -> bool
    ensures { run P.Part.ops (put levels.now scl sda) board.old ≡ (board.new, result) }
{
    board.put(scl, sda, levels)
}

#[tactic(auto, unfolding(crate::specs::Bytes::start))]
pub(super) fn start<P: Part>(board: &mut Board<P>, levels: &Levels) -> bool
    ensures { run P.Part.ops (start levels.now) board.old ≡ (board.new, result) }
{
    put(board, levels, false, true);
    put(board, levels, true, true);
    put(board, levels, true, false);
    put(board, levels, false, false)
}

#[tactic(auto, unfolding(crate::specs::Bytes::stop))]
pub(super) fn stop<P: Part>(board: &mut Board<P>, levels: &Levels) -> bool
    ensures { run P.Part.ops (stop levels.now) board.old ≡ (board.new, result) }
{
    put(board, levels, false, false);
    put(board, levels, true, false);
    put(board, levels, true, true)
}

fn send_bit<P: Part>(board: &mut Board<P>, levels: &Levels, bit: bool) -> bool
    ensures { run P.Part.ops (send_bit levels.now bit) board.old ≡ (board.new, result) }
{
    put(board, levels, false, bit);
    put(board, levels, true, bit);
    put(board, levels, false, bit)
}

// A bit is the level at its rise.
fn read_bit<P: Part>(board: &mut Board<P>, levels: &Levels) -> bool
    ensures { run P.Part.ops (read_bit levels.now) board.old ≡ (board.new, result) }
{
    put(board, levels, false, true);
    let high = put(board, levels, true, true);
    put(board, levels, false, true);
    high
}

// Sends a byte, highest bit first; answers whether it got an ACK.
pub(super) fn send<P: Part>(board: &mut Board<P>, levels: &Levels, byte: u8) -> bool
    ensures { run P.Part.ops (send levels.now byte) board.old ≡ (board.new, result) }
{
    for n in 0..8u8 {
        send_bit(board, levels, (byte >> (7 - n)) % 2 == 1);
    }
    !read_bit(board, levels)
}

// Reads a byte, highest bit first, and gives it an ACK where more is wanted.
pub(super) fn receive<P: Part>(board: &mut Board<P>, levels: &Levels, more: bool) -> u8
    ensures { run P.Part.ops (receive levels.now more) board.old ≡ (board.new, result) }
{
    let mut byte = 0u8;
    for _n in 0..8u8 {
        byte = byte % 128 * 2 + u8::from(read_bit(board, levels));
    }
    send_bit(board, levels, !more);
    byte
}
