// Write transfers.
ghost use Rattle.std.specs.Prelude.{◌≡◌, ◌+◌, ◌^◌, ◌<◌, [], length};
ghost use Rattle.refusals.specs.Told.{told};
ghost use Rattle.controller.specs.Master.{run};
ghost use Rattle.controller.specs.Bytes.{AllBytes};
ghost use Rattle.controller.specs.Jobs.{send_all, sending, writing, lowered};
ghost use Rattle.controller.specs.Transfers.{Sent};

use super::guard::WpGuard;
use super::transfer::{Quiet, Writing};
use board::board::Board;
use part::Part;
use part::levels::Levels;
use refusals::Refusal;

// Sends bytes up to the first that gets no ACK.
fn send_all<P: Part>(
    writing: Writing,
    board: &mut Board<P>,
    levels: &Levels,
    bytes: &[u8],
) -> (Writing, Result<(), Refusal>)
    requires { writing.sent + length bytes.now < 2 ^ 64 }
    ensures run { run P.Part.ops (send_all levels.now writing.sent bytes.now) board.old ≡ (board.new, told (λ _. []) result.1) }
    ensures count { Sent (writing.sent + length bytes.now) result.0.sent result.1 }
{
    let mut writing = writing;
    for byte in bytes {
        let (next, result) = writing.send(board, levels, *byte);
        writing = next;
        if result.is_err() {
            return (writing, result);
        }
    }
    (writing, Ok(()))
}

// Opens a transfer for writing and sends the bytes.
pub(super) fn open_write<P: Part>(
    board: &mut Board<P>,
    levels: &Levels,
    address: u8,
    bytes: &[u8],
) -> (Writing, Result<(), Refusal>)
    ensures run { run P.Part.ops (sending levels.now address bytes.now) board.old ≡ (board.new, told (λ _. []) result.1) }
    ensures count { Sent (1 + length bytes.now) result.0.sent result.1 }
{
    let (writing, result) = Quiet::new().write(board, levels, address);
    if result.is_err() {
        return (writing, result);
    }
    send_all(writing, board, levels, bytes)
}

// A whole write transfer at the levels given.
fn write_at<P: Part>(
    board: &mut Board<P>,
    levels: &Levels,
    address: u8,
    bytes: &[u8],
) -> Result<(), Refusal>
    ensures { run P.Part.ops (writing levels.now address bytes.now) board.old ≡ (board.new, told (λ _. []) result) }
{
    let (writing, result) = open_write(board, levels, address, bytes);
    writing.stop(board, levels).end();
    result
}

// A write with WP LOW, after which WP stands as before.
pub(super) fn write_low<P: Part>(
    board: &mut Board<P>,
    lines: &mut Levels,
    address: u8,
    bytes: &[u8],
) -> Result<(), Refusal>
    ensures run { run P.Part.ops (writing (lowered lines.old) address bytes.now) board.old ≡ (board.new, told (λ _. []) result) }
    ensures bytes { AllBytes bytes.now }
    ensures lines { lines.new ≡ lines.old }
{
    let guard = WpGuard::lower(lines);
    write_at(board, &guard.levels(), address, bytes)
}
