// Transfers opened for reading.
ghost use Rattle.std.specs.Prelude.{◌≡◌, []};
ghost use Rattle.refusals.specs.Told.{told};
ghost use Rattle.controller.specs.Master.{run};
ghost use Rattle.controller.specs.Bytes.{AllBytes};
ghost use Rattle.controller.specs.Jobs.{addressing, stop_refused, end_refused};

use super::sending::open_write;
use super::transfer::{Quiet, Reading};
use board::board::Board;
use part::Part;
use part::levels::Levels;
use refusals::Refusal;

// A transfer whose read address got no ACK is ended with a STOP. An open transfer must be ended, so no `?` stands here.
fn stop_refused<P: Part>(
    reading: Reading,
    outcome: Result<(), Refusal>,
    board: &mut Board<P>,
    levels: &Levels,
) -> Result<Reading, Refusal>
    ensures { run P.Part.ops (stop_refused levels.now (told (λ _. []) outcome)) board.old ≡ (board.new, told (λ _. []) result) }
{
    match outcome {
        Ok(()) => Ok(reading),
        Err(refusal) => {
            reading.stop(board, levels).end();
            Err(refusal)
        }
    }
}

// Opens a transfer for reading, after a write of the aim bytes if there are some. Where an ACK is missing it gives the STOP.
pub(super) fn open_read<P: Part>(
    board: &mut Board<P>,
    levels: &Levels,
    address: u8,
    aim: &[u8],
) -> Result<Reading, Refusal>
    ensures run { run P.Part.ops (end_refused levels.now (addressing levels.now address aim.now)) board.old ≡ (board.new, told (λ _. []) result) }
    ensures bytes { AllBytes aim.now }
{
    if aim.is_empty() {
        let (reading, result) = Quiet::new().read(board, levels, address);
        return stop_refused(reading, result, board, levels);
    }
    let (writing, sent) = open_write(board, levels, address, aim);
    match sent {
        Ok(()) => {
            let (reading, result) = writing.read(board, levels, address);
            stop_refused(reading, result, board, levels)
        }
        Err(refusal) => {
            writing.stop(board, levels).end();
            Err(refusal)
        }
    }
}
