// Polls: writes of no bytes, which get an ACK where the part is ready.
ghost use Rattle.std.specs.Prelude.{◌≡◌, []};
ghost use Rattle.refusals.specs.Told.{told};
ghost use Rattle.controller.specs.Master.{run};
ghost use Rattle.controller.specs.Jobs.{waiting, lowered};

use super::sending::write_low;
use board::board::Board;
use part::Part;
use part::levels::Levels;
use refusals::Refusal;

// Polls until one gets an ACK. The range counts the polls; it indexes nothing.
pub(super) fn poll<P: Part>(
    board: &mut Board<P>,
    lines: &mut Levels,
    address: u8,
    polls: u16,
) -> Result<(), Refusal>
    ensures run { run P.Part.ops (waiting (lowered lines.old) address polls) board.old ≡ (board.new, told (λ _. []) result) }
    ensures lines { lines.new ≡ lines.old }
{
    for _n in 0..polls {
        if write_low(board, lines, address, &[]).is_ok() {
            return Ok(());
        }
    }
    Err(Refusal::NeverReady)
}
