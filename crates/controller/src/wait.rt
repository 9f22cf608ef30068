// The wait job.
ghost use Rattle.std.specs.Prelude.{◌≡◌, []};
ghost use Rattle.refusals.specs.Told.{told};
ghost use Rattle.board.specs.Runs.{SampledBy};
ghost use Rattle.jobfile.specs.Said.{shown_wait};
ghost use Rattle.controller.specs.Master.{run, samples_of};
ghost use Rattle.controller.specs.Notes.{after_wait};
ghost use Rattle.controller.specs.Said.{master_of};
ghost use Rattle.controller.specs.Jobs.{lowered};
ghost use Rattle.controller.specs.Work.{polled, Works};

use super::note::{Note, spend};
use super::polls::poll;
use board::board::Board;
use jobfile::wait::Wait;
use part::Part;
use part::levels::Levels;
use refusals::Refusal;

// Polls until one gets an ACK, which spends the note on that address; any other note is handed back.
pub fn wait<P: Part>(
    board: &mut Board<P>,
    lines: &mut Levels,
    job: &Wait,
    note: Option<Note>,
) -> (Option<Note>, Result<(), Refusal>)
    ensures run { run P.Part.ops (master_of lines.old 0 (shown_wait job.now)) board.old ≡ (board.new, told (λ _. []) result.1) }
    ensures work { Works (polled P.Part.ops (lowered lines.old) job.now.address job.now.polls) board.old board.new (told (λ _. []) result.1) }
    ensures sampled { SampledBy P.Part.ops board.old (samples_of P.Part.ops (master_of lines.old 0 (shown_wait job.now)) board.old) board.new }
    ensures lines { lines.new ≡ lines.old }
    ensures note { result.0 ≡ after_wait job.now.address (told (λ _. []) result.1) note }
{
    let answer = poll(board, lines, job.address(), job.polls());
    let left = if answer.is_ok() {
        spend(note, job.address())
    } else {
        note
    };
    (left, answer)
}
