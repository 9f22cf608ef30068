// The write job.
ghost use Rattle.std.specs.Prelude.{◌≡◌, []};
ghost use Rattle.refusals.specs.Told.{told};
ghost use Rattle.board.specs.Runs.{SampledBy};
ghost use Rattle.jobfile.specs.Said.{shown_write};
ghost use Rattle.controller.specs.Master.{run, samples_of};
ghost use Rattle.controller.specs.Notes.{Noted};
ghost use Rattle.controller.specs.Said.{master_of};
ghost use Rattle.controller.specs.Jobs.{lowered};
ghost use Rattle.controller.specs.Work.{written, Works};

use super::note::Note;
use super::sending::write_low;
use board::board::Board;
use jobfile::write::Write;
use part::Part;
use part::levels::Levels;
use refusals::Refusal;

// An accepted write gives a note that its part may be busy. WP is LOW in the transfer and stands as before at the end.
#[tactic(auto, using(crate::proofs::Working::write_works, crate::proofs::Sampling::job_sampled))]
pub fn write<P: Part>(
    board: &mut Board<P>,
    lines: &mut Levels,
    job: &Write<'_>,
) -> Result<Note, Refusal>
    ensures run { run P.Part.ops (master_of lines.old 0 (shown_write job.now)) board.old ≡ (board.new, told (λ _. []) result) }
    ensures work { Works (written P.Part.ops (lowered lines.old) job.now.address job.now.bytes.now) board.old board.new (told (λ _. []) result) }
    ensures sampled { SampledBy P.Part.ops board.old (samples_of P.Part.ops (master_of lines.old 0 (shown_write job.now)) board.old) board.new }
    ensures lines { lines.new ≡ lines.old }
    ensures note { Noted job.now.address result }
{
    write_low(board, lines, job.address(), job.bytes())?;
    Ok(Note::new(job.address()))
}
