// The read job.
ghost use Rattle.std.specs.Prelude.{◌≡◌, ℕ, ◌+◌, ◌≤◌, List, [], length};
ghost use Rattle.refusals.specs.Told.{ok, told};
ghost use Rattle.board.specs.Runs.{SampledBy};
ghost use Rattle.jobfile.specs.Said.{shown_read};
ghost use Rattle.rows.specs.Rows.{items_of, room_of, Grown};
ghost use Rattle.controller.specs.Answers.{Into, Lasts};
ghost use Rattle.controller.specs.Master.{run, samples_of};
ghost use Rattle.controller.specs.Jobs.{receive_all};
ghost use Rattle.controller.specs.Said.{master_of};
ghost use Rattle.controller.specs.Work.{read, with_room, WorksInto};

use super::receiving::open_read;
use super::transfer::Reading;
use board::board::Board;
use jobfile::read::Read;
use part::Part;
use part::levels::Levels;
use refusals::Refusal;
use rows::row::Row;

// Receives bytes into the row, each with an ACK but the last. The range counts the bytes; it indexes nothing.
fn receive_all<P: Part>(
    reading: Reading,
    board: &mut Board<P>,
    levels: &Levels,
    count: u8,
    row: &mut Row<'_, u8>,
) -> Reading
    requires { row.old.count + count ≤ length (items_of row.old) }
    ensures run { (got : List ℕ) × (length got ≡ count) × Grown row.old got row.new × (run P.Part.ops (receive_all levels.now count []) board.old ≡ (board.new, ok got)) }
    ensures lender { row.new.items.ghost_name ≡ row.old.items.ghost_name }
{
    let mut reading = reading;
    for n in 0..count {
        let (next, byte) = reading.receive(board, levels, n + 1 < count);
        reading = next;
        let _ = row.append(byte);
    }
    reading
}

// Appends the bytes read to the row. A refusal leaves the row as it was, and one for want of room gives no sample.
#[tactic(auto, using(crate::proofs::Sampling::no_room_sampled, crate::proofs::Working::no_room_works))]
pub fn read<P: Part>(
    board: &mut Board<P>,
    lines: &Levels,
    job: &Read<'_>,
    row: &mut Row<'_, u8>,
) -> Result<(), Refusal>
    ensures run { Into (run P.Part.ops (master_of lines.now (room_of row.old) (shown_read job.now)) board.old) board.new row.old row.new (told (λ x. x) result) }
    ensures work { WorksInto (with_room job.now.count (room_of row.old) (read P.Part.ops lines.now job.now.address job.now.aim.now job.now.count)) board.old board.new row.old row.new (told (λ x. x) result) }
    ensures sampled { SampledBy P.Part.ops board.old (samples_of P.Part.ops (master_of lines.now (room_of row.old) (shown_read job.now)) board.old) board.new }
    ensures count { Lasts job.now.count (run P.Part.ops (master_of lines.now (room_of row.old) (shown_read job.now)) board.old).1 }
    ensures lender { row.new.items.ghost_name ≡ row.old.items.ghost_name }
{
    if row.room() < usize::from(job.count()) {
        return Err(Refusal::NoRoom);
    }
    let reading = open_read(board, lines, job.address(), job.aim())?;
    let reading = receive_all(reading, board, lines, job.count(), row);
    reading.stop(board, lines).end();
    Ok(())
}
