// The samples job.
ghost use Rattle.std.specs.Prelude.{◌≡◌, ℕ, ◌+◌, ◌<◌, ◌≤◌, true, List, [], length};
ghost use Rattle.refusals.specs.Told.{ok, told};
ghost use Rattle.rows.specs.Rows.{items_of, row_of, room_of, first_with, Grown};
ghost use Rattle.board.specs.Runs.{SampledBy};
ghost use Rattle.board.specs.Samples.{bit_value};
ghost use Rattle.controller.specs.Answers.{Into, Lasts};
ghost use Rattle.controller.specs.Master.{run, samples_of, gives, ended};
ghost use Rattle.controller.specs.Jobs.{giving, all_samples, sampling};

use board::board::Board;
use jobfile::samples::Samples;
use part::Part;
use refusals::Refusal;
use rows::row::Row;

// Whether the board takes every one of the samples.
fn all_samples(samples: &[u8]) -> bool
    ensures { result ≡ all_samples samples.now }
{
    samples.iter().all(|sample| *sample < 32)
}

fn give<P: Part>(board: &mut Board<P>, sample: u8) -> bool
    requires { sample < 32 }
    ensures { run P.Part.ops (gives sample ended) board.old ≡ (board.new, result) }
{
    board.sample(sample).unwrap()
}

// Gives the samples and appends the levels read.
fn give_all<P: Part>(board: &mut Board<P>, samples: &[u8], row: &mut Row<'_, u8>)
    requires { (all_samples samples.now ≡ true) × (row.old.count + length samples.now ≤ length (items_of row.old)) }
    ensures run { (got : List ℕ) × (length got ≡ length samples.now) × Grown row.old got row.new × (run P.Part.ops (giving samples.now []) board.old ≡ (board.new, ok got)) }
    ensures lender { row.new.items.ghost_name ≡ row.old.items.ghost_name }
{
    for sample in samples {
        let level = give(board, *sample);
        let _ = row.append(u8::from(level));
    }
}

// Appends the level that each sample answered to the row, 1 for HIGH. A refusal gives no sample and leaves the row as it was.
#[tactic(auto, using(crate::proofs::Sampling::none_sampled))]
pub fn samples<P: Part>(
    board: &mut Board<P>,
    job: &Samples<'_>,
    row: &mut Row<'_, u8>,
) -> Result<(), Refusal>
    ensures run { Into (run P.Part.ops (sampling job.now.bytes.now (room_of row.old)) board.old) board.new row.old row.new (told (λ x. x) result) }
    ensures sampled { SampledBy P.Part.ops board.old (samples_of P.Part.ops (sampling job.now.bytes.now (room_of row.old)) board.old) board.new }
    ensures count { Lasts (length job.now.bytes.now) (run P.Part.ops (sampling job.now.bytes.now (room_of row.old)) board.old).1 }
    ensures lender { row.new.items.ghost_name ≡ row.old.items.ghost_name }
{
    let samples = job.bytes();
    if !all_samples(samples) {
        return Err(Refusal::BadSample);
    }
    if row.room() < samples.len() {
        return Err(Refusal::NoRoom);
    }
    give_all(board, samples, row);
    Ok(())
}

// The place in a row of levels of the first that is HIGH, or LOW.
#[tactic(auto, using(crate::proofs::Runs::byte_bit))]
pub fn first_level(row: &Row<'_, u8>, high: bool) -> Option<usize>
    ensures { result ≡ first_with (λ level. level) (bit_value high) (row_of row.now) }
{
    row.find(usize::from(high))
}
