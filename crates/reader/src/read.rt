// Reads a recording of the wires.
ghost use Rattle.std.specs.Prelude.{Ok, Err, IfOk, true, ◌≡◌, ◌+◌, ◌≤◌, length};
ghost use Rattle.refusals.specs.Told.{told};
ghost use Rattle.rows.specs.Rows.{items_of, Grown};
ghost use Rattle.board.specs.Answers.{has_room};
ghost use Rattle.reader.specs.Read.{readable, transfers, Exactly, counted, Read};

use super::reader::{Reader, reach};
use super::transfer::Transfer;
use super::wires::Wires;
use refusals::Refusal;
use rows::row::Row;

// Each of the three loops over all samples stays a function of its own, so that it has the machine's registers to itself.

// Whether no byte has bit 5, 6 or 7 set.
#[inline(never)]
fn readable(recording: &[u8]) -> bool
    ensures { result ≡ readable recording.now }
{
    recording
        .iter()
        .fold(true, |readable, sample| readable & (*sample < 32))
}

// Each START begins a transfer. Those of 224 samples are counted in a byte, so that a machine can look at 16 or 32 samples at once.
#[inline(never)]
fn starts(recording: &[u8]) -> usize
    ensures { result ≡ length (transfers recording.now) }
{
    let mut wires = Wires::idle();
    let mut count = 0;
    let mut at = 0;
    while at < recording.len() {
        let end = recording.len().min(at.saturating_add(224));
        let mut few: u8 = 0;
        for n in at..end {
            let next = Wires::at(recording[n]);
            if wires.edge(next).is_start() {
                few += 1;
            }
            wires = next;
        }
        count += usize::from(few);
        at = end;
    }
    count
}

#[inline(never)]
fn read_all(recording: &[u8], row: &mut Row<'_, Transfer>)
    requires { row.old.count + length (transfers recording.now) ≤ length (items_of row.old) }
    ensures grown { Grown row.old (transfers recording.now) row.new }
    ensures lender { row.new.items.ghost_name ≡ row.old.items.ghost_name }
{
    let mut reader = Reader::new();
    for n in 0..recording.len() {
        reader.step(n, recording[n], row);
    }
    // A transfer that is left open ends with the last sample.
    reach(row, recording.len().saturating_sub(1), reader.opened);
}

// The samples of a recording and the number of its transfers: before it is read it is looked through once.
#[derive(Drop)]
pub struct Recording<'a> {
    samples: &'a [u8],
    count: usize,
    ghost of_samples: { readable samples.now ≡ true },
    ghost counted: { count ≡ length (transfers samples.now) },
}

impl<'a> Recording<'a> {
    // Refuses a byte with bit 5, 6 or 7 set.
    pub fn new(samples: &'a [u8]) -> Result<Recording<'a>, Refusal>
        ensures value { told (λ it. it.count) result ≡ counted samples.now }
        ensures samples { IfOk result (λ it. it.samples.now ≡ samples.now) }
    {
        if !readable(samples) {
            return Err(Refusal::BadSample);
        }
        let count = starts(samples);
        Ok(Recording { samples, count })
    }

    pub fn count(&self) -> usize
        ensures { result ≡ length (transfers self.now.samples.now) }
    {
        self.count
    }

    #[tactic(auto, using(crate::proofs::Words::exactly))]
    pub fn read(&self, row: &mut Row<'_, Transfer>) -> Result<(), Refusal>
        ensures transfers { Exactly self.now.samples.now (transfers self.now.samples.now) }
        ensures read { Read true (has_room row.old (length (transfers self.now.samples.now))) self.now.samples.now row.old row.new (told (λ x. x) result) }
        ensures lender { row.new.items.ghost_name ≡ row.old.items.ghost_name }
    {
        if row.room() < self.count {
            return Err(Refusal::NoRoom);
        }
        read_all(self.samples, row);
        Ok(())
    }
}

// How many transfers a recording shows, which is the room that reading it takes.
pub fn count(recording: &[u8]) -> Result<usize, Refusal>
    ensures { told (λ n. n) result ≡ counted recording.now }
{
    Ok(Recording::new(recording)?.count())
}

// Appends the transfers of the recording to the row: each at its START, and from then on it is changed in its place.
// A byte with bit 5, 6 or 7 set, and then a row without room for all transfers, is refused before the row is touched.
// In the words of the wires, the records appended are exactly the transfers of the recording, in order, each once.
#[tactic(auto, using(crate::proofs::Words::exactly))]
pub fn read(recording: &[u8], row: &mut Row<'_, Transfer>) -> Result<(), Refusal>
    ensures transfers { Exactly recording.now (transfers recording.now) }
    ensures read { Read (readable recording.now) (has_room row.old (length (transfers recording.now))) recording.now row.old row.new (told (λ x. x) result) }
    ensures lender { row.new.items.ghost_name ≡ row.old.items.ghost_name }
{
    Recording::new(recording)?.read(row)
}
