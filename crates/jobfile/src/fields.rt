// The fields of a job: numbers and bytes.
ghost use Rattle.std.specs.Prelude.{◌≡◌, ◌+◌, ◌<◌, ◌≤◌, length, Ok, Err, IfOk};
ghost use Rattle.refusals.specs.Told.{told};
ghost use Rattle.jobfile.specs.Fields.{number_from, number_at, field_at, counted_at, counted_bytes};
ghost use Rattle.jobfile.specs.Offsets.{Onward};

use refusals::Refusal;

// The number that the rest of the file begins with, and how many bytes it took.
#[tactic(auto, using(crate::proofs::Groups::groups))]
pub(crate) fn number(rest: &[u8]) -> Result<(u32, usize), Refusal>
    ensures value { told (λ p. p) result ≡ number_from 3 0 0 rest.now }
    ensures onward { Onward 0 (length rest.now) result }
{
    let mut value = 0u32;
    for (i, group) in rest.iter().enumerate() {
        if *group < 128 {
            return Ok((value * 128 + u32::from(*group), i + 1));
        }
        if i == 2 {
            return Err(Refusal::OutOfLimit);
        }
        value = value * 128 + u32::from(*group - 128);
    }
    Err(Refusal::FileEnds)
}

// A file, and how far it is read.
#[derive(Drop)]
pub(crate) struct Fields<'a> {
    pub(crate) file: &'a [u8],
    pub(crate) at: usize,
    ghost inside: { at ≤ length file.now },
}

// Each reads the field that comes next, and goes on after it. That it does is a clause of each (`ReadOn`), since it says what
// this call has left, which no invariant of the type can.
impl<'a> Fields<'a> {
    ghost use Rattle.jobfile.specs.Reading.{ReadOn};

    pub(crate) fn number(&mut self) -> Result<u32, Refusal>
        ensures value { told (λ n. (n, self.new.at)) result ≡ number_at self.old.file.now self.old.at }
        ensures onward { ReadOn self.old self.new }
    {
        let (value, taken) = number(&self.file[self.at..])?;
        self.at += taken;
        Ok(value)
    }

    // A number from `least` to `most`.
    pub(crate) fn number_within(&mut self, least: u32, most: u32) -> Result<u32, Refusal>
        ensures value { told (λ n. (n, self.new.at)) result ≡ field_at self.old.file.now self.old.at least most }
        ensures limits { IfOk result (λ n. (least ≤ n) × (n ≤ most)) }
        ensures onward { ReadOn self.old self.new }
    {
        let value = self.number()?;
        if value < least || value > most {
            return Err(Refusal::OutOfLimit);
        }
        Ok(value)
    }

    // A count of at most `most` and then that many bytes: the bytes, and their offset.
    pub(crate) fn counted(&mut self, most: u32) -> Result<(&'a [u8], usize), Refusal>
        ensures value { told counted_bytes result ≡ counted_at self.old.file.now self.old.at most }
        ensures after { IfOk result (λ p. self.new.at ≡ p.1 + length p.0.now) }
        ensures limit { IfOk result (λ p. length p.0.now ≤ most) }
        ensures onward { ReadOn self.old self.new }
    {
        let count = self.number_within(0, most)? as usize;
        let at = self.at;
        if count > self.file.len() - at {
            return Err(Refusal::FileEnds);
        }
        self.at += count;
        Ok((&self.file[at..self.at], at))
    }
}
