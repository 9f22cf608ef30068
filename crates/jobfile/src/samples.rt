// Samples for the wires.
ghost use Rattle.std.specs.Prelude.{◌≡◌, ◌≤◌, length};
ghost use Rattle.refusals.specs.Told.{told};

use refusals::Refusal;

#[derive(Clone, Copy)]
pub struct Samples<'a> {
    bytes: &'a [u8],
    at: usize,
    ghost bytes_limit: { length bytes.now ≤ 255 },
}

impl<'a> Samples<'a> {
    ghost use Rattle.jobfile.specs.Said.{shown_samples, sampled};

    pub fn new(bytes: &'a [u8], at: usize) -> Result<Samples<'a>, Refusal>
        ensures { told shown_samples result ≡ sampled bytes.now at }
    {
        if bytes.len() > 255 {
            return Err(Refusal::OutOfLimit);
        }
        Ok(Samples { bytes, at })
    }

    // As they stand in the file: a sample may have bits that no line has.
    pub fn bytes(&self) -> &'a [u8]
        ensures value { result.now ≡ self.now.bytes.now }
        ensures limit { length result.now ≤ 255 }
    {
        self.bytes
    }

    // The offset of the first sample in the file.
    pub fn at(&self) -> usize
        ensures { result ≡ self.now.at }
    {
        self.at
    }
}
