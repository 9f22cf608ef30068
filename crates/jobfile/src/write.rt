// Bytes to be written to an address.
ghost use Rattle.std.specs.Prelude.{◌≡◌, ◌≤◌, length};
ghost use Rattle.refusals.specs.Told.{told};

use refusals::Refusal;

// Like those of the other jobs, its limits are in its type, so that nothing that is handed a job tests them again.
#[derive(Clone, Copy)]
pub struct Write<'a> {
    address: u8,
    bytes: &'a [u8],
    at: usize,
    ghost address_limit: { address ≤ 127 },
    ghost bytes_limit: { length bytes.now ≤ 255 },
}

impl<'a> Write<'a> {
    ghost use Rattle.jobfile.specs.Said.{shown_write, written};

    pub fn new(address: u8, bytes: &'a [u8], at: usize) -> Result<Write<'a>, Refusal>
        ensures { told shown_write result ≡ written address bytes.now at }
    {
        if address > 127 || bytes.len() > 255 {
            return Err(Refusal::OutOfLimit);
        }
        Ok(Write { address, bytes, at })
    }

    pub fn address(&self) -> u8
        ensures value { result ≡ self.now.address }
        ensures limit { result ≤ 127 }
    {
        self.address
    }

    pub fn bytes(&self) -> &'a [u8]
        ensures value { result.now ≡ self.now.bytes.now }
        ensures limit { length result.now ≤ 255 }
    {
        self.bytes
    }

    // The offset of the first byte in the file.
    pub fn at(&self) -> usize
        ensures { result ≡ self.now.at }
    {
        self.at
    }
}
