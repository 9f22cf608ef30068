// Bytes to be read from an address, after its aim bytes.
ghost use Rattle.std.specs.Prelude.{◌≡◌, ◌≤◌, length};
ghost use Rattle.refusals.specs.Told.{told};

use refusals::Refusal;

#[derive(Clone, Copy)]
pub struct Read<'a> {
    address: u8,
    aim: &'a [u8],
    at: usize,
    count: u8,
    ghost address_limit: { address ≤ 127 },
    ghost aim_limit: { length aim.now ≤ 2 },
    ghost count_limit: { 1 ≤ count },
}

impl<'a> Read<'a> {
    ghost use Rattle.jobfile.specs.Said.{shown_read, readable};

    pub fn new(address: u8, aim: &'a [u8], at: usize, count: u8) -> Result<Read<'a>, Refusal>
        ensures { told shown_read result ≡ readable address aim.now at count }
    {
        if address > 127 || aim.len() > 2 || count < 1 {
            return Err(Refusal::OutOfLimit);
        }
        Ok(Read {
            address,
            aim,
            at,
            count,
        })
    }

    pub fn address(&self) -> u8
        ensures value { result ≡ self.now.address }
        ensures limit { result ≤ 127 }
    {
        self.address
    }

    pub fn aim(&self) -> &'a [u8]
        ensures value { result.now ≡ self.now.aim.now }
        ensures limit { length result.now ≤ 2 }
    {
        self.aim
    }

    // The offset of the first aim byte in the file.
    pub fn at(&self) -> usize
        ensures { result ≡ self.now.at }
    {
        self.at
    }

    pub fn count(&self) -> u8
        ensures value { result ≡ self.now.count }
        ensures limit { 1 ≤ result }
    {
        self.count
    }
}
