// Polls of an address until it gets an ACK.
ghost use Rattle.std.specs.Prelude.{◌≡◌, ◌≤◌};
ghost use Rattle.refusals.specs.Told.{told};

use refusals::Refusal;

#[derive(Clone, Copy)]
pub struct Wait {
    address: u8,
    polls: u16,
    ghost address_limit: { address ≤ 127 },
    ghost polls_limit: { (1 ≤ polls) × (polls ≤ 1000) },
}

impl Wait {
    ghost use Rattle.jobfile.specs.Said.{shown_wait, waited};

    pub fn new(address: u8, polls: u16) -> Result<Wait, Refusal>
        ensures { told shown_wait result ≡ waited address polls }
    {
        if address > 127 || polls < 1 || polls > 1000 {
            return Err(Refusal::OutOfLimit);
        }
        Ok(Wait { address, polls })
    }

    pub fn address(&self) -> u8
        ensures value { result ≡ self.now.address }
        ensures limit { result ≤ 127 }
    {
        self.address
    }

    pub fn polls(&self) -> u16
        ensures value { result ≡ self.now.polls }
        ensures limit { (1 ≤ result) × (result ≤ 1000) }
    {
        self.polls
    }
}
