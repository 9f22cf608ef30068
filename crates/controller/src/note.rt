// A note that a part may be busy with what was written to it. It cannot go out of use by itself: a wait on its address that gets
// an ACK spends it, or it is given up.
ghost use Rattle.std.specs.Prelude.{◌≡◌, true};
ghost use Rattle.controller.specs.Notes.{noted, after_ready};

// The flag stands beside the address for the prover: only a note that is spent may be dropped.
pub struct Note {
    address: u8,
    spent: bool,
}

impl Drop for Note {
    fn drop(self)
        requires { self.spent ≡ true }
    {
        let Note {
            address: _,
            spent: _,
        } = self;
    }
}

impl Note {
    pub(super) fn new(address: u8) -> Note
        ensures { result ≡ noted address }
    {
        Note {
            address,
            spent: false,
        }
    }

    // The address written.
    pub fn address(&self) -> u8
        ensures { result ≡ self.now.address }
    {
        self.address
    }

    // Lets the note go and answers its address; the part there may still be busy.
    pub fn give_up(self) -> u8
        ensures { result ≡ self.address }
    {
        let mut note = self;
        note.spent = true;
        note.address
    }
}

// What is left of a note once the address got an ACK.
pub(super) fn spend(note: Option<Note>, address: u8) -> Option<Note>
    ensures { result ≡ after_ready address note }
{
    let busy = note?;
    if busy.address == address {
        busy.give_up();
        None
    } else {
        Some(busy)
    }
}
