// A transfer on the wires by its state: quiet, writing or reading. Each state is moved into the next, so a byte cannot be
// sent on a transfer that is open for reading, and no transfer is left open. Its number counts the bytes sent in the job so far.
// The states are types of a plain number each and not one generic type, which would carry a marker beside the number; what two
// of them share is in the functions `send_one` and `open_with`; how far it counts is a clause of each call (`count`). No `?` leaves
// while a transfer is open: its state must go on.
ghost use Rattle.std.specs.Prelude.{◌≡◌, []};
ghost use Rattle.refusals.specs.Told.{told};
ghost use Rattle.board.specs.Runs.{SampledBy};
ghost use Rattle.controller.specs.Master.{run, samples_of};
ghost use Rattle.controller.specs.Bytes.{stop, receive};
ghost use Rattle.controller.specs.Jobs.{send_one, open_with, write_byte, read_byte};
ghost use Rattle.controller.specs.Transfers.{counted};

use super::wires;
use board::board::Board;
use part::Part;
use part::levels::Levels;
use refusals::Refusal;

pub struct Quiet {
    sent: usize,
}

pub struct Writing {
    sent: usize,
}

pub struct Reading {
    sent: usize,
}

// Sends byte number `sent` of a job.
fn send_one<P: Part>(
    sent: usize,
    board: &mut Board<P>,
    levels: &Levels,
    byte: u8,
) -> Result<(), Refusal>
    ensures { run P.Part.ops (send_one levels.now sent byte) board.old ≡ (board.new, told (λ _. []) result) }
{
    if wires::send(board, levels, byte) {
        Ok(())
    } else {
        Err(Refusal::NoAck { byte: sent })
    }
}

fn open_with<P: Part>(
    sent: usize,
    board: &mut Board<P>,
    levels: &Levels,
    byte: u8,
) -> Result<(), Refusal>
    ensures { run P.Part.ops (open_with levels.now sent byte) board.old ≡ (board.new, told (λ _. []) result) }
{
    wires::start(board, levels);
    send_one(sent, board, levels, byte)
}

impl Quiet {
    pub fn new() -> Quiet
        ensures { result.sent ≡ 0 }
    {
        Quiet { sent: 0 }
    }

    // START and the write address.
    #[tactic(auto, using(crate::proofs::Sampling::job_sampled, crate::proofs::Sampling::run_sampled))]
    pub fn write<P: Part>(
        self,
        board: &mut Board<P>,
        levels: &Levels,
        address: u8,
    ) -> (Writing, Result<(), Refusal>)
        ensures run { run P.Part.ops (open_with levels.now self.sent (write_byte address)) board.old ≡ (board.new, told (λ _. []) result.1) }
        ensures sampled { SampledBy P.Part.ops board.old (samples_of P.Part.ops (open_with levels.now self.sent (write_byte address)) board.old) board.new }
        ensures count { result.0.sent ≡ counted self.sent }
    {
        let Quiet { sent } = self;
        let result = open_with(sent, board, levels, address % 128 * 2);
        let sent = sent.saturating_add(1);
        (Writing { sent }, result)
    }

    // START and the read address.
    #[tactic(auto, using(crate::proofs::Sampling::job_sampled, crate::proofs::Sampling::run_sampled))]
    pub fn read<P: Part>(
        self,
        board: &mut Board<P>,
        levels: &Levels,
        address: u8,
    ) -> (Reading, Result<(), Refusal>)
        ensures run { run P.Part.ops (open_with levels.now self.sent (read_byte address)) board.old ≡ (board.new, told (λ _. []) result.1) }
        ensures sampled { SampledBy P.Part.ops board.old (samples_of P.Part.ops (open_with levels.now self.sent (read_byte address)) board.old) board.new }
        ensures count { result.0.sent ≡ counted self.sent }
    {
        let Quiet { sent: before } = self;
        let result = open_with(before, board, levels, address % 128 * 2 + 1);
        let sent = before.saturating_add(1);
        (Reading { sent }, result)
    }

    // The number of bytes sent.
    pub fn end(self) -> usize
        ensures { result ≡ self.sent }
    {
        let Quiet { sent } = self;
        sent
    }
}

impl Writing {
    #[tactic(auto, using(crate::proofs::Sampling::job_sampled, crate::proofs::Sampling::run_sampled))]
    pub fn send<P: Part>(
        self,
        board: &mut Board<P>,
        levels: &Levels,
        byte: u8,
    ) -> (Writing, Result<(), Refusal>)
        ensures run { run P.Part.ops (send_one levels.now self.sent byte) board.old ≡ (board.new, told (λ _. []) result.1) }
        ensures sampled { SampledBy P.Part.ops board.old (samples_of P.Part.ops (send_one levels.now self.sent byte) board.old) board.new }
        ensures count { result.0.sent ≡ counted self.sent }
    {
        let Writing { sent } = self;
        let result = send_one(sent, board, levels, byte);
        let sent = sent.saturating_add(1);
        (Writing { sent }, result)
    }

    // A repeated START and the read address.
    #[tactic(auto, using(crate::proofs::Sampling::job_sampled, crate::proofs::Sampling::run_sampled))]
    pub fn read<P: Part>(
        self,
        board: &mut Board<P>,
        levels: &Levels,
        address: u8,
    ) -> (Reading, Result<(), Refusal>)
        ensures run { run P.Part.ops (open_with levels.now self.sent (read_byte address)) board.old ≡ (board.new, told (λ _. []) result.1) }
        ensures sampled { SampledBy P.Part.ops board.old (samples_of P.Part.ops (open_with levels.now self.sent (read_byte address)) board.old) board.new }
        ensures count { result.0.sent ≡ counted self.sent }
    {
        let Writing { sent } = self;
        let result = open_with(sent, board, levels, address % 128 * 2 + 1);
        let sent = sent.saturating_add(1);
        (Reading { sent }, result)
    }

    #[tactic(auto, using(crate::proofs::Sampling::job_sampled, crate::proofs::Sampling::run_sampled))]
    pub fn stop<P: Part>(self, board: &mut Board<P>, levels: &Levels) -> Quiet
        ensures run { (run P.Part.ops (stop levels.now) board.old).0 ≡ board.new }
        ensures sampled { SampledBy P.Part.ops board.old (samples_of P.Part.ops (stop levels.now) board.old) board.new }
        ensures count { result.sent ≡ self.sent }
    {
        let Writing { sent } = self;
        wires::stop(board, levels);
        Quiet { sent }
    }
}

impl Reading {
    // A byte, with an ACK where more is wanted.
    #[tactic(auto, using(crate::proofs::Sampling::job_sampled, crate::proofs::Sampling::run_sampled))]
    pub fn receive<P: Part>(
        self,
        board: &mut Board<P>,
        levels: &Levels,
        more: bool,
    ) -> (Reading, u8)
        ensures run { run P.Part.ops (receive levels.now more) board.old ≡ (board.new, result.1) }
        ensures sampled { SampledBy P.Part.ops board.old (samples_of P.Part.ops (receive levels.now more) board.old) board.new }
        ensures count { result.0.sent ≡ self.sent }
    {
        let Reading { sent } = self;
        let byte = wires::receive(board, levels, more);
        (Reading { sent }, byte)
    }

    #[tactic(auto, using(crate::proofs::Sampling::job_sampled, crate::proofs::Sampling::run_sampled))]
    pub fn stop<P: Part>(self, board: &mut Board<P>, levels: &Levels) -> Quiet
        ensures run { (run P.Part.ops (stop levels.now) board.old).0 ≡ board.new }
        ensures sampled { SampledBy P.Part.ops board.old (samples_of P.Part.ops (stop levels.now) board.old) board.new }
        ensures count { result.sent ≡ self.sent }
    {
        let Reading { sent: asked } = self;
        wires::stop(board, levels);
        Quiet { sent: asked }
    }
}
