// The recovery job: it frees wires that a part holds.
ghost use Rattle.std.specs.Prelude.{◌≡◌, [], ◌∷◌};
ghost use Rattle.refusals.specs.Told.{ok};
ghost use Rattle.board.specs.Clocks.{clocks, Frees};
ghost use Rattle.board.specs.Runs.{SampledBy};
ghost use Rattle.controller.specs.Bytes.{clock};
ghost use Rattle.controller.specs.Master.{run, samples_of};
ghost use Rattle.controller.specs.Recovery.{release, recovering, Recovers};

use super::wires;
use board::board::Board;
use part::Part;
use part::levels::Levels;

// A clock: SCL LOW and then HIGH, with SDA released; answers SDA on the wire.
#[tactic(auto, unfolding(crate::specs::Bytes::clock))]
fn clock<P: Part>(board: &mut Board<P>, levels: &Levels) -> bool
    ensures { run P.Part.ops (clock levels.now) board.old ≡ (board.new, result) }
{
    wires::put(board, levels, false, true);
    wires::put(board, levels, true, true)
}

// Gives clocks until SDA reads HIGH, and answers how many. No count ends them: from every board one of ten reads HIGH.
#[tactic(auto, using(crate::proofs::Recovering::free_clocks))]
fn free<P: Part>(board: &mut Board<P>, levels: &Levels) -> u8
    ensures frees { Frees P.Part.ops levels.now result board.old }
    ensures board { board.new ≡ clocks P.Part.ops levels.now result board.old }
{
    let mut count = 1;
    while !clock(board, levels) {
        count += 1;
    }
    count
}

// Takes SDA LOW with SCL HIGH and gives a STOP.
#[tactic(auto, unfolding(crate::specs::Recovery::release))]
fn release<P: Part>(board: &mut Board<P>, levels: &Levels)
    ensures { (run P.Part.ops (release levels.now) board.old).0 ≡ board.new }
{
    wires::put(board, levels, true, false);
    wires::stop(board, levels);
}

// Gives clocks until SDA reads HIGH, then takes SDA LOW and gives a STOP. Answers the number of clocks.
#[tactic(auto, using(crate::proofs::Recovering::recovery, crate::proofs::Recovering::recovery_sampled))]
pub fn recover<P: Part>(board: &mut Board<P>, lines: &Levels) -> u8
    ensures run { run P.Part.ops (recovering lines.now) board.old ≡ (board.new, ok (result ∷ [])) }
    ensures sampled { SampledBy P.Part.ops board.old (samples_of P.Part.ops (recovering lines.now) board.old) board.new }
    ensures recovers { Recovers P.Part.ops lines.now result board.old board.new }
{
    let clocks = free(board, lines);
    release(board, lines);
    clocks
}
