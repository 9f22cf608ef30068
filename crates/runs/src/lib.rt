// The making of a board, with the law of runs whole: what holds of every run whatever the part, and of each X9520 in it besides.
#![tactic(auto)]

ghost use Rattle.std.specs.Prelude.{◌≡◌};
ghost use Rattle.board.specs.Engine.{idle};
ghost use Rattle.pair.specs.Both.{both, join};
ghost use Rattle.x9520.specs.Chip.{x9520};
ghost use Rattle.x9520.specs.State.{fresh};
ghost use Rattle.runs.specs.Lawful.{Lawful};
ghost use Rattle.runs.specs.Lock.{LockHolds};

use board::board::Board;
use pair::Pair;
use part::Part;
use x9520::state::X9520;

// A board on which every chip of the part is fresh, and all that holds of its runs.
#[tactic(auto, using(crate::proofs::Lawful::made_lawful))]
pub fn new_board<P: Part>(part: P) -> Board<P>
    ensures made { result ≡ idle (P.Part.ops.renew part) }
    ensures law { Lawful P.Part.ops result }
{
    Board::new(part)
}

// A board of a fresh X9520, with number 0, and another part after it. The lock of that X9520 holds.
#[tactic(auto, using(crate::proofs::Closing::first_lock))]
pub fn x9520_first<P: Part>(second: P) -> Board<Pair<X9520, P>>
    ensures made { result ≡ idle (join fresh (P.Part.ops.renew second)) }
    ensures law { Lawful (both x9520 P.Part.ops) result }
    ensures lock { LockHolds (both x9520 P.Part.ops) result 0 }
{
    new_board(Pair::new(X9520::fresh(), second))
}

// A board of another part and a fresh X9520 after it, whose number comes after those of the other. The lock of that X9520 holds.
#[tactic(auto, using(crate::proofs::Closing::second_lock))]
pub fn x9520_second<P: Part>(first: P) -> Board<Pair<P, X9520>>
    ensures made { result ≡ idle (join (P.Part.ops.renew first) fresh) }
    ensures law { Lawful (both P.Part.ops x9520) result }
    ensures lock { LockHolds (both P.Part.ops x9520) result (P.Part.ops.count first) }
{
    new_board(Pair::new(first, X9520::fresh()))
}
