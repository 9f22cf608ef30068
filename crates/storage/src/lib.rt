// What write jobs store and read jobs bring back, of each chip that sits in a part. The two functions do nothing: each is there for
// its clause, which speaks of the jobs' samples on every board, so that whatever works a part as these samples do has it too.
#![tactic(auto)]

ghost use Rattle.storage.specs.Fetching.{Fetches};
ghost use Rattle.storage.specs.Storing.{BringsBack};

use part::Part;

// What a write job stores, later jobs bring back.
#[tactic(auto, using(crate::proofs::BringingBack::every_write))]
pub fn brings_back<P: Part>()
    ensures { BringsBack P.Part.ops }
{}

// A read job brings what is stored, and changes nothing.
#[tactic(auto, using(crate::proofs::FetchingBack::every_read))]
pub fn fetches<P: Part>()
    ensures { Fetches P.Part.ops }
{}
