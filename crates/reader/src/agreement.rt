// The reader and the board: what a recording shows is what happened on the wires.
ghost use Rattle.reader.specs.Agreement.{ReadsRuns};

use part::Part;

// Does nothing. It promises that the transfers read from the recording of a run of samples, on a board with a part of type P,
// are those of the run itself: a reader's clauses speak of recordings alone, and this function's is for each P that it is called at.
pub fn agrees<P: Part>()
    ensures { ReadsRuns P.Part.ops }
{}
