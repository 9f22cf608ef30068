// A case: what is done to a fresh board, what is asked of it, and the answers that are expected.

use crate::lists::Lists;
use crate::makers::Makers;
use crate::moves::Moves;
use crate::notes::Notes;
use crate::tables::Table;
use crate::wire::Wire;

// Levels of the lines beside the wires are as in a sample: 04h is WP, 08h V2RO, 10h V3RO.
#[derive(Clone, Copy)]
pub enum Step {
    // Runs a job file, and answers nothing.
    Do(&'static [u8]),
    // Runs a job file, and answers its lines.
    Run(&'static [u8]),
    // Runs a job file into rows with room for so many results and so many bytes.
    RunInto(usize, usize, &'static [u8]),
    // Runs a job file, and answers the place and the line of the result with this number.
    LineOf(usize, &'static [u8]),
    // Gives samples; see `Wire` for what is answered.
    Wires(&'static [Wire]),
    // Sets the tool's record of line levels, or answers it.
    Set(u8),
    Lines,
    // The stored byte of a cell of a part; where a wiper of a part stands.
    Cell(usize, usize),
    Tap(usize, usize),
    // Whether the board is the same as one on which only this job file was run.
    SameAs(&'static [u8]),
    // Reads a recording into a row with room for so many transfers, and answers their lines.
    Recording(usize, &'static [Wire]),
    // What a job file cannot say.
    Lists(Lists),
    Makers(Makers),
    Notes(Notes),
    Moves(Moves),
    Table(Table),
}

#[derive(Clone, Copy)]
pub struct Case {
    pub name: &'static str,
    pub steps: &'static [Step],
    pub expected: &'static str,
}
