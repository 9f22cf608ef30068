// The levels of the lines beside the two wires, true for HIGH: write protect and the two monitor outputs.
#[derive(Clone, Copy, PartialEq, Eq, Debug)]
pub struct Levels {
    pub wp: bool,
    pub v2ro: bool,
    pub v3ro: bool,
}
