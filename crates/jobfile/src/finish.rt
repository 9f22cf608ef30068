// The writes under way in a part are to end. Any part number may be asked; the board refuses those it lacks.
#[derive(Clone, Copy)]
pub struct Finish {
    pub part: usize,
}
