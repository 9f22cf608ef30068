// The power is to be cut: bit i of the mask says whether a write under way at offset i is stored. Every mask is one.
#[derive(Clone, Copy)]
pub struct Cut {
    pub mask: u16,
}
