// A power cut: a write under way at offset i is stored exactly when bit i of the mask is 1.
#[derive(Clone, Copy, PartialEq, Eq, Debug)]
pub struct PowerCut {
    pub mask: u16,
}
