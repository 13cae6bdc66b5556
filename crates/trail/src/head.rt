// What stands at the head of a record.

// v was merged into u, which left s pairs of masks.
#[derive(Debug, Clone, Copy, PartialEq, Eq)]
pub struct Head {
    pub u: u16,
    pub v: u16,
    pub s: usize,
}
