// What a search answers: how many nodes there are, and how many classes.
#[derive(Clone, Copy, Debug, PartialEq, Eq)]
pub struct Classes {
    pub nodes: usize,
    pub classes: usize,
}
