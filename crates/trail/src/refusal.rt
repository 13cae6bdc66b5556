// Why a trail refuses a record.

// The record has no room behind the last one.
#[derive(Debug, Clone, Copy, PartialEq, Eq)]
pub struct TrailFull;
