//! What the bits are told as they open.

/// What a `RetiredTags` is told once, as it opens.
#[derive(Clone, Copy, Debug)]
pub struct Setup {
    /// How many tags there are.
    pub tags: u64,
    /// How many passes are handed out.
    pub passes: u64,
}
