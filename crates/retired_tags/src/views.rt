//! What is known of a pass. No value of these types is ever made, but of [`TagPass`].
use atomic_table::Seat;
use std::collections::LinkedList;

/// One step on the word of a tag: the tag, and whether the step read the bit set.
pub enum TagStep {
    RetireOr(u32, bool),
    RetireLoad(u32, bool),
}

/// What a pass knows.
pub struct TagView {
    /// How many passes were handed out.
    pub passes: u64,
    /// How many seats may still be split off from it. It is 0 from `RetiredTags::open` on.
    pub unsplit: u64,
    /// How many of the passes that were handed out it stands for.
    pub share: u64,
    /// Its steps so far.
    pub trail: LinkedList<TagStep>,
    /// The steps of the passes that were joined into it, one trail after another.
    pub joined_trail: LinkedList<TagStep>,
}

/// One seat at a [`RetiredTags`](crate::RetiredTags). It has no bytes.
pub type TagPass = Seat<(), TagView>;
