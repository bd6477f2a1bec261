//! What a pass knows. No value of these types is made but the terms of a queue.

use std::collections::LinkedList;

/// What a queue was opened with: the number of its first call, how many calls it has, and how many passes were handed out.
#[derive(Clone, Copy, Debug)]
pub struct Terms {
    pub first: u32,
    pub count: u32,
    pub passes: u64,
}

/// What a pass put and was given, and how many of the passes that were handed out it stands for.
pub struct Account<M> {
    pub share: u64,
    /// Whether it is the one that puts.
    pub puts: bool,
    pub terms: Terms,
    pub put: LinkedList<(u32, M)>,
    pub given: LinkedList<(u32, M)>,
}
