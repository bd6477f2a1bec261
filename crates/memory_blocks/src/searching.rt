//! How a marked block is looked for.
ghost use Rattle.std.specs.Prelude.{◌<◌, ◌≤◌, ◌↔◌, IsTrue, MatchOption, count_by, length};
ghost use Rattle.memory_blocks.specs.Marks.{IsFirstBetween, IsNoneBetween};

// How many marks are looked at one by one: where one block was written, those next to it often were too.
const NEAR: usize = 16;

// How many marks are looked at together behind these.
const GROUP: usize = 128;

// Whether a block is marked. No mark ends the loop early, so that it looks at many in one step.
fn has_marked(marks: &[bool]) -> bool
    ensures { IsTrue result ↔ (0 < count_by (λ marked. marked) marks.now) }
{
    let mut any = false;
    for marked in marks {
        any |= *marked;
    }
    any
}

// The first marked one of these blocks.
fn first_of(marks: &[bool], from: usize, end: usize) -> Option<usize>
    requires { end ≤ length marks.now }
    ensures { MatchOption result (IsNoneBetween from end marks.now) (IsFirstBetween from end marks.now) }
{
    for block in from..end {
        if marks[block] {
            return Some(block);
        }
    }
    None
}

// A block of these before which none of them is marked: the first of a group that has a mark, or one past them all.
fn pass_over(marks: &[bool], from: usize, end: usize) -> usize
    requires { end ≤ length marks.now }
    ensures later { from ≤ result }
    ensures none { IsNoneBetween from result marks.now }
{
    let mut at = from;
    while at < end {
        let next = at + GROUP.min(end - at);
        if has_marked(&marks[at..next]) {
            return at;
        }
        at = next;
    }
    at
}

// The first marked one of these blocks, for any number of them.
pub(crate) fn first_marked(marks: &[bool], from: usize, end: usize) -> Option<usize>
    requires { end ≤ length marks.now }
    ensures { MatchOption result (IsNoneBetween from end marks.now) (IsFirstBetween from end marks.now) }
{
    let near = from.saturating_add(NEAR).min(end);
    match first_of(marks, from, near) {
        Some(block) => Some(block),
        None => first_of(marks, pass_over(marks, near.max(from), end), end),
    }
}
