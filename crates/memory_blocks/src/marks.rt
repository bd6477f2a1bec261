//! A mark for each block of a memory.
ghost use Rattle.std.specs.Prelude.{◌≡◌, ◌+◌, ◌<◌, ◌≤◌, ◌++◌, ◌&&◌, ℕ, true, false, IfOk, if◌then◌else◌, drop, length, max, min, replicate, set, slice_index_or, take};
ghost use Rattle.memory_blocks.specs.Marks.{IsFirstMarked, IsJoined, IsUnmarkedOutside, without};

use crate::searching::first_marked;
use std::alloc::{AllocError, Global};
use std::marker::Model;

// Where the marked blocks lie: none before the first of these, and none from the end on.
#[derive(Clone, Copy, Drop)]
struct Span {
    first: usize,
    end: usize,
}

impl Span {
    // The same, and as far as from one block on up to another.
    fn widened(self, first: usize, end: usize) -> Span
        ensures { result ≡ record { first = min self.first first; end = max self.end end } }
    {
        Span {
            first: self.first.min(first),
            end: self.end.max(end),
        }
    }
}

/// A mark for each block of a memory. Where few blocks are marked and these lie near one another, what is done for the marked ones takes
/// time in proportion to them, and not to all. Contracts see the marks.
pub struct Marks {
    marks: Vec<bool>,
    span: Span,
}

impl Model for Marks {
    ghost use Rattle.memory_blocks.specs.Marks.{IsUnmarkedOutside, MarksView};

    ghost Value = { MarksView };

    ghost view = { λ m. record { items = m.marks.items } };

    ghost invariant = { λ m. IsUnmarkedOutside m.span.first m.span.end m.marks.items };
}

impl Drop for Marks {
    fn drop(self) {
        let Marks { marks: _, span: _ } = self;
    }
}

// Sets a mark, or takes it away.
fn set_one(marks: &mut Vec<bool>, block: usize, marked: bool)
    requires { block < length marks.old.items }
    ensures { marks.new.items ≡ set marks.old.items block marked }
{
    marks[block] = marked;
}

// Whether both of two blocks are marked.
fn are_marked(marks: &[bool], one: usize, other: usize) -> bool
    requires one { one < length marks.now }
    requires other { other < length marks.now }
    ensures { result ≡ (slice_index_or marks.now one false && slice_index_or marks.now other false) }
{
    marks[one] && marks[other]
}

// Sets so many marks from one on.
fn set_row(marks: &mut Vec<bool>, first: usize, count: usize)
    requires { first + count ≤ length marks.old.items }
    ensures { marks.new.items ≡ take first marks.old.items ++ (replicate count true ++ drop (first + count) marks.old.items) }
{
    marks[first..first + count].fill(true);
}

// Takes the marks from one on and before another away, where no other is set.
fn clear_row(marks: &mut Vec<bool>, first: usize, end: usize)
    requires { IsUnmarkedOutside first end marks.old.items }
    ensures none { (k : ℕ) → slice_index_or marks.new.items k false ≡ false }
    ensures room { length marks.new.items ≡ length marks.old.items }
{
    for block in first..end {
        marks[block] = false;
    }
}

// Marks a block where that is to be.
fn mark_if(marks: &mut Marks, block: usize, marked: bool)
    ensures { marks.new.items ≡ (if marked then set marks.old.items block true else marks.old.items) }
{
    if marked {
        marks.mark(block);
    }
}

// Marks the blocks that are marked there, too: none before the first, nor from the end on.
fn mark_those(marks: &mut Marks, others: &[bool], first: usize, end: usize)
    requires room { length others.now ≡ length marks.old.items }
    requires others { IsUnmarkedOutside first end others.now }
    ensures { IsJoined marks.old.items others.now marks.new.items }
{
    for block in first..end {
        mark_if(marks, block, others[block]);
    }
}

impl Marks {
    /// So many blocks, of which none is marked.
    ///
    /// # Errors
    ///
    /// `AllocError` where memory was refused.
    pub fn unmarked(alloc: Global, blocks: usize) -> Result<Marks, AllocError>
        ensures { IfOk result (λ marks. marks.items ≡ replicate blocks false) }
    {
        let marks = vec![in alloc; false; blocks]?;
        Ok(Marks {
            marks,
            span: Span {
                first: blocks,
                end: 0,
            },
        })
    }

    /// For each block whether it is marked.
    pub fn as_slice(&self) -> &[bool]
        ensures { result.now ≡ self.now.items }
    {
        &self.marks
    }

    /// Marks a block, if there is a mark for it.
    #[inline(never)]
    pub fn mark(&mut self, block: usize)
        ensures { self.new.items ≡ set self.old.items block true }
    {
        if block >= self.marks.len() {
            return;
        }
        set_one(&mut self.marks, block, true);
        self.span = self.span.widened(block, block + 1);
    }

    /// Marks two blocks.
    #[inline(always)]
    pub fn mark_both(&mut self, one: usize, other: usize)
        requires one { one < length self.old.items }
        requires other { other < length self.old.items }
        ensures { self.new.items ≡ set (set self.old.items one true) other true }
    {
        // Nearly always they were marked before.
        if are_marked(&self.marks, one, other) {
            return;
        }
        self.mark(one);
        self.mark(other);
    }

    /// Marks so many blocks from one on.
    pub fn mark_row(&mut self, first: usize, count: usize)
        requires { first + count ≤ length self.old.items }
        ensures { self.new.items ≡ take first self.old.items ++ (replicate count true ++ drop (first + count) self.old.items) }
    {
        set_row(&mut self.marks, first, count);
        self.span = self.span.widened(first, first + count);
    }

    /// Marks the blocks that are marked there, too.
    pub fn mark_all_of(&mut self, others: &Marks)
        requires { length others.now.items ≡ length self.old.items }
        ensures { IsJoined self.old.items others.now.items self.new.items }
    {
        mark_those(self, &others.marks, others.span.first, others.span.end);
    }

    /// Takes all marks away.
    pub fn clear(&mut self)
        ensures none { (k : ℕ) → slice_index_or self.new.items k false ≡ false }
        ensures room { length self.new.items ≡ length self.old.items }
    {
        clear_row(&mut self.marks, self.span.first, self.span.end);
        self.span = Span {
            first: self.marks.len(),
            end: 0,
        };
    }

    /// Takes the first mark away, and says of which block it was: `None` exactly where no block is marked.
    pub fn take_first(&mut self) -> Option<usize>
        ensures first { IsFirstMarked self.old.items result }
        ensures marks { self.new.items ≡ without self.old.items result }
    {
        match first_marked(&self.marks, self.span.first, self.span.end) {
            Some(block) => {
                set_one(&mut self.marks, block, false);
                self.span.first = block + 1;
                Some(block)
            }
            None => {
                self.span = Span {
                    first: self.marks.len(),
                    end: 0,
                };
                None
            }
        }
    }
}
