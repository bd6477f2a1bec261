//! The values of a run, the top at the end.
ghost use Rattle.std.specs.Prelude.{◌≡◌, ◌+◌, ◌<◌, ◌≤◌, List, [], ◌∷◌, ◌++◌, IfOk, get_or, length, reverse, set, slice_get, take, vec_capacity, vec_len};
ghost use Rattle.std.specs.List.{copy_within};
ghost use Rattle.wasm_values.specs.declared.outcome.Val.{Val as AVal};
ghost use Rattle.wasm_values.specs.declared.outcome.Val.TheVariants as val;

use crate::cells::Cell;
use std::alloc::{AllocError, Global};
use std::marker::Model;
use wasm_values::Val;

/// A stack of values in room that is had once. A cell above the top has what was left there, and is written again when the stack
/// is that high.
pub struct ValueStack {
    cells: Vec<Cell>,
    height: usize,
}

impl Drop for ValueStack {
    fn drop(self) {
        let ValueStack {
            cells: _,
            height: _,
        } = self;
    }
}

// The cell at a place.
#[inline(always)]
fn cell_at(cells: &Vec<Cell>, place: usize) -> Cell
    requires { place < length cells.now.items }
    ensures { (d : AVal) → result ≡ get_or cells.now.items place d }
{
    cells[place]
}

// Writes a value over a cell. There is one at that place, so the question is always answered with yes. It stands between the reads
// of a value and its writes, so that these are two moves of a word each: one move of both would wait for the two writes that made
// the value.
#[inline(always)]
fn overwrite(cells: &mut Vec<Cell>, place: usize, v: Cell)
    requires { place < length cells.old.items }
    ensures items { cells.new.items ≡ set cells.old.items place v }
    ensures capacity { vec_capacity cells.new ≡ vec_capacity cells.old }
{
    if place < cells.len() {
        cells[place] = v;
    } else {
        cells.push_reserved(v);
    }
}

// Moves n values from one place to another.
#[cold]
#[inline(never)]
fn move_many(cells: &mut Vec<Cell>, from: usize, n: usize, to: usize)
    requires from { from + n ≤ length cells.old.items }
    requires to { to + n ≤ length cells.old.items }
    ensures items { cells.new.items ≡ copy_within cells.old.items from (from + n) to }
    ensures capacity { vec_capacity cells.new ≡ vec_capacity cells.old }
{
    cells.copy_within(from..from + n, to);
}

// Moves n values from one place to another. A label takes no more than one value, which is moved by itself.
#[inline(always)]
fn move_values(cells: &mut Vec<Cell>, from: usize, n: usize, to: usize)
    requires from { from + n ≤ length cells.old.items }
    requires to { to + n ≤ length cells.old.items }
    ensures items { cells.new.items ≡ copy_within cells.old.items from (from + n) to }
    ensures capacity { vec_capacity cells.new ≡ vec_capacity cells.old }
{
    match n {
        0 => {}
        1 => overwrite(cells, to, cell_at(cells, from)),
        _ => move_many(cells, from, n, to),
    }
}

impl Model for ValueStack {
    ghost use Rattle.std.specs.Prelude.{◌≤◌, length, take, vec_capacity};
    ghost use Rattle.machine_steps.specs.Values.{Values};

    ghost Value = { Values };

    ghost view = { λ stack. record { items = take stack.height stack.cells.items; room = vec_capacity stack.cells } };

    ghost invariant = { λ stack. stack.height ≤ length stack.cells.items };
}

impl ValueStack {
    /// No values, and room for at least so many.
    ///
    /// # Errors
    ///
    /// `AllocError` where memory was refused.
    pub fn with_room(alloc: Global, room: usize) -> Result<ValueStack, AllocError>
        ensures items { IfOk result (λ stack. stack.items ≡ []) }
        ensures room { IfOk result (λ stack. room ≤ stack.room) }
    {
        Ok(ValueStack {
            cells: Vec::with_capacity(alloc, room)?,
            height: 0,
        })
    }

    /// How many values there are.
    pub fn len(&self) -> usize
        ensures { result ≡ length self.now.items }
    {
        self.height
    }

    // The value so many places above another.
    #[inline(always)]
    pub(crate) fn at(&self, base: usize, x: u32) -> Cell
        requires { base + x < length self.now.items }
        ensures { (d : AVal) → result ≡ get_or self.now.items (base + x) d }
    {
        cell_at(&self.cells, base + x as usize)
    }

    // Writes a value there.
    #[inline(always)]
    pub(crate) fn put(&mut self, base: usize, x: u32, v: Cell)
        requires { base + x < length self.old.items }
        ensures items { self.new.items ≡ set self.old.items (base + x) v }
        ensures room { self.new.room ≡ self.old.room }
    {
        overwrite(&mut self.cells, base + x as usize, v);
    }

    /// Puts a value on the top, in the room that there is.
    #[inline(always)]
    pub fn push(&mut self, v: Val)
        requires { length self.old.items < self.old.room }
        ensures items { self.new.items ≡ self.old.items ++ v ∷ [] }
        ensures room { self.old.room ≤ self.new.room }
    {
        self.push_cell(Cell::of(v));
    }

    // Puts a cell on the top, in the room that there is.
    #[inline(always)]
    pub(crate) fn push_cell(&mut self, v: Cell)
        requires { length self.old.items < self.old.room }
        ensures items { self.new.items ≡ self.old.items ++ v ∷ [] }
        ensures room { self.old.room ≤ self.new.room }
    {
        let height = self.height;
        self.height = height + 1;
        if height < self.cells.len() {
            self.cells[height] = v;
        } else {
            self.cells.push_reserved(v);
        }
    }

    // Takes the top off.
    #[inline(always)]
    pub(crate) fn pop(&mut self) -> Cell
        requires { 0 < length self.old.items }
        ensures value { (rest : List AVal) (x : AVal) → self.old.items ≡ rest ++ x ∷ [] → (self.new.items ≡ rest) × (result ≡ x) }
        ensures room { self.new.room ≡ self.old.room }
        ensures free { length self.new.items < self.new.room }
    {
        self.height -= 1;
        self.cells[self.height]
    }

    // The topmost value.
    #[inline(always)]
    pub(crate) fn last(&self) -> Cell
        requires { 0 < length self.now.items }
        ensures { (rest : List AVal) (x : AVal) → self.now.items ≡ rest ++ x ∷ [] → result ≡ x }
    {
        self.cells[self.height - 1]
    }

    // Writes a value over the topmost one.
    #[inline(always)]
    pub(crate) fn replace(&mut self, v: Cell)
        requires { 0 < length self.old.items }
        ensures items { (rest : List AVal) (x : AVal) → self.old.items ≡ rest ++ x ∷ [] → self.new.items ≡ rest ++ v ∷ [] }
        ensures room { self.new.room ≡ self.old.room }
    {
        let top = self.height - 1;
        self.cells[top] = v;
    }

    /// The topmost value.
    pub fn top(&self) -> Option<Val>
        ensures { result ≡ slice_get (reverse self.now.items) 0 }
    {
        if self.height == 0 {
            None
        } else {
            Some(self.cells[self.height - 1].value())
        }
    }

    /// Moves the topmost n values down to `base`, and drops what was left from there on.
    #[inline(always)]
    pub fn keep(&mut self, n: usize, base: usize)
        requires { base + n ≤ length self.old.items }
        ensures kept { (lower middle operands : List AVal) → self.old.items ≡ lower ++ middle ++ reverse operands → length lower ≡ base
            → n ≤ length operands → self.new.items ≡ lower ++ reverse (take n operands) }
        ensures room { self.new.room ≡ self.old.room }
    {
        move_values(&mut self.cells, self.height - n, n, base);
        self.height = base + n;
    }

    /// Drops all values.
    pub fn clear(&mut self)
        ensures items { self.new.items ≡ [] }
        ensures room { self.new.room ≡ self.old.room }
    {
        self.height = 0;
    }
}
