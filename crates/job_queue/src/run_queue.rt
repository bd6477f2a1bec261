//! The queue of what is at work: a worker takes an item from it, works on it for a while, and puts back what is left of it.
ghost use Rattle.std.specs.Prelude.{◌≡◌, ◌+◌, ◌-◌, ◌<◌, ◌∷◌, [], All, length, IfOk, IfSome, IfNone};
ghost use Rattle.std.specs.List.Sorted.{IsPermutation};
ghost use Rattle.crossbeam_queue.specs.Passes.{IsPassOf, view};
ghost use Rattle.job_queue.specs.RunAccounts.{IsLeftOf, first_run_account, run_joined, run_parted, run_told, with_run_given, with_run_put};
ghost use Rattle.job_queue.specs.RunPasses.{HasAllRunPasses, IsFirstRunPass, IsNewRunPass, IsRunPass, run_account_of, run_capacity, run_given_to, run_passes, run_put_by, run_room, run_share};

use crate::admits::Admits;
use crate::run_rules::{RunBalance, RunOpening, RunPuts, RunShares, RunTakes, TellsRun};
use crossbeam_queue::{Pass, RuledArrayQueue};
use std::alloc::{AllocError, Global};
use std::collections::LinkedList;
use std::marker::Brand;
use std::sync::Wait;
use wasm_values::NoMemory;

/// What a queue was opened with: how many passes were handed out, and how many items it can hold.
#[derive(Clone, Copy, Debug)]
pub struct RunTerms {
    pub passes: u64,
    pub capacity: u64,
}

/// What a pass put and was given, how many of the passes that were handed out it stands for, and how many items it may put. No value of
/// this type is made.
pub struct RunAccount<T> {
    pub share: u64,
    pub terms: RunTerms,
    pub room: u64,
    pub put: LinkedList<T>,
    pub given: LinkedList<T>,
}

/// The right to put to a queue and to take from it. One thread has it at a time.
pub type RunPass<T> = Pass<T, RunAccount<T>>;

/// A queue that threads share by `&`, each with a pass of its own. What it holds is what `A` admits.
pub struct RunQueue<T, A: Admits<T>> {
    queue: RuledArrayQueue<T, RunAccount<T>, RunBalance<A>>,
    terms: RunTerms,
}

impl<T: Drop, A: Admits<T>> Drop for RunQueue<T, A> {
    fn drop(self) {
        let RunQueue { queue: _, terms: _ } = self;
    }
}

impl<T: Drop, A: Admits<T>> RunQueue<T, A> {
    /// A queue for so many items, a first pass, which may put as many, and so many others, of which each may put as many as it is given.
    ///
    /// # Errors
    ///
    /// [`NoMemory`] where memory is refused.
    pub fn open(
        alloc: Global,
        capacity: u32,
        others: u32,
    ) -> Result<(RunQueue<T, A>, RunPass<T>, Vec<RunPass<T>>), NoMemory>
        requires { 0 < capacity }
        ensures capacity { IfOk result (λ o. run_capacity o.0 ≡ capacity) }
        ensures passes { IfOk result (λ o. run_passes o.0 ≡ others + 1) }
        ensures first { IfOk result (λ o. IsFirstRunPass o.0 o.1) }
        ensures room { IfOk result (λ o. run_room o.1 ≡ capacity) }
        ensures others { IfOk result (λ o. All (IsNewRunPass o.0) o.2.items) }
        ensures many { IfOk result (λ o. length o.2.items ≡ others) }
    {
        let terms = RunTerms {
            passes: others as u64 + 1,
            capacity: capacity as u64,
        };
        let (queue, mut first) = RuledArrayQueue::ruled(alloc, capacity as usize).map_err(
            |_| NoMemory,
        )?;
        tell_run::<T, A, Brand>(&queue, &mut first, terms);
        let queue = RunQueue { queue, terms };
        let passes = queue
            .part_all(alloc, &mut first, others)
            .map_err(|_| NoMemory)?;
        Ok((queue, first, passes))
    }

    // So many passes, parted from the first.
    fn part_all(
        &self,
        alloc: Global,
        first: &mut RunPass<T>,
        others: u32,
    ) -> Result<Vec<RunPass<T>>, AllocError>
        requires own { IsRunPass self.now first.old }
        requires share { others < run_share first.old }
        ensures own { IsRunPass self.now first.new }
        ensures left { IfOk result (λ passes. run_account_of first.new ≡ record (run_account_of first.old) { share = run_share first.old - others }) }
        ensures many { IfOk result (λ passes. length passes.items ≡ others) }
        ensures passes { IfOk result (λ passes. All (IsNewRunPass self.now) passes.items) }
    {
        let mut passes = Vec::new(alloc);
        for _ in 0..others {
            passes.push(self.part(first))?;
        }
        Ok(passes)
    }

    // A new pass.
    fn part(&self, pass: &mut RunPass<T>) -> RunPass<T>
        requires own { IsRunPass self.now pass.old }
        requires share { 1 < run_share pass.old }
        ensures own { IsRunPass self.now pass.new }
        ensures left { run_account_of pass.new ≡ run_parted (run_account_of pass.old) }
        ensures parted { IsNewRunPass self.now result }
    {
        self.queue.another::<RunShares>(pass)
    }

    /// Puts an item that fits. It is never refused, and takes no memory.
    pub fn put<R: Wait>(&self, rt: &R, pass: &mut RunPass<T>, item: T)
        requires own { IsRunPass self.now pass.old }
        requires room { 0 < run_room pass.old }
        requires fits { A.fits item }
        ensures own { IsRunPass self.now pass.new }
        ensures put { run_account_of pass.new ≡ with_run_put (run_account_of pass.old) (item ∷ []) }
    {
        self.queue.push_as::<RunPuts, R>(rt, pass, item).unwrap();
    }

    /// Gives an item that was put and given to no pass yet. It fits, and the pass may put one more. Takes no memory. Answers none only
    /// where the queue was empty at a step of this call: a pass that stands for all was then given all that was put, and another pass
    /// learns nothing from it.
    pub fn next<R: Wait>(&self, rt: &R, pass: &mut RunPass<T>) -> Option<T>
        requires { IsRunPass self.now pass.old }
        ensures own { IsRunPass self.now pass.new }
        ensures fits { IfSome result (λ x. A.fits x) }
        ensures given { IfSome result (λ x. run_account_of pass.new ≡ with_run_given (run_account_of pass.old) (x ∷ [])) }
        ensures left { IfSome result (λ x. HasAllRunPasses self.now pass.old → IsLeftOf (run_put_by pass.old) (run_given_to pass.old) x) }
        ensures none { IfNone result (run_account_of pass.new ≡ run_account_of pass.old) }
        ensures all { IfNone result (HasAllRunPasses self.now pass.old → IsPermutation (run_put_by pass.old) (run_given_to pass.old)) }
    {
        self.queue.pop_as::<RunTakes<A>, R>(rt, pass)
    }

    /// Joins another pass into this one, which then put and was given, beside its own, what the other did, and may put what the other
    /// might. Takes no memory.
    pub fn join_pass(&self, pass: &mut RunPass<T>, other: RunPass<T>)
        requires own { IsRunPass self.now pass.old }
        requires other { IsRunPass self.now other }
        ensures own { IsRunPass self.now pass.new }
        ensures both { run_account_of pass.new ≡ run_joined (run_account_of pass.old) (run_account_of other) }
    {
        self.queue.absorb::<RunShares>(pass, other);
    }
}

// Tells the only pass what the queue was opened with.
fn tell_run<T: Drop, A: Admits<T>, O: RunOpening>(
    queue: &RuledArrayQueue<T, RunAccount<T>, RunBalance<A>>,
    pass: &mut RunPass<T>,
    terms: RunTerms,
)
    requires terms { terms ≡ O.terms }
    requires some { 0 < terms.passes }
    requires own { IsPassOf queue.now pass.old }
    requires first { view pass.old ≡ first_run_account }
    ensures own { IsPassOf queue.now pass.new }
    ensures told { view pass.new ≡ run_told terms first_run_account }
{
    let _ = queue.another::<TellsRun<O>>(pass);
}
