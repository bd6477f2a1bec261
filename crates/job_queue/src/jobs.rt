//! The queue that hands numbers and items to workers.
ghost use Rattle.std.specs.Prelude.{◌≡◌, ◌+◌, ◌-◌, ◌^◌, ◌<◌, ◌≤◌, ◌∷◌, [], true, All, length, IfOk, IfSome, IfNone};
ghost use Rattle.std.specs.List.Sorted.{IsPermutation};
ghost use Rattle.crossbeam_queue.specs.Passes.{IsPassOf, IsSamePass, view};
ghost use Rattle.job_queue.specs.Accounts.{IsNextOf, first_terms, joined, new_account, parted, told, with_given, with_put};
ghost use Rattle.job_queue.specs.Passes.{IsJobPass, IsNewPutterOf, IsNewTakerOf, IsNumberOf, IsPutter, StandsForAll, account_of, capacity_of, count_of, first_of, given_to, passes_of, put_by, share_of};

use crate::accounts::{Account, Terms};
use crate::rules::{Balance, Opening, Puts, Shares, Takes, Tells};
use crossbeam_queue::{Pass, RuledArrayQueue};
use std::alloc::{AllocError, Global};
use std::marker::Brand;
use std::sync::Wait;
use wasm_values::NoMemory;

/// The right to put to a queue of jobs, or to take from it. Contracts see what it put and was given. One thread has it at a time.
pub type JobPass<M> = Pass<(u32, M), Account<M>>;

/// A queue of calls: of the number of each, with an item. Threads share it by `&`, each with a pass of its own.
pub struct Jobs<M> {
    queue: RuledArrayQueue<(u32, M), Account<M>, Balance>,
    terms: Terms,
}

impl<M: Drop> Drop for Jobs<M> {
    fn drop(self) {
        let Jobs { queue: _, terms: _ } = self;
    }
}

impl<M: Drop> Jobs<M> {
    /// A queue for `count` calls, which are numbered from `first` on, the pass that puts, and a pass for each worker. It has room
    /// for `count` pairs and one more for each worker.
    ///
    /// # Errors
    ///
    /// [`NoMemory`] where memory is refused.
    pub fn open(
        alloc: Global,
        first: u32,
        count: u32,
        workers: u32,
    ) -> Result<(Jobs<M>, JobPass<M>, Vec<JobPass<M>>), NoMemory>
        requires first { 1 ≤ first }
        requires numbers { first + count ≤ 2 ^ 32 }
        requires workers { 0 < workers }
        ensures first { IfOk result (λ o. first_of o.0 ≡ first) }
        ensures count { IfOk result (λ o. count_of o.0 ≡ count) }
        ensures passes { IfOk result (λ o. passes_of o.0 ≡ workers + 1) }
        ensures capacity { IfOk result (λ o. capacity_of o.0 ≡ count + workers) }
        ensures putter { IfOk result (λ o. IsNewPutterOf o.0 o.1) }
        ensures workers { IfOk result (λ o. length o.2.items ≡ workers) }
        ensures takers { IfOk result (λ o. All (IsNewTakerOf o.0) o.2.items) }
    {
        let terms = Terms {
            first,
            count,
            passes: workers as u64 + 1,
        };
        let room = count as usize + workers as usize;
        let (queue, mut putter) = RuledArrayQueue::ruled(alloc, room).map_err(|_| NoMemory)?;
        tell::<M, Brand>(&queue, &mut putter, terms);
        let jobs = Jobs { queue, terms };
        let takers = jobs
            .part_all(alloc, &mut putter, workers)
            .map_err(|_| NoMemory)?;
        Ok((jobs, putter, takers))
    }

    // A pass for each worker, parted from the putter's.
    fn part_all(
        &self,
        alloc: Global,
        putter: &mut JobPass<M>,
        workers: u32,
    ) -> Result<Vec<JobPass<M>>, AllocError>
        requires own { IsJobPass self.now putter.old }
        requires share { workers < share_of putter.old }
        ensures own { IsJobPass self.now putter.new }
        ensures left { IfOk result (λ takers. account_of putter.new ≡ record (account_of putter.old) { share = share_of putter.old - workers }) }
        ensures workers { IfOk result (λ takers. length takers.items ≡ workers) }
        ensures takers { IfOk result (λ takers. All (IsNewTakerOf self.now) takers.items) }
    {
        let mut takers = Vec::new(alloc);
        for _ in 0..workers {
            takers.push(self.part(putter))?;
        }
        Ok(takers)
    }

    // A new pass that takes.
    fn part(&self, pass: &mut JobPass<M>) -> JobPass<M>
        requires own { IsJobPass self.now pass.old }
        requires share { 1 < share_of pass.old }
        ensures own { IsJobPass self.now pass.new }
        ensures left { account_of pass.new ≡ parted (account_of pass.old) }
        ensures parted { IsNewTakerOf self.now result }
    {
        self.queue.another::<Shares>(pass)
    }

    /// Puts a pair. It is never refused, and takes no memory. The number is 0, which tells a worker to end, or that of a call.
    pub fn put<R: Wait>(&self, rt: &R, pass: &mut JobPass<M>, number: u32, item: M)
        requires own { IsJobPass self.now pass.old }
        requires putter { IsPutter pass.old }
        requires room { length (put_by pass.old) < capacity_of self.now }
        requires number { IsNumberOf self.now number }
        ensures own { IsJobPass self.now pass.new }
        ensures put { account_of pass.new ≡ with_put (account_of pass.old) ((number, item) ∷ []) }
    {
        self.queue
            .push_as::<Puts, R>(rt, pass, (number, item))
            .unwrap();
    }

    /// Gives a pair that was put and given to no pass yet. Takes no memory. Answers none only where the queue was empty at a step
    /// of this call: a pass that stands for all was then given all that was put, and another pass learns nothing from it. To a pass
    /// that stands for all it gives the pairs in the order in which they were put.
    pub fn next<R: Wait>(&self, rt: &R, pass: &mut JobPass<M>) -> Option<(u32, M)>
        requires { IsJobPass self.now pass.old }
        ensures own { IsJobPass self.now pass.new }
        ensures number { IfSome result (λ x. IsNumberOf self.now x.0) }
        ensures given { IfSome result (λ x. account_of pass.new ≡ with_given (account_of pass.old) (x ∷ [])) }
        ensures order { IfSome result (λ x. StandsForAll self.now pass.old → IsNextOf (put_by pass.old) (given_to pass.old) x) }
        ensures none { IfNone result (account_of pass.new ≡ account_of pass.old) }
        ensures all { IfNone result (StandsForAll self.now pass.old → IsPermutation (put_by pass.old) (given_to pass.old)) }
    {
        self.queue.pop_as::<Takes, R>(rt, pass)
    }

    /// Joins another pass into this one, which then put and was given, beside its own, what the other did. Takes no memory.
    pub fn join_pass(&self, pass: &mut JobPass<M>, other: JobPass<M>)
        requires own { IsJobPass self.now pass.old }
        requires other { IsJobPass self.now other }
        ensures own { IsJobPass self.now pass.new }
        ensures both { account_of pass.new ≡ joined (account_of pass.old) (account_of other) }
    {
        self.queue.absorb::<Shares>(pass, other);
    }
}

// Tells the only pass what the queue was opened with.
fn tell<M: Drop, O: Opening>(
    queue: &RuledArrayQueue<(u32, M), Account<M>, Balance>,
    pass: &mut JobPass<M>,
    terms: Terms,
)
    requires terms { terms ≡ O.terms }
    requires some { 0 < terms.passes }
    requires own { IsPassOf queue.now pass.old }
    requires first { view pass.old ≡ new_account first_terms true }
    ensures own { IsPassOf queue.now pass.new }
    ensures told { view pass.new ≡ told terms (new_account first_terms true) }
{
    let _ = queue.another::<Tells<O>>(pass);
}
