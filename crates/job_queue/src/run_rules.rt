//! The rule of a run queue, and what each step makes of the account of the pass that takes it.

use crate::admits::Admits;
use crate::run_queue::RunAccount;
use crossbeam_queue::protocol::{Join, Lesson, Outcome, Protocol, Split};
use std::marker::{Brand, PhantomData};

/// What the queue holds fits, and what the passes put is what they were given and what the queue holds, each item as often.
pub(crate) struct RunBalance<A> {
    of: PhantomData<A>,
}

impl<T, A: Admits<T>> Protocol<T, RunAccount<T>> for RunBalance<A> {
    ghost use Rattle.job_queue.specs.RunAccounts.{first_run_account};
    ghost use Rattle.job_queue.specs.RunBalance.{RunKept};

    ghost holds = { RunKept A.fits };

    ghost first = { first_run_account };
}

/// What one queue is opened with.
pub(crate) trait RunOpening {
    ghost use Rattle.job_queue.specs.declared.run_queue.RunTerms.{RunTerms};

    ghost terms: { RunTerms };
}

impl RunOpening for Brand {
    ghost use Rattle.job_queue.specs.RunAccounts.{first_run_terms};

    ghost terms = { first_run_terms };
}

/// Tells the only pass what its queue was opened with.
pub(crate) struct TellsRun<O> {
    of: PhantomData<O>,
}

impl<T, O: RunOpening> Split<RunAccount<T>> for TellsRun<O> {
    ghost use Rattle.job_queue.specs.RunAccounts.{run_told, spent_run_account};

    ghost left = { run_told O.terms };

    ghost right = { λ a. spent_run_account a.terms };
}

/// Parts a pass from one that stands for several, and joins two.
pub(crate) struct RunShares;

impl<T> Split<RunAccount<T>> for RunShares {
    ghost use Rattle.job_queue.specs.RunAccounts.{new_run_account, run_parted};

    ghost left = { run_parted };

    ghost right = { λ a. new_run_account a.terms };
}

impl<T> Join<RunAccount<T>> for RunShares {
    ghost use Rattle.job_queue.specs.RunAccounts.{first_run_terms, run_joined, spent_run_account};

    ghost both = { run_joined };

    ghost spent = { spent_run_account first_run_terms };
}

pub(crate) struct RunPuts;

impl<T> Outcome<T, RunAccount<T>> for RunPuts {
    ghost use Rattle.std.specs.Prelude.{◌≡◌, ◌∷◌, []};
    ghost use Rattle.job_queue.specs.RunAccounts.{with_run_put};

    ghost then = { λ a x b. b ≡ with_run_put a (x ∷ []) };
}

impl<T> Lesson<T, RunAccount<T>> for RunPuts {
    ghost use Rattle.std.specs.Prelude.{◌<◌, length};

    ghost fact = { λ a items. length items < a.terms.capacity };
}

pub(crate) struct RunTakes<A> {
    of: PhantomData<A>,
}

impl<T, A: Admits<T>> Outcome<T, RunAccount<T>> for RunTakes<A> {
    ghost use Rattle.job_queue.specs.RunAccounts.{IsRunGiven};

    ghost then = { IsRunGiven A.fits };
}

impl<T, A: Admits<T>> Lesson<T, RunAccount<T>> for RunTakes<A> {
    ghost use Rattle.job_queue.specs.RunAccounts.{IsRunSettledBy};

    ghost fact = { IsRunSettledBy };
}
