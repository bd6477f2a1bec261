//! The rule of the queue, and what each step makes of the account of the pass that takes it.

use crate::accounts::Account;
use crossbeam_queue::protocol::{Join, Lesson, Outcome, Protocol, Split};
use std::marker::{Brand, PhantomData};

/// What was put is what the passes were given, each pair as often, and then what the queue holds.
pub(crate) struct Balance;

impl<M> Protocol<(u32, M), Account<M>> for Balance {
    ghost use Rattle.std.specs.Prelude.{true};
    ghost use Rattle.job_queue.specs.Accounts.{first_terms, new_account};
    ghost use Rattle.job_queue.specs.Balance.{Kept};

    ghost holds = { Kept };

    ghost first = { new_account first_terms true };
}

/// What one queue is opened with.
pub(crate) trait Opening {
    ghost use Rattle.job_queue.specs.declared.accounts.Terms.{Terms};

    ghost terms: { Terms };
}

impl Opening for Brand {
    ghost use Rattle.job_queue.specs.Accounts.{first_terms};

    ghost terms = { first_terms };
}

/// Tells the only pass what its queue was opened with. The pass then stands for all that will be handed out.
pub(crate) struct Tells<O> {
    of: PhantomData<O>,
}

impl<M, O: Opening> Split<Account<M>> for Tells<O> {
    ghost use Rattle.job_queue.specs.Accounts.{told, spent_account};

    ghost left = { told O.terms };

    ghost right = { λ a. spent_account a.terms };
}

/// Parts a pass that takes from one that stands for several, and joins two.
pub(crate) struct Shares;

impl<M> Split<Account<M>> for Shares {
    ghost use Rattle.std.specs.Prelude.{false};
    ghost use Rattle.job_queue.specs.Accounts.{parted, new_account};

    ghost left = { parted };

    ghost right = { λ a. new_account a.terms false };
}

impl<M> Join<Account<M>> for Shares {
    ghost use Rattle.job_queue.specs.Accounts.{first_terms, joined, spent_account};

    ghost both = { joined };

    ghost spent = { spent_account first_terms };
}

pub(crate) struct Puts;

impl<M> Outcome<(u32, M), Account<M>> for Puts {
    ghost use Rattle.std.specs.Prelude.{◌≡◌, ◌∷◌, []};
    ghost use Rattle.job_queue.specs.Accounts.{with_put};

    ghost then = { λ a x b. b ≡ with_put a (x ∷ []) };
}

impl<M> Lesson<(u32, M), Account<M>> for Puts {
    ghost use Rattle.std.specs.Prelude.{◌≤◌, length};

    ghost fact = { λ a items. length items ≤ length a.put };
}

pub(crate) struct Takes;

impl<M> Outcome<(u32, M), Account<M>> for Takes {
    ghost use Rattle.job_queue.specs.Accounts.{IsGiven};

    ghost then = { λ a x b. IsGiven a x b };
}

impl<M> Lesson<(u32, M), Account<M>> for Takes {
    ghost use Rattle.job_queue.specs.Accounts.{IsSettledBy};

    ghost fact = { IsSettledBy };
}
