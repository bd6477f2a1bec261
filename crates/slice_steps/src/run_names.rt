//! The name of a run.
use crate::queued::Queued;
use job_queue::Admits;
use module_store::Naming;
use std::marker::{Brand, PhantomData};

/// What is known in one run of the passes of its host that are idle, and of its calls that are paused: of their passes at the pools and at
/// the retired tags, of what they show, and of their numbers; and how many turns a slice of a call has. It is picked by the proof of the
/// function in which the run queue is opened.
pub trait RunNaming<N> {
    ghost use Rattle.std.specs.Prelude.{ℕ};
    ghost use Rattle.retired_tags.specs.Passes.{TagPass};
    ghost use Rattle.pool_host.specs.declared.passes.Passes.{Passes};
    ghost use Rattle.instance_calls.specs.PausedViews.{PausedView};

    ghost idle: { Passes N → TagPass → Type 0 };

    ghost paused: { Passes N → TagPass → PausedView → ℕ → Type 0 };

    ghost slice: { ℕ };
}

impl<N> RunNaming<N> for Brand {
    ghost use Rattle.std.specs.Prelude.{⊤};

    ghost idle = { λ p t. ⊤ };

    ghost paused = { λ p t v n. ⊤ };

    ghost slice = { 0 };
}

/// How many turns a slice of a call has.
pub trait InSlices {
    ghost use Rattle.std.specs.Prelude.{ℕ};

    ghost slice: { ℕ };
}

/// What goes round in one run.
pub struct InRun<N, J> {
    store: PhantomData<N>,
    run: PhantomData<J>,
}

impl<N: Naming, J: RunNaming<N>> Admits<Queued<N>> for InRun<N, J> {
    ghost use Rattle.slice_steps.specs.Queued.{goes_round};

    ghost fits = { goes_round J.idle J.paused };
}

impl<N: Naming, J: RunNaming<N>> InSlices for InRun<N, J> {
    ghost slice = { J.slice };
}
