//! The last slice of a call, of as many turns as it takes.
ghost use Rattle.slice_steps.specs.Queued.{IsPausedIn};
ghost use Rattle.slice_steps.specs.Slices.{IsEndOf};

use crate::queued::Queued;
use crate::slice_shared::SliceShared;
use crate::slices::{Slice, resume};
use call_jobs::Worked;
use host_edge::Gate;
use module_store::{ModuleStore, Naming};
use pool_host::{HostPass, Paused};

// Makes so many turns of a call that it is answered: its entry, and what is left.
fn make_to_end<N: Naming, G: Gate>(
    shared: &SliceShared<N>,
    store: &ModuleStore<N>,
    paused: Paused<N>,
    gate: &G,
) -> (Worked, Queued<N>)
    requires paused { IsPausedIn shared.now.host shared.now.calls.items paused.passes paused.retired paused.running paused.number }
    ensures { IsEndOf N.config shared.now paused result.1 result.0 }
{
    let Slice { queued, entry } = resume(shared, store, paused, u64::MAX, gate);
    match entry {
        Ok(Some(worked)) => (worked, queued),
        _ => unreachable!(),
    }
}

/// Makes a paused call to its end: its entry, and the pass that is left. Takes no memory.
pub fn end_call<N: Naming, G: Gate>(
    shared: &SliceShared<N>,
    store: &ModuleStore<N>,
    paused: Paused<N>,
    gate: &G,
) -> (Worked, HostPass<N>)
    requires paused { IsPausedIn shared.now.host shared.now.calls.items paused.passes paused.retired paused.running paused.number }
    ensures { IsEndOf N.config shared.now paused (Queued.Idle result.1) result.0 }
{
    let (worked, left) = make_to_end(shared, store, paused, gate);
    match left {
        Queued::Idle(pass) => (worked, pass),
        Queued::Paused(_) => unreachable!(),
    }
}
