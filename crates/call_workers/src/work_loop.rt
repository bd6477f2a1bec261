//! The work of one worker.
ghost use Rattle.std.specs.Prelude.{◌+◌, ◌≤◌, All, IfOk, OnErr, length};
ghost use Rattle.job_queue.specs.Passes.{IsJobPass, account_of, count_of, first_of};
ghost use Rattle.tenant_share.specs.Tenants.{IsCaller, tenants_of};
ghost use Rattle.call_jobs.specs.Entries.{AreNumbered, IsOfTenants};
ghost use Rattle.call_workers.specs.Taken.{DidWork, WasGiven};

use crate::calls::make;
use call_jobs::{Due, Item, Waits, Worked};
use host_edge::Gate;
use job_queue::{JobPass, Jobs};
use module_store::{ModuleStore, Naming};
use std::alloc::Global;
use std::sync::Wait;
use std::thread;
use tenant_share::{Caller, ShareHost};
use wasm_values::NoMemory;

/// Makes the calls that the queue gives it, each on the slots of its tenant, until it is given a 0; where the queue is empty it asks again. There is
/// an entry for each call, in the order in which they were given. After a call that found a kind full it waits before it asks for
/// the next one, so that the queue is left to those that have slots. `calls` has the call of each number of the queue, at the place
/// before its number. `gate` is told of each call.
///
/// # Errors
///
/// `NoMemory` where memory is refused. The calls that it was given by then are spent.
pub fn work<N: Naming, R: Wait, G: Gate>(
    rt: &R,
    alloc: Global,
    share: &ShareHost<N>,
    caller: &mut Caller<N>,
    store: &ModuleStore<N>,
    jobs: &Jobs<Item<N>>,
    own: &mut JobPass<Item<N>>,
    calls: &[Due],
    gate: &G,
) -> Result<Vec<Worked>, NoMemory>
    requires caller { IsCaller share.now caller.old }
    requires own { IsJobPass jobs.now own.old }
    requires numbered { AreNumbered calls.now }
    requires numbers { first_of jobs.now + count_of jobs.now ≤ length calls.now + 1 }
    requires tenants { All (IsOfTenants (tenants_of share.now)) calls.now }
    ensures caller { IsCaller share.now caller.new }
    ensures own { IsJobPass jobs.now own.new }
    ensures made { IfOk result (λ made. DidWork N.config share.now calls.now (account_of own.old) (account_of own.new) caller.old caller.new made.items) }
    ensures spent { OnErr result (WasGiven (account_of own.old) (account_of own.new)) }
{
    let mut made = Vec::new(alloc);
    let mut waits = Waits::none();
    for _ in rt.forever() {
        made.reserve(1).map_err(|_| NoMemory)?;
        match jobs.next(rt, own) {
            None => thread::yield_now(),
            Some((number, item)) => {
                if number == 0 {
                    return Ok(made);
                }
                let worked = make(alloc, share, caller, store, number, item, calls, gate)?;
                waits = waits.after(worked.answer);
                made.push_reserved(worked);
                waits.wait();
            }
        }
    }
    unreachable!()
}
