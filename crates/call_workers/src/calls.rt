//! What a worker makes of one call.
ghost use Rattle.std.specs.Prelude.{◌≡◌, ◌<◌, ◌≤◌, All, IfOk, Some, length};
ghost use Rattle.tenant_share.specs.Tenants.{IsCaller, tenants_of};
ghost use Rattle.call_jobs.specs.Entries.{AreNumbered, IsAnswered, IsEntry, IsOfTenants};
ghost use Rattle.call_workers.specs.Made.{CallerMade, CallerMadeEntry};

use call_jobs::{Due, Item, Worked, due_at};
use host_edge::Gate;
use module_store::{ModuleRef, ModuleStore, Naming};
use std::alloc::Global;
use tenant_share::{Caller, ShareHost};
use wasm_values::NoMemory;

// What a worker made of a call of this module, on the slots of the call's tenant.
fn made<N: Naming, G: Gate>(
    alloc: Global,
    share: &ShareHost<N>,
    caller: &mut Caller<N>,
    store: &ModuleStore<N>,
    called: &ModuleRef<N>,
    due: &Due,
    gate: &G,
) -> Result<Worked, NoMemory>
    requires caller { IsCaller share.now caller.old }
    requires tenant { IsOfTenants (tenants_of share.now) due.now }
    ensures own { IsCaller share.now caller.new }
    ensures number { IfOk result (λ worked. worked.number ≡ due.now.number) }
    ensures answered { IfOk result (λ worked. IsAnswered N.config due.now.invocation (Some called.now) worked.answer worked.bytes) }
    ensures call { IfOk result (λ worked. CallerMade N.config share.now due.now.tenant (Some called.now) worked.answer caller.old caller.new) }
{
    let invocation = &due.invocation;
    let call = invocation.call();
    let number = due.number as u64;
    let answer = share.invoke_for(caller, due.tenant, store, called, &call, number, gate);
    Ok(Worked {
        number: due.number,
        answer: Some(answer),
        bytes: invocation.shown(alloc, caller.answer(due.tenant))?,
    })
}

// Makes the call of this number on its tenant's host, if it has a module.
pub(crate) fn make<N: Naming, G: Gate>(
    alloc: Global,
    share: &ShareHost<N>,
    caller: &mut Caller<N>,
    store: &ModuleStore<N>,
    number: u32,
    item: Item<N>,
    calls: &[Due],
    gate: &G,
) -> Result<Worked, NoMemory>
    requires caller { IsCaller share.now caller.old }
    requires numbered { AreNumbered calls.now }
    requires counted { 0 < number }
    requires enough { number ≤ length calls.now }
    requires tenants { All (IsOfTenants (tenants_of share.now)) calls.now }
    ensures own { IsCaller share.now caller.new }
    ensures entry { IfOk result (IsEntry N.config calls.now (number, item)) }
    ensures made { IfOk result (λ worked. CallerMadeEntry N.config share.now calls.now (number, item) worked caller.old caller.new) }
{
    let due = due_at(calls, number);
    match item {
        Some(called) => made(alloc, share, caller, store, &called, due, gate),
        None => Ok(Worked {
            number,
            answer: None,
            bytes: None,
        }),
    }
}
