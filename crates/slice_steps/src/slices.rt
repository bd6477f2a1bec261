//! The slices of calls.
ghost use Rattle.std.specs.Prelude.{◌≡◌, ℕ, ◌-◌, ◌^◌, ◌<◌, ◌≤◌, None, Some, Ok, IfOk, false, length, slice_get};
ghost use Rattle.request_calls.specs.Invocations.{shown_of};
ghost use Rattle.pool_host.specs.Hosts.{IsHostPass};
ghost use Rattle.slice_steps.specs.Queued.{IsPausedIn, paused_pair};
ghost use Rattle.slice_steps.specs.Slices.{HasTried, IsSliceOf, full_in, full_kind};

use crate::queued::Queued;
use crate::slice_shared::SliceShared;
use call_jobs::{Due, Item, Worked, due_at};
use host_edge::Gate;
use module_store::{ModuleRef, ModuleStore, Naming};
use pool_host::{Answer, Begun, HostPass, Paused, Turned};
use pool_model::Kind;
use std::alloc::Global;
use wasm_values::NoMemory;

// What a slice of a call left: what goes round from here on, and what was made of the call, if it was answered.
#[derive(Drop)]
pub(crate) struct Slice<N: Naming> {
    pub queued: Queued<N>,
    pub entry: Result<Option<Worked>, NoMemory>,
}

// What a try to begin a call left.
#[derive(Drop)]
pub(crate) enum Tried<N: Naming> {
    // Other calls had every slot of this kind: the pass that it was tried with.
    Full(HostPass<N>, Kind),
    // It was answered, or goes round.
    Left(Slice<N>),
}

// The call of this number is answered so, and its pass is idle.
fn answered<N: Naming>(pass: HostPass<N>, number: u32, answer: Option<Answer>) -> Slice<N>
    ensures queued { result.queued ≡ Queued.Idle pass }
    ensures entry { result.entry ≡ Ok (Some (record { number = number; answer = answer; bytes = None })) }
{
    let worked = Worked {
        number,
        answer,
        bytes: None,
    };
    Slice {
        queued: Queued::Idle(pass),
        entry: Ok(Some(worked)),
    }
}

// Begins a call that is sent nothing, and whose line shows no bytes.
fn begin<N: Naming, G: Gate>(
    shared: &SliceShared<N>,
    pass: HostPass<N>,
    store: &ModuleStore<N>,
    called: &ModuleRef<N>,
    due: &Due,
    gate: &G,
) -> Slice<N>
    requires pass { IsHostPass shared.now.host pass }
    requires counted { 0 < due.now.number }
    requires due { slice_get shared.now.calls.items (due.now.number - 1) ≡ Some due.now }
    requires unsent { due.now.invocation.request ≡ None }
    requires quiet { due.now.invocation.shows ≡ false }
    ensures { (turns : ℕ) → IsSliceOf N.config shared.now.host shared.now.calls.items turns (Queued.Idle pass) (due.now.number, Some called.now) result }
{
    // A count of 32 bits, as the fuel of a paused call is.
    let _fuel = due.invocation.fuel;
    let call = due.invocation.call();
    let number = due.number;
    let host = &shared.host;
    let begun = host.begin_call(pass, store, called, &call, number as u64, gate);
    match begun {
        Begun::Ready(paused) => Slice {
            queued: Queued::Paused(paused),
            entry: Ok(None),
        },
        Begun::NoExport(pass) => answered(pass, number, Some(Answer::NoExport)),
        Begun::BadArgs(pass) => answered(pass, number, Some(Answer::BadArgs)),
        Begun::Retired(pass) => answered(pass, number, Some(Answer::Retired)),
        Begun::Full(pass, kind) => answered(pass, number, Some(Answer::Full(kind))),
    }
}

// What is made of a call that is answered so, with what its line shows of these bytes.
fn entry_of(
    alloc: Global,
    due: &Due,
    answer: Answer,
    bytes: &[u8],
) -> Result<Option<Worked>, NoMemory>
    ensures { IfOk result (λ entry. entry ≡ Some (record { number = due.now.number; answer = Some answer; bytes = shown_of due.now.invocation bytes.now })) }
{
    let bytes = due.invocation.shown(alloc, bytes)?;
    Ok(Some(Worked {
        number: due.number,
        answer: Some(answer),
        bytes,
    }))
}

// Makes a call whole.
fn send<N: Naming, G: Gate>(
    alloc: Global,
    shared: &SliceShared<N>,
    mut pass: HostPass<N>,
    store: &ModuleStore<N>,
    called: &ModuleRef<N>,
    due: &Due,
    gate: &G,
) -> Slice<N>
    requires pass { IsHostPass shared.now.host pass }
    requires counted { 0 < due.now.number }
    requires due { slice_get shared.now.calls.items (due.now.number - 1) ≡ Some due.now }
    ensures { (turns : ℕ) → IsSliceOf N.config shared.now.host shared.now.calls.items turns (Queued.Idle pass) (due.now.number, Some called.now) result }
{
    let call = due.invocation.call();
    let number = due.number as u64;
    let host = &shared.host;
    let answer = host.invoke(&mut pass, store, called, &call, number, gate);
    let entry = entry_of(alloc, due, answer, pass.answer());
    Slice {
        queued: Queued::Idle(pass),
        entry,
    }
}

// Begins the call of this number, if it has a module. One that is sent bytes, or whose line shows some, is made whole.
fn begin_call<N: Naming, G: Gate>(
    alloc: Global,
    shared: &SliceShared<N>,
    pass: HostPass<N>,
    store: &ModuleStore<N>,
    number: u32,
    item: &Item<N>,
    gate: &G,
) -> Slice<N>
    requires pass { IsHostPass shared.now.host pass }
    requires counted { 0 < number }
    requires enough { number ≤ length shared.now.calls.items }
    ensures { (turns : ℕ) → IsSliceOf N.config shared.now.host shared.now.calls.items turns (Queued.Idle pass) (number, item.now) result }
{
    let due = due_at(&shared.calls, number);
    match item {
        None => answered(pass, number, None),
        Some(called) => match (&due.invocation.request, due.invocation.shows) {
            (None, false) => begin(shared, pass, store, called, due, gate),
            _ => send(alloc, shared, pass, store, called, due, gate),
        },
    }
}

// The kind that a call found full, by its answer.
fn full_in(answer: Option<Answer>) -> Option<Kind>
    ensures { result ≡ full_in answer }
{
    match answer {
        Some(Answer::Full(kind)) => Some(kind),
        _ => None,
    }
}

// The kind that a call found full, by its entry, if it has one.
fn full_kind(entry: &Result<Option<Worked>, NoMemory>) -> Option<Kind>
    ensures { result ≡ full_kind entry.now }
{
    match entry {
        Ok(Some(worked)) => full_in(worked.answer),
        _ => None,
    }
}

// Begins the call of this number as `begin_call` does, and gives the pass back where a kind is full.
pub(crate) fn try_call<N: Naming, G: Gate>(
    alloc: Global,
    shared: &SliceShared<N>,
    pass: HostPass<N>,
    store: &ModuleStore<N>,
    number: u32,
    item: &Item<N>,
    gate: &G,
) -> Tried<N>
    requires pass { IsHostPass shared.now.host pass }
    requires counted { 0 < number }
    requires enough { number ≤ length shared.now.calls.items }
    ensures { (turns : ℕ) → HasTried N.config shared.now.host shared.now.calls.items turns pass (number, item.now) result }
{
    let Slice { queued, entry } = begin_call(alloc, shared, pass, store, number, item, gate);
    match full_kind(&entry) {
        None => Tried::Left(Slice { queued, entry }),
        Some(kind) => match queued {
            Queued::Idle(pass) => Tried::Full(pass, kind),
            Queued::Paused(_) => unreachable!(),
        },
    }
}

// Makes so many turns more of a call. With so many that no call has fuel for them it is answered.
pub(crate) fn resume<N: Naming, G: Gate>(
    shared: &SliceShared<N>,
    store: &ModuleStore<N>,
    paused: Paused<N>,
    slice: u64,
    gate: &G,
) -> Slice<N>
    requires paused { IsPausedIn shared.now.host shared.now.calls.items paused.passes paused.retired paused.running paused.number }
    ensures slice { IsSliceOf N.config shared.now.host shared.now.calls.items slice (Queued.Paused paused) (paused_pair paused) result }
    ensures over { 2 ^ 32 ≤ slice → (worked : Worked) × (result.entry ≡ Ok (Some worked)) }
{
    let number = paused.number() as u32;
    match paused.resume(&shared.host, store, slice, gate) {
        Turned::Again(paused) => Slice {
            queued: Queued::Paused(paused),
            entry: Ok(None),
        },
        Turned::Done(outcome, pass) => answered(pass, number, Some(Answer::Done(outcome))),
    }
}
