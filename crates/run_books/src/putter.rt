//! The calls of a round are put to its queue while its modules are still registered.
ghost use Rattle.std.specs.Prelude.{◌≡◌, ◌+◌, ◌≤◌, List, ◌++◌, IfOk, None, length, replicate};
ghost use Rattle.job_queue.specs.Accounts.{with_put};
ghost use Rattle.job_queue.specs.Passes.{IsJobPass, IsPutter, account_of, capacity_of, put_by};
ghost use Rattle.call_jobs.specs.Entries.{Pair};
ghost use Rattle.run_books.specs.Entries.{AreKept};
ghost use Rattle.run_books.specs.Put.{CanPutAll, HasPut, HasPutAll, module_of, round_calls};
ghost use Rattle.run_books.specs.Books.{HasEntered, calls_in};

use crate::books::{Registry, Span};
use crate::modules::{Entry, enter, entry_at};
use call_jobs::Item;
use job_queue::{JobPass, Jobs};
use module_store::{ModuleStore, Naming};
use request_text::{Directive, Requests};
use std::alloc::Global;
use std::sync::Wait;
use wasm_values::NoMemory;

// What is put with a call of this module line: its module, or none where it was refused.
fn item_of<N: Naming>(entry: &Entry<N>) -> Item<N>
    ensures { result ≡ module_of entry.now }
{
    match entry {
        Ok(accepted) => Some(accepted.again()),
        Err(_) => None,
    }
}

// Enters each module of a round and puts each of its calls, in file order.
fn put_calls<N: Naming, R: Wait>(
    rt: &R,
    alloc: Global,
    store: &ModuleStore<N>,
    requests: &Requests,
    span: Span,
    jobs: &Jobs<Item<N>>,
    putter: &mut Putter<N>,
) -> Result<(), NoMemory>
    requires { CanPutAll N.config requests.now span jobs.now 0 putter.old }
    ensures own { IsJobPass jobs.now putter.new.own }
    ensures putter { IsPutter putter.new.own }
    ensures many { length (put_by putter.new.own) ≤ calls_in requests.now.directives span }
    ensures entered { IfOk result (λ _. HasEntered N.config requests.now span.to putter.new.registry) }
    ensures kept { IfOk result (λ _. AreKept putter.old.registry.entries.items putter.new.registry.entries.items) }
    ensures put { IfOk result (λ _. HasPut (round_calls putter.new.registry requests.now span) (account_of putter.old.own) (account_of putter.new.own)) }
{
    let Putter { registry, own } = putter;
    let profile = requests.profile();
    let directives = requests.directives();
    let mut number = span.calls;
    for at in span.from..span.to {
        match &directives[at] {
            Directive::Module { bytes, .. } => {
                enter(rt, alloc, store, profile, bytes.as_slice(), registry)?;
            }
            Directive::Call { module, .. } => {
                number += 1;
                let item = item_of(entry_at(&registry.entries, *module));
                jobs.put(rt, own, number, item);
            }
            Directive::Retire { .. } => {}
        }
    }
    Ok(())
}

// Puts a 0 for each worker.
fn put_ends<N: Naming, R: Wait>(
    rt: &R,
    jobs: &Jobs<Item<N>>,
    own: &mut JobPass<Item<N>>,
    workers: u32,
)
    requires own { IsJobPass jobs.now own.old }
    requires putter { IsPutter own.old }
    requires room { length (put_by own.old) + workers ≤ capacity_of jobs.now }
    ensures own { IsJobPass jobs.now own.new }
    ensures put { account_of own.new ≡ with_put (account_of own.old) (replicate workers (0, None)) }
{
    for _ in 0..workers {
        jobs.put(rt, own, 0, None);
    }
}

/// What puts a round: the registry of its modules, and the pass of its queue.
#[derive(Drop)]
pub struct Putter<N: Naming> {
    pub registry: Registry<N>,
    pub own: JobPass<Item<N>>,
}

/// What is left after all was put: the pass that put it, and the registry with the round's modules, unless memory was refused.
#[derive(Drop)]
pub struct Put<N: Naming> {
    pub own: JobPass<Item<N>>,
    pub registry: Result<Registry<N>, NoMemory>,
}

/// Enters each module and puts each call, in file order, and then, also where memory was refused, a 0 for each worker.
pub fn put_all<N: Naming, R: Wait>(
    rt: &R,
    alloc: Global,
    store: &ModuleStore<N>,
    requests: &Requests,
    span: Span,
    jobs: &Jobs<Item<N>>,
    mut putter: Putter<N>,
    workers: u32,
) -> Put<N>
    requires { CanPutAll N.config requests.now span jobs.now workers putter }
    ensures ends { (pairs : List Pair) × (put_by result.own ≡ pairs ++ replicate workers (0, None)) }
    ensures put { HasPutAll N.config requests.now span jobs.now workers putter result }
{
    let put = put_calls(rt, alloc, store, requests, span, jobs, &mut putter);
    let Putter { registry, mut own } = putter;
    put_ends(rt, jobs, &mut own, workers);
    let registry = match put {
        Ok(()) => Ok(registry),
        Err(NoMemory) => Err(NoMemory),
    };
    Put { own, registry }
}
