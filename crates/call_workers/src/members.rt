//! Workers, before and after their work, and what they have between rounds.
use crate::shared::Shared;
use call_jobs::{Item, Worked};
use job_queue::{JobPass, Jobs};
use module_store::Naming;
use tenant_share::Caller;
use wasm_values::NoMemory;

/// What lives across rounds: what workers share, and a caller for each worker.
pub struct Crew<N: Naming> {
    pub shared: Shared<N>,
    pub callers: Vec<Caller<N>>,
}

impl<N: Naming> Drop for Crew<N> {
    fn drop(self) {
        let Crew {
            shared: _,
            callers: _,
        } = self;
    }
}

/// What a worker works with: its pass of each tenant, and its pass of the round's queue.
#[derive(Drop)]
pub struct Worker<N: Naming> {
    pub caller: Caller<N>,
    pub own: JobPass<Item<N>>,
}

/// What a worker gives back: its passes, and what it made.
#[derive(Drop)]
pub struct Done<N: Naming> {
    pub worker: Worker<N>,
    pub made: Result<Vec<Worked>, NoMemory>,
}

/// One round: its queue, the pass that puts its calls, and its workers.
#[derive(Drop)]
pub struct Round<N: Naming> {
    pub jobs: Jobs<Item<N>>,
    pub putter: JobPass<Item<N>>,
    pub workers: Vec<Worker<N>>,
}
