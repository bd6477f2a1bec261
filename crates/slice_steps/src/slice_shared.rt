//! What workers share.
ghost use Rattle.std.specs.Prelude.{◌≡◌, ◌≤◌, length};
ghost use Rattle.job_queue.specs.Passes.{count_of, first_of};
ghost use Rattle.call_jobs.specs.Entries.{AreNumbered};

use call_jobs::{Due, Item};
use job_queue::Jobs;
use module_store::Naming;
use pool_host::Host;

/// What workers share that make calls in slices: the host on which they make them, the queue that hands them numbers, and the calls of
/// these numbers.
pub struct SliceShared<N: Naming> {
    pub host: Host<N>,
    pub jobs: Jobs<Item<N>>,
    pub calls: Vec<Due>,
    ghost numbered: { AreNumbered calls.items },
    ghost first: { first_of jobs ≡ 1 },
    ghost enough: { count_of jobs ≤ length calls.items },
}

impl<N: Naming> Drop for SliceShared<N> {
    fn drop(self) {
        let SliceShared {
            host: _,
            jobs: _,
            calls: _,
        } = self;
    }
}
