//! What goes round among workers that make calls in slices.
use module_store::Naming;
use pool_host::{HostPass, Paused};

/// What a worker takes from the run queue, and puts back for the next one.
#[derive(Drop)]
pub enum Queued<N: Naming> {
    /// The leave to begin a call.
    Idle(HostPass<N>),
    /// A call that waits for its next turn.
    Paused(Paused<N>),
}
