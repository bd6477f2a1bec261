//! What a host answers.
use crate::passes::HostPass;
use crate::paused::Paused;
use module_store::Naming;
use pool_model::Kind;
use wasm_values::Outcome;

/// How a call on a host went.
#[derive(Clone, Copy, Debug, PartialEq, Eq)]
pub enum Answer {
    /// It was made, and ended so.
    Done(Outcome),
    /// No function is exported under its name.
    NoExport,
    /// The arguments aren't of the function's types.
    BadArgs,
    /// It could be made, but the module is retired on this host.
    Retired,
    /// Other calls had every slot of this kind.
    Full(Kind),
}

/// How a call began.
#[derive(Drop)]
pub enum Begun<N: Naming> {
    /// It has its slots, and no instruction has run.
    Ready(Paused<N>),
    /// No function is exported under its name.
    NoExport(HostPass<N>),
    /// The arguments aren't of the function's types.
    BadArgs(HostPass<N>),
    /// It could be made, but the module is retired on this host.
    Retired(HostPass<N>),
    /// Other calls had every slot of this kind.
    Full(HostPass<N>, Kind),
}

/// How a slice of a call went.
#[derive(Drop)]
pub enum Turned<N: Naming> {
    /// It has more turns to make, and fuel for one.
    Again(Paused<N>),
    /// It ended so, and its slots are given back.
    Done(Outcome, HostPass<N>),
}

/// How a module was retired.
#[derive(Clone, Copy, Debug, PartialEq, Eq)]
pub enum Retire {
    /// For the first time on this host. So many memories and tables that no call had, and that were still the module's, became cold.
    First { cleaned: u32 },
    /// It was retired before.
    Already,
}
