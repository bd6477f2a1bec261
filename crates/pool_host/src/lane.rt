//! Calls of one caller.
ghost use Rattle.std.specs.Prelude.{◌≡◌, ◌↔◌, ◌≤◌, [], length, IfOk};
ghost use Rattle.instance_calls.specs.CallWords.{run_limits};
ghost use Rattle.pool_host.specs.CallWords.{IsAnswer, IsFuelLeft, IsLaneAnswerTo, IsLeftTo, host_answer};
ghost use Rattle.pool_host.specs.Hosts.{HandedOut, HasShare, IsHostPass, IsNewHostPass, IsSameHostPass, IsShare};
ghost use Rattle.pool_host.specs.Looks.{look_of, IsDecidedBy, Looked, SetsBit};
ghost use Rattle.pool_host.specs.Retiring.{is_already, Sweeps};
ghost use Rattle.pool_host.specs.Trails.{AddsTrails};
ghost use Rattle.retired_tags.specs.Passes.{steps};
ghost use Rattle.retired_tags.specs.Steps.{HasSet, Knows};

use crate::answers::{Answer, Retire};
use crate::host::Host;
use crate::passes::HostPass;
use call_payload::Call;
use host_edge::Gate;
use module_store::{ModuleRef, ModuleStore, Naming};
use pool_limits::Share;
use std::alloc::Global;
use wasm_values::{NoMemory, Outcome, Val};

/// How a call went.
#[derive(Clone, Copy, Debug, PartialEq, Eq)]
pub enum LaneAnswer {
    /// It was made, and ended so.
    Done(Outcome),
    /// No function is exported under its name.
    NoExport,
    /// The arguments aren't of the function's types.
    BadArgs,
    /// It could be made, but the module is retired on this lane.
    Retired,
}

/// A host with one caller, whose pass is its only one.
pub struct LaneHost<N: Naming> {
    host: Host<N>,
    pass: HostPass<N>,
    ghost own: { IsHostPass host pass },
    ghost alone: { HandedOut host 1 },
}

impl<N: Naming> Drop for LaneHost<N> {
    fn drop(self) {
        let LaneHost { host: _, pass: _ } = self;
    }
}

impl<N: Naming> LaneHost<N> {
    /// A lane with so many slots of each kind.
    ///
    /// # Errors
    ///
    /// `NoMemory` where memory is refused.
    pub fn open(
        alloc: Global,
        store: &ModuleStore<N>,
        share: Share,
    ) -> Result<LaneHost<N>, NoMemory>
        requires { IsShare share }
        ensures share { IfOk result (λ lane. HasShare N.config.warm share lane.host) }
        ensures new { IfOk result (λ lane. IsNewHostPass lane.host lane.pass) }
    {
        let (host, mut passes) = Host::open(alloc, store, share, 1)?;
        let pass = passes.pop().unwrap();
        Ok(LaneHost { host, pass })
    }

    /// Makes a call of a module's export on a fresh instance, whose start function runs first, on the call's fuel in all. Its memory has
    /// at most the configured pages, and its calls are at most the configured depth deep. It takes no memory of the program's, and
    /// always has its slots. Where the module is retired on this lane it takes none. The module may read the request and append to an
    /// answer, which [`LaneHost::answer`] shows afterwards where the call is done.
    ///
    /// The gate is told of the call by its number: when all is taken and nothing has run, and after every answer.
    pub fn invoke<G: Gate>(
        &mut self,
        store: &ModuleStore<N>,
        module: &ModuleRef<N>,
        call: &Call<'_>,
        number: u64,
        gate: &G,
    ) -> LaneAnswer
        ensures same { (self.new.host ≡ self.old.host) × IsSameHostPass self.old.pass self.new.pass }
        ensures answer { IsLaneAnswerTo call.now «module».now.tree (run_limits N.config) result self.new.pass.answer }
        ensures left { IsLeftTo call.now «module».now.tree (run_limits N.config) (host_answer result) self.new.pass.left }
        ensures trails { AddsTrails N.config self.old.host «module».now (host_answer result) self.old.pass.passes self.new.pass.passes }

        // one look at the retired tags, after the checks and before any slot: retired is exactly what this lane retired
        ensures looked { Looked self.old.host.retired.tags «module».now.tag self.old.pass.retired self.new.pass.retired (look_of (host_answer result)) }
        ensures own_steps { IsDecidedBy «module».now.tag (steps self.old.pass.retired) (look_of (host_answer result)) }
    {
        let pass = &mut self.pass;
        match self.host.invoke(pass, store, module, call, number, gate) {
            Answer::Done(outcome) => LaneAnswer::Done(outcome),
            Answer::NoExport => LaneAnswer::NoExport,
            Answer::BadArgs => LaneAnswer::BadArgs,
            Answer::Retired => LaneAnswer::Retired,
            Answer::Full(_) => unreachable!(),
        }
    }

    /// Makes a call as [`LaneHost::invoke`] does.
    pub fn send<G: Gate>(
        &mut self,
        store: &ModuleStore<N>,
        module: &ModuleRef<N>,
        export: &[u8],
        args: &[Val],
        request: &[u8],
        fuel: u64,
        number: u64,
        gate: &G,
    ) -> LaneAnswer
        requires { length request.now ≤ 65536 }
        ensures same { (self.new.host ≡ self.old.host) × IsSameHostPass self.old.pass self.new.pass }
        ensures answer { IsAnswer «module».now.tree (run_limits N.config) export.now args.now request.now fuel result self.new.pass.answer }
        ensures left { IsFuelLeft «module».now.tree (run_limits N.config) export.now args.now request.now fuel (host_answer result) self.new.pass.left }
        ensures trails { AddsTrails N.config self.old.host «module».now (host_answer result) self.old.pass.passes self.new.pass.passes }
        ensures looked { Looked self.old.host.retired.tags «module».now.tag self.old.pass.retired self.new.pass.retired (look_of (host_answer result)) }
        ensures own_steps { IsDecidedBy «module».now.tag (steps self.old.pass.retired) (look_of (host_answer result)) }
    {
        let call = Call {
            export,
            args,
            request,
            fuel,
        };
        self.invoke(store, module, &call, number, gate)
    }

    /// Makes a call as [`LaneHost::invoke`] does, with a request of no bytes.
    pub fn call<G: Gate>(
        &mut self,
        store: &ModuleStore<N>,
        module: &ModuleRef<N>,
        export: &[u8],
        args: &[Val],
        fuel: u64,
        number: u64,
        gate: &G,
    ) -> LaneAnswer
        ensures same { (self.new.host ≡ self.old.host) × IsSameHostPass self.old.pass self.new.pass }
        ensures answer { IsAnswer «module».now.tree (run_limits N.config) export.now args.now [] fuel result self.new.pass.answer }
        ensures left { IsFuelLeft «module».now.tree (run_limits N.config) export.now args.now [] fuel (host_answer result) self.new.pass.left }
        ensures trails { AddsTrails N.config self.old.host «module».now (host_answer result) self.old.pass.passes self.new.pass.passes }
        ensures looked { Looked self.old.host.retired.tags «module».now.tag self.old.pass.retired self.new.pass.retired (look_of (host_answer result)) }
        ensures own_steps { IsDecidedBy «module».now.tag (steps self.old.pass.retired) (look_of (host_answer result)) }
    {
        self.send(store, module, export, args, &[], fuel, number, gate)
    }

    /// Retires a module on this lane: no later call of it is made. The first time, each memory and table that is still the module's is
    /// made cold. It takes no memory.
    pub fn retire(&mut self, store: &ModuleStore<N>, module: &ModuleRef<N>) -> Retire
        ensures same { (self.new.host ≡ self.old.host) × IsSameHostPass self.old.pass self.new.pass }
        ensures bytes { self.new.pass.answer ≡ self.old.pass.answer }
        ensures left { self.new.pass.left ≡ self.old.pass.left }

        // one step at the retired tags, and it was retired before exactly where this lane had retired it
        ensures bit { SetsBit self.old.host.retired.tags «module».now.tag self.old.pass.retired self.new.pass.retired (is_already result) }
        ensures known { Knows «module».now.tag (steps self.new.pass.retired) }
        ensures before { Knows «module».now.tag (steps self.old.pass.retired) → result ≡ Retire.Already }
        ensures own_steps { (result ≡ Retire.Already) ↔ HasSet «module».now.tag (steps self.old.pass.retired) }

        // the first time a sweep of the memories and one of the tables, else nothing
        ensures sweeps { Sweeps self.old.host «module».now result self.old.pass.passes self.new.pass.passes }
    {
        self.host.retire(&mut self.pass, store, module)
    }

    /// The bytes that the last call answered: none unless it was done. Takes no memory.
    pub fn answer(&self) -> &[u8]
        ensures { result.now ≡ self.now.pass.answer }
    {
        self.pass.answer()
    }

    /// What the last call left of its fuel: all of it where it was not made. It is 0 before the first. Takes no memory.
    pub fn left(&self) -> u64
        ensures { result ≡ self.now.pass.left }
    {
        self.pass.left()
    }
}
