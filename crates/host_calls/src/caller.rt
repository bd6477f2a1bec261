//! A pass with its host.
ghost use Rattle.std.specs.Prelude.{◌≡◌, ◌≤◌, length};
ghost use Rattle.memory_counts.specs.Counted.{AreTakes};
ghost use Rattle.instance_calls.specs.CallWords.{run_limits};
ghost use Rattle.pool_host.specs.CallWords.{IfFull, IsFuelLeft, IsHostAnswer};
ghost use Rattle.pool_host.specs.Hosts.{IsHostPass, IsSameHostPass};
ghost use Rattle.pool_host.specs.Looks.{look_of, Looked};
ghost use Rattle.pool_host.specs.Trails.{AddsTrails, HasCause};

use host_edge::Gate;
use memory_counts::TakeCounts;
use module_store::{ModuleRef, ModuleStore, Naming};
use pool_host::{Answer, Host, HostPass};
use wasm_values::Val;

/// A pass with the host that handed it out. So what takes one repeats no condition on it.
pub struct HostCaller<'a, N: Naming> {
    host: &'a Host<N>,
    pass: HostPass<N>,
    ghost own: { IsHostPass host.now pass },
}

impl<N: Naming> Drop for HostCaller<'_, N> {
    fn drop(self) {
        let HostCaller { host: _, pass: _ } = self;
    }
}

impl<'a, N: Naming> HostCaller<'a, N> {
    /// A pass with its host. Takes no memory.
    pub fn new(host: &'a Host<N>, pass: HostPass<N>) -> HostCaller<'a, N>
        requires { IsHostPass host.now pass }
        ensures host { result.host.now ≡ host.now }
        ensures pass { result.pass ≡ pass }
    {
        HostCaller { host, pass }
    }

    /// The pass alone, as [`Host::close`] wants it. Takes no memory.
    pub fn into_pass(self) -> HostPass<N>
        ensures own { IsHostPass self.entry.host.now result }
        ensures pass { result ≡ self.entry.pass }
    {
        let HostCaller { host: _, pass } = self;
        pass
    }

    /// Calls as [`Host::send`] does.
    pub fn send<G: Gate>(
        &mut self,
        store: &ModuleStore<N>,
        module: &ModuleRef<N>,
        export: &[u8],
        args: &[Val],
        request: &[u8],
        fuel: u64,
        number: u64,
        gate: &G,
    ) -> Answer
        requires { length request.now ≤ 65536 }
        ensures same { (self.new.host.now ≡ self.old.host.now) × IsSameHostPass self.old.pass self.new.pass }
        ensures answer { IsHostAnswer «module».now.tree (run_limits N.config) export.now args.now request.now fuel result self.new.pass.answer }
        ensures left { IsFuelLeft «module».now.tree (run_limits N.config) export.now args.now request.now fuel result self.new.pass.left }
        ensures trails { AddsTrails N.config self.old.host.now «module».now result self.old.pass.passes self.new.pass.passes }
        ensures full { IfFull result (HasCause N.config self.old.host.now «module».now self.old.pass.passes self.new.pass.passes) }
        ensures looked { Looked self.old.host.now.retired.tags «module».now.tag self.old.pass.retired self.new.pass.retired (look_of result) }
    {
        let pass = &mut self.pass;
        self.host.send(
            pass, store, module, export, args, request, fuel, number, gate,
        )
    }

    /// The bytes that the last call answered: none unless it was done. Takes no memory.
    pub fn answer(&self) -> &[u8]
        ensures { result.now ≡ self.now.pass.answer }
    {
        self.pass.answer()
    }

    /// What the last call left of its fuel: all of it where it was not made. Takes no memory.
    pub fn left(&self) -> u64
        ensures { result ≡ self.now.pass.left }
    {
        self.pass.left()
    }

    /// What its takes of memories came to since the pass was handed out, as [`HostPass::takes`] tells. Takes no memory.
    pub fn takes(&self) -> TakeCounts
        ensures { AreTakes N.config.batch self.now.pass.passes.memory result }
    {
        self.pass.takes()
    }
}
