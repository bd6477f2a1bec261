//! A host for each tenant.
ghost use Rattle.std.specs.Prelude.{◌≡◌, ◌≢◌, ℕ, ◌*◌, ◌<◌, ◌≤◌, [], IfOk, Some, length, slice_get};
ghost use Rattle.std.specs.List.{All};
ghost use Rattle.instance_calls.specs.CallWords.{run_limits};
ghost use Rattle.pool_limits.specs.declared.wants.Want.{Want};
ghost use Rattle.pool_host.specs.declared.host.Host.{Host};
ghost use Rattle.pool_host.specs.declared.passes.Passes.{Passes};
ghost use Rattle.pool_host.specs.CallWords.{IfFull, IsAnswerTo, IsHostAnswer};
ghost use Rattle.pool_host.specs.Hosts.{AreSamePasses, IsShare};
ghost use Rattle.pool_host.specs.Looks.{look_of, Looked, SetsBit};
ghost use Rattle.pool_host.specs.Retiring.{is_already, Sweeps};
ghost use Rattle.pool_host.specs.Trails.{AddsTrails, HasCause};
ghost use Rattle.retired_tags.specs.Passes.{steps};
ghost use Rattle.retired_tags.specs.Steps.{Knows};
ghost use Rattle.tenant_share.specs.Opening.{AddsHost, IsFresh, WereFresh};
ghost use Rattle.tenant_share.specs.Retiring.{RetiredAt, RetiredForAll};
ghost use Rattle.tenant_share.specs.Tenants.{answer_of, passes_at, wanted_share, tags_at, tenants_of, AreInOrder, HasShares, IsCaller, IsHostOf, IsNewCaller, IsSameTenantPass, IsTenantPass, OnTenant};

use crate::passes::{Caller, TenantPass, empty_callers, put_all};
use crate::plan::Plan;
use call_payload::Call;
use host_edge::Gate;
use module_store::{ModuleRef, ModuleStore, Naming};
use pool_host::{Answer, Host, HostPass, MOST_PASSES, Retire};
use pool_limits::Share;
use std::alloc::Global;
use wasm_values::{NoMemory, Val};

/// A host for each tenant, by the tenants' numbers.
#[derive(Drop)]
pub struct ShareHost<N: Naming> {
    pub(crate) hosts: Vec<Host<N>>,
}

// A tenant's slots.
fn planned_share<N: Naming>(store: &ModuleStore<N>, plan: &Plan, tenant: usize) -> Share
    requires plan { plan.now.0 ≡ N.config }
    requires tenant { tenant < length plan.now.1 }
    ensures share { IsShare result }
    ensures slots { (want : Want) → slice_get plan.now.1 tenant ≡ Some want → result ≡ wanted_share want }
{
    // The numbers of a configuration are in range.
    let _numbers = store.config().numbers();
    let want = plan.share(tenant);
    Share {
        instances: want.instances,
        memories: want.memories,
        tables: want.tables,
    }
}

impl<N: Naming> ShareHost<N> {
    // Adds the host of the next tenant, and gives its passes.
    fn add_host(
        &mut self,
        alloc: Global,
        store: &ModuleStore<N>,
        plan: &Plan,
        passes: u32,
    ) -> Result<Vec<HostPass<N>>, NoMemory>
        requires plan { plan.now.0 ≡ N.config }
        requires tenant { tenants_of self.old < length plan.now.1 }
        requires passes { (1 ≤ passes) × (passes ≤ MOST_PASSES) }
        ensures { IfOk result (λ own. AddsHost plan.now.1 passes self.old self.new own.items) }
    {
        let tenant = self.hosts.len();
        let share = planned_share(store, plan, tenant);
        let warm = plan.share(tenant).warm;
        let (host, own) = Host::open_warm(alloc, store, share, warm, passes)?;
        self.hosts.reserve(1).map_err(|_| NoMemory)?;
        self.hosts.push_reserved(host);
        Ok(own)
    }

    // Gives each caller one of the passes of the last tenant's host.
    fn deal(
        &self,
        alloc: Global,
        mut own: Vec<HostPass<N>>,
        mut callers: Vec<Caller<N>>,
    ) -> Result<Vec<Caller<N>>, NoMemory>
        requires enough { length callers.items ≡ length own.items }
        requires before { WereFresh self.now own.items callers.items }
        ensures count { IfOk result (λ all. length all.items ≡ length callers.items) }
        ensures fresh { IfOk result (λ all. All (IsFresh self.now) all.items) }
    {
        let mut all = Vec::with_capacity(alloc, callers.len()).map_err(|_| NoMemory)?;
        while let Some(mut caller) = callers.pop() {
            caller.add(own.pop().unwrap())?;
            all.push_reserved(caller);
        }
        Ok(all)
    }

    /// A host for each tenant of the plan, with the tenant's slots, of which at most its warm share is warm while no call has them,
    /// and so many passes for each tenant, in order of tenant. There are no others.
    ///
    /// # Errors
    ///
    /// `NoMemory` where memory is refused.
    pub fn open(
        alloc: Global,
        store: &ModuleStore<N>,
        plan: &Plan,
        passes: u32,
    ) -> Result<(ShareHost<N>, Vec<TenantPass<N>>), NoMemory>
        requires plan { plan.now.0 ≡ N.config }
        requires passes { (1 ≤ passes) × (passes ≤ MOST_PASSES) }
        ensures shares { IfOk result (λ o. HasShares plan.now.1 passes o.0) }
        ensures many { IfOk result (λ o. length o.1.items ≡ length plan.now.1 * passes) }
        ensures passes { IfOk result (λ o. All (IsTenantPass o.0) o.1.items) }
        ensures order { IfOk result (λ o. AreInOrder o.0 passes o.1.items) }
    {
        let hosts = Vec::new(alloc);
        let mut share = ShareHost { hosts };
        let mut all = Vec::new(alloc);
        for tenant in 0..plan.tenants() {
            let own = share.add_host(alloc, store, plan, passes)?;
            put_all(tenant, own, &mut all)?;
        }
        Ok((share, all))
    }

    /// Opens hosts as [`ShareHost::open`] does, for so many callers, each with a pass of each tenant.
    ///
    /// # Errors
    ///
    /// `NoMemory` where memory is refused.
    pub fn open_for(
        alloc: Global,
        store: &ModuleStore<N>,
        plan: &Plan,
        callers: u32,
    ) -> Result<(ShareHost<N>, Vec<Caller<N>>), NoMemory>
        requires plan { plan.now.0 ≡ N.config }
        requires callers { (1 ≤ callers) × (callers ≤ MOST_PASSES) }
        ensures shares { IfOk result (λ o. HasShares plan.now.1 callers o.0) }
        ensures many { IfOk result (λ o. length o.1.items ≡ callers) }
        ensures callers { IfOk result (λ o. All (IsCaller o.0) o.1.items) }
        ensures new { IfOk result (λ o. All (IsNewCaller o.0) o.1.items) }
    {
        let hosts = Vec::new(alloc);
        let mut share = ShareHost { hosts };
        let mut all = empty_callers(alloc, callers)?;
        for _ in 0..plan.tenants() {
            let own = share.add_host(alloc, store, plan, callers)?;
            all = share.deal(alloc, own, all)?;
        }
        Ok((share, all))
    }

    /// Makes a call of a module's export as [`Host::invoke`](pool_host::Host::invoke) does, on slots of the pass's tenant alone.
    pub fn invoke<G: Gate>(
        &self,
        pass: &mut TenantPass<N>,
        store: &ModuleStore<N>,
        module: &ModuleRef<N>,
        call: &Call<'_>,
        number: u64,
        gate: &G,
    ) -> Answer
        requires { IsTenantPass self.now pass.old }
        ensures own { IsTenantPass self.now pass.new }
        ensures same { IsSameTenantPass pass.old pass.new }
        ensures answer { IsAnswerTo call.now «module».now.tree (run_limits N.config) result pass.new.pass.answer }

        // all of it on the tenant's own host: where a kind is full, other passes of the tenant held its slots; a module is retired there
        ensures trails { (host : Host N) → IsHostOf self.now pass.old.tenant host
            → AddsTrails N.config host «module».now result pass.old.pass.passes pass.new.pass.passes }
        ensures full { (host : Host N) → IsHostOf self.now pass.old.tenant host
            → IfFull result (HasCause N.config host «module».now pass.old.pass.passes pass.new.pass.passes) }
        ensures looked { (host : Host N) → IsHostOf self.now pass.old.tenant host
            → Looked host.retired.tags «module».now.tag pass.old.pass.retired pass.new.pass.retired (look_of result) }
    {
        let host = &self.hosts[pass.tenant];
        host.invoke(&mut pass.pass, store, module, call, number, gate)
    }

    /// Makes a call as [`ShareHost::invoke`] does.
    pub fn send<G: Gate>(
        &self,
        pass: &mut TenantPass<N>,
        store: &ModuleStore<N>,
        module: &ModuleRef<N>,
        export: &[u8],
        args: &[Val],
        request: &[u8],
        fuel: u64,
        number: u64,
        gate: &G,
    ) -> Answer
        requires pass { IsTenantPass self.now pass.old }
        requires request { length request.now ≤ 65536 }
        ensures own { IsTenantPass self.now pass.new }
        ensures same { IsSameTenantPass pass.old pass.new }
        ensures answer { IsHostAnswer «module».now.tree (run_limits N.config) export.now args.now request.now fuel result pass.new.pass.answer }
        ensures trails { (host : Host N) → IsHostOf self.now pass.old.tenant host
            → AddsTrails N.config host «module».now result pass.old.pass.passes pass.new.pass.passes }
        ensures full { (host : Host N) → IsHostOf self.now pass.old.tenant host
            → IfFull result (HasCause N.config host «module».now pass.old.pass.passes pass.new.pass.passes) }
        ensures looked { (host : Host N) → IsHostOf self.now pass.old.tenant host
            → Looked host.retired.tags «module».now.tag pass.old.pass.retired pass.new.pass.retired (look_of result) }
    {
        let call = Call {
            export,
            args,
            request,
            fuel,
        };
        self.invoke(pass, store, module, &call, number, gate)
    }

    /// Makes a call as [`ShareHost::invoke`] does, with a request of no bytes.
    pub fn call<G: Gate>(
        &self,
        pass: &mut TenantPass<N>,
        store: &ModuleStore<N>,
        module: &ModuleRef<N>,
        export: &[u8],
        args: &[Val],
        fuel: u64,
        number: u64,
        gate: &G,
    ) -> Answer
        requires pass { IsTenantPass self.now pass.old }
        ensures own { IsTenantPass self.now pass.new }
        ensures same { IsSameTenantPass pass.old pass.new }
        ensures answer { IsHostAnswer «module».now.tree (run_limits N.config) export.now args.now [] fuel result pass.new.pass.answer }
        ensures trails { (host : Host N) → IsHostOf self.now pass.old.tenant host
            → AddsTrails N.config host «module».now result pass.old.pass.passes pass.new.pass.passes }
        ensures full { (host : Host N) → IsHostOf self.now pass.old.tenant host
            → IfFull result (HasCause N.config host «module».now pass.old.pass.passes pass.new.pass.passes) }
        ensures looked { (host : Host N) → IsHostOf self.now pass.old.tenant host
            → Looked host.retired.tags «module».now.tag pass.old.pass.retired pass.new.pass.retired (look_of result) }
    {
        self.send(pass, store, module, export, args, &[], fuel, number, gate)
    }

    /// Makes a call as [`ShareHost::invoke`] does for a caller, with its pass of this tenant: on slots of this tenant alone.
    pub fn invoke_for<G: Gate>(
        &self,
        caller: &mut Caller<N>,
        tenant: u32,
        store: &ModuleStore<N>,
        module: &ModuleRef<N>,
        call: &Call<'_>,
        number: u64,
        gate: &G,
    ) -> Answer
        requires caller { IsCaller self.now caller.old }
        requires tenant { tenant < tenants_of self.now }
        ensures own { IsCaller self.now caller.new }
        ensures answer { IsAnswerTo call.now «module».now.tree (run_limits N.config) result (answer_of caller.new tenant) }

        // to the caller's passes of this tenant, on this tenant's host; those of other tenants stay, with their bytes
        ensures same { (p q : Passes N) → passes_at caller.old tenant ≡ Some p → passes_at caller.new tenant ≡ Some q → AreSamePasses p q }
        ensures trails { OnTenant self.now tenant caller.old caller.new (λ h p q. AddsTrails N.config h «module».now result p.passes q.passes) }
        ensures full { OnTenant self.now tenant caller.old caller.new (λ h p q. IfFull result (HasCause N.config h «module».now p.passes q.passes)) }
        ensures looked { OnTenant self.now tenant caller.old caller.new (λ h p q. Looked h.retired.tags «module».now.tag p.retired q.retired (look_of result)) }
        ensures others { (t : ℕ) → t ≢ tenant → passes_at caller.new t ≡ passes_at caller.old t }
        ensures tags { (t : ℕ) → t ≢ tenant → tags_at caller.new t ≡ tags_at caller.old t }
        ensures bytes { (t : ℕ) → t ≢ tenant → answer_of caller.new t ≡ answer_of caller.old t }
    {
        let pass = &mut caller.passes[tenant as usize];
        self.invoke(pass, store, module, call, number, gate)
    }

    /// Retires a module as [`Host::retire`](pool_host::Host::retire) does, for the pass's tenant alone: others call it as before.
    pub fn retire(
        &self,
        pass: &mut TenantPass<N>,
        store: &ModuleStore<N>,
        module: &ModuleRef<N>,
    ) -> Retire
        requires { IsTenantPass self.now pass.old }
        ensures own { IsTenantPass self.now pass.new }
        ensures same { IsSameTenantPass pass.old pass.new }
        ensures bytes { pass.new.pass.answer ≡ pass.old.pass.answer }

        // all of it on the tenant's own host
        ensures bit { (host : Host N) → IsHostOf self.now pass.old.tenant host
            → SetsBit host.retired.tags «module».now.tag pass.old.pass.retired pass.new.pass.retired (is_already result) }
        ensures known { Knows «module».now.tag (steps pass.new.pass.retired) }
        ensures before { Knows «module».now.tag (steps pass.old.pass.retired) → result ≡ Retire.Already }
        ensures sweeps { (host : Host N) → IsHostOf self.now pass.old.tenant host → Sweeps host «module».now result pass.old.pass.passes pass.new.pass.passes }
    {
        let host = &self.hosts[pass.tenant];
        host.retire(&mut pass.pass, store, module)
    }

    // Retires a module with a caller's pass of this tenant.
    fn retire_at(
        &self,
        caller: &mut Caller<N>,
        tenant: usize,
        store: &ModuleStore<N>,
        module: &ModuleRef<N>,
    )
        requires caller { IsCaller self.now caller.old }
        requires tenant { tenant < tenants_of self.now }
        ensures own { IsCaller self.now caller.new }
        ensures retired { RetiredAt self.now «module».now tenant caller.old caller.new }
        ensures bytes { (t : ℕ) → answer_of caller.new t ≡ answer_of caller.old t }
    {
        let pass = &mut caller.passes[tenant];
        self.retire(pass, store, module);
    }

    /// Retires a module for a caller, with its pass of each tenant in turn.
    pub fn retire_for_all(
        &self,
        caller: &mut Caller<N>,
        store: &ModuleStore<N>,
        module: &ModuleRef<N>,
    )
        requires { IsCaller self.now caller.old }
        ensures own { IsCaller self.now caller.new }
        ensures retired { RetiredForAll self.now «module».now caller.old caller.new }
        ensures bytes { (t : ℕ) → answer_of caller.new t ≡ answer_of caller.old t }
    {
        for tenant in 0..self.hosts.len() {
            self.retire_at(caller, tenant, store, module);
        }
    }
}
