//! A pass of one tenant, and a caller's passes of all.
ghost use Rattle.std.specs.Prelude.{◌≡◌, ◌<◌, [], ◌∷◌, ◌++◌, IfOk, OnOk, length, map, reverse};
ghost use Rattle.std.specs.List.{All};
ghost use Rattle.tenant_share.specs.Opening.{of_tenant, IsEmptyCaller};
ghost use Rattle.tenant_share.specs.Tenants.{answer_of, reach_of};

use module_store::Naming;
use pool_host::HostPass;
use std::alloc::Global;
use wasm_values::NoMemory;

/// The leave to make calls on one tenant's host, one at a time.
pub struct TenantPass<N: Naming> {
    pub(crate) pass: HostPass<N>,
    pub(crate) tenant: usize,
}

impl<N: Naming> Drop for TenantPass<N> {
    fn drop(self) {
        let TenantPass { pass: _, tenant: _ } = self;
    }
}

impl<N: Naming> TenantPass<N> {
    /// The bytes that its last call answered: none unless it was done. Takes no memory.
    pub fn answer(&self) -> &[u8]
        ensures { result.now ≡ self.now.pass.answer }
    {
        self.pass.answer()
    }
}

/// A caller's passes: one of each tenant, by the tenants' numbers.
pub struct Caller<N: Naming> {
    pub(crate) passes: Vec<TenantPass<N>>,
}

impl<N: Naming> Drop for Caller<N> {
    fn drop(self) {
        let Caller { passes: _ } = self;
    }
}

impl<N: Naming> Caller<N> {
    // Adds a pass of the next tenant.
    pub(crate) fn add(&mut self, pass: HostPass<N>) -> Result<(), NoMemory>
        ensures { OnOk result (self.new.passes.items ≡ self.old.passes.items ++ of_tenant (length self.old.passes.items) pass ∷ []) }
    {
        let tenant = self.passes.len();
        self.passes.reserve(1).map_err(|_| NoMemory)?;
        self.passes.push_reserved(TenantPass { pass, tenant });
        Ok(())
    }

    /// The bytes that its last call for this tenant answered: none unless it was done. Takes no memory.
    pub fn answer(&self, tenant: u32) -> &[u8]
        requires { tenant < reach_of self.now }
        ensures { result.now ≡ answer_of self.now tenant }
    {
        self.passes[tenant as usize].answer()
    }
}

// Puts the passes of a tenant's host behind others.
pub(crate) fn put_all<N: Naming>(
    tenant: usize,
    mut own: Vec<HostPass<N>>,
    all: &mut Vec<TenantPass<N>>,
) -> Result<(), NoMemory>
    ensures { OnOk result (all.new.items ≡ all.old.items ++ map (of_tenant tenant) (reverse own.items)) }
{
    while let Some(pass) = own.pop() {
        all.reserve(1).map_err(|_| NoMemory)?;
        all.push_reserved(TenantPass { pass, tenant });
    }
    Ok(())
}

// So many callers, who have no pass yet.
pub(crate) fn empty_callers<N: Naming>(
    alloc: Global,
    count: u32,
) -> Result<Vec<Caller<N>>, NoMemory>
    ensures count { IfOk result (λ all. length all.items ≡ count) }
    ensures empty { IfOk result (λ all. All IsEmptyCaller all.items) }
{
    let mut all = Vec::with_capacity(alloc, count as usize).map_err(|_| NoMemory)?;
    for _ in 0..count {
        let passes = Vec::new(alloc);
        all.push_reserved(Caller { passes });
    }
    Ok(all)
}
