//! Calls of tenants, each on slots of its own.
ghost use Rattle.std.specs.Prelude.{◌≡◌, length};
ghost use Rattle.module_store.specs.Names.{Bears};
ghost use Rattle.tenant_share.specs.Tenants.{IsTenantPass};

use crate::callers::{BUMP, ONE, one_module};
use crate::concurrent_calls::{HoldingGate, wait_for};
use module_store::{ModuleRef, ModuleStore, Naming, Opened};
use pool_host::{Answer, Kind};
use pool_limits::{Numbers, PoolConfig, Want};
use std::alloc::Global;
use std::marker::Brand;
use std::process::Abort;
use std::sync::Wait;
use std::thread;
use std::thread::Threads;
use tenant_share::{Plan, ShareHost, TenantPass};

// One memory and one table are left to tenant 0.
const NUMBERS: Numbers = Numbers {
    workers: 2,
    instances: 4,
    memories: 3,
    tables: 3,
    warm: 2,
    batch: 4,
    pages: 2,
    elements: 8,
    depth: 16,
    frame: 16,
};

// What tenant 1 has.
const WANT: Want = Want {
    instances: 2,
    memories: 1,
    tables: 1,
    warm: 1,
};

// Opens the tenants' hosts with two passes for each tenant, and gives both of tenant 1, and one of tenant 0.
fn three_passes<N: Naming, R: Abort>(
    rt: &R,
    alloc: Global,
    store: &ModuleStore<N>,
    plan: &Plan,
) -> (ShareHost<N>, TenantPass<N>, TenantPass<N>, TenantPass<N>)
    requires plan { plan.now.0 ≡ N.config }
    requires tenants { length plan.now.1 ≡ 2 }
    ensures own { IsTenantPass result.0 result.1 × IsTenantPass result.0 result.2 }
    ensures other { IsTenantPass result.0 result.3 }
{
    let (share, mut passes) = ShareHost::open(alloc, store, plan, 2).expect(rt, "opened");
    let one = passes.pop().unwrap();
    let two = passes.pop().unwrap();
    let other = passes.pop().unwrap();
    (share, one, two, other)
}

// What a call of the module is answered.
fn bump<N: Naming>(
    share: &ShareHost<N>,
    pass: &mut TenantPass<N>,
    store: &ModuleStore<N>,
    module: &ModuleRef<N>,
    number: u64,
    gate: &HoldingGate,
) -> Answer
    requires { IsTenantPass share.now pass.old }
    ensures { IsTenantPass share.now pass.new }
{
    share.call(pass, store, module, b"bump", &[], 100, number, gate)
}

// What a call of tenant 1 is answered that is held until another of this tenant was answered; and meanwhile that one, and one of
// tenant 0.
fn held<N: Naming + Send + Sync, R: Abort + Threads + Wait + Sync>(
    rt: &R,
    alloc: Global,
    opened: Opened,
    plan: &Plan,
) -> (Answer, (Answer, Answer))
    requires bears { Bears opened N.shelves N.config N.most }
    requires plan { plan.now.0 ≡ N.config }
    requires tenants { length plan.now.1 ≡ 2 }
{
    let (store, module) = one_module::<N, R>(rt, alloc, opened, BUMP.as_slice());
    let (share, one, two, other) = three_passes(rt, alloc, &store, plan);
    let gate = HoldingGate::new();
    thread::join(
        rt,
        || -> Answer
            requires { IsTenantPass share one }
        {
            let mut one = one;
            bump(&share, &mut one, &store, &module, 1, &gate)
        },
        || -> (Answer, Answer)
            requires { IsTenantPass share two × IsTenantPass share other }
        {
            wait_for(&gate.entered);
            let mut other = other;
            let free = bump(&share, &mut other, &store, &module, 3, &gate);
            let mut two = two;
            let full = bump(&share, &mut two, &store, &module, 2, &gate);
            (full, free)
        },
    )
}

#[test]
fn a_tenant_is_full_by_its_own_calls_alone(rt: HostRuntime) {
    let alloc = rt.alloc();
    let config = PoolConfig::new(NUMBERS).expect(&rt, "in range");
    let plan = Plan::new(alloc, &config, &[WANT]).expect(&rt, "a plan");
    let opened = Opened::open(alloc, config).expect(&rt, "memory");
    let answers = held::<Brand, HostRuntime>(&rt, alloc, opened, &plan);
    let done = Answer::Done(ONE);
    assert!(rt; answers == (done, (Answer::Full(Kind::Memory), done)));
}
