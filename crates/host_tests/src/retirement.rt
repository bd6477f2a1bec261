//! A module that is retired on a host.
ghost use Rattle.module_store.specs.Names.{Bears};
ghost use Rattle.pool_host.specs.Hosts.{IsHostPass};

use crate::callers::{BUMP, ONE, close_one, one_caller, one_module};
use host_edge::OpenGate;
use module_store::{ModuleRef, ModuleStore, Naming, Opened};
use pool_host::{Answer, Host, HostPass, Retire};
use pool_limits::{Numbers, PoolConfig};
use slot_words::KindCounts;
use std::alloc::Global;
use std::marker::Brand;
use std::process::Abort;
use std::sync::Wait;

// Two memories may be warm, and they are cleaned 64 at once.
const NUMBERS: Numbers = Numbers {
    workers: 1,
    instances: 1,
    memories: 2,
    tables: 1,
    warm: 2,
    batch: 64,
    pages: 4,
    elements: 8,
    depth: 16,
    frame: 16,
};

// What a call of the module and its retirement are answered, and both once more.
fn around_retirement<N: Naming>(
    host: &Host<N>,
    pass: &mut HostPass<N>,
    store: &ModuleStore<N>,
    module: &ModuleRef<N>,
) -> ([Answer; 2], [Retire; 2])
    requires { IsHostPass host.now pass.old }
    ensures { IsHostPass host.now pass.new }
{
    let gate = OpenGate;
    let before = host.call(pass, store, module, b"bump", &[], 100, 1, &gate);
    let first = host.retire(pass, store, module);
    let behind = host.call(pass, store, module, b"bump", &[], 100, 2, &gate);
    let again = host.retire(pass, store, module);
    ([before, behind], [first, again])
}

fn check<N: Naming, R: Abort + Wait>(rt: &R, alloc: Global, opened: Opened)
    requires { Bears opened N.shelves N.config N.most }
{
    let (store, module) = one_module::<N, R>(rt, alloc, opened, BUMP.as_slice());
    let (host, mut pass) = one_caller(rt, alloc, &store, 2);
    let (calls, retired) = around_retirement(&host, &mut pass, &store, &module);
    let memories = close_one(rt, alloc, host, pass).memory;
    let all_cold = KindCounts {
        cold: 2,
        warm: 0,
        awaiting: 0,
        held: 0,
    };
    assert!(rt; calls == [Answer::Done(ONE), Answer::Retired]);
    assert!(rt; retired == [Retire::First { cleaned: 1 }, Retire::Already]);
    assert_eq!(rt; memories, all_cold);
}

#[test]
fn a_retired_module_is_called_no_more_and_its_memory_is_cold(rt: HostRuntime) {
    let config = PoolConfig::new(NUMBERS).expect(&rt, "in range");
    let opened = Opened::open(rt.alloc(), config).expect(&rt, "memory");
    check::<Brand, HostRuntime>(&rt, rt.alloc(), opened);
}
