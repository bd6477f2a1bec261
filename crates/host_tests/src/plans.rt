//! Worked plans.
use pool_limits::{Numbers, Part, PlanFault, PoolConfig, Want};
use std::alloc::Global;
use tenant_share::Plan;

const NUMBERS: Numbers = Numbers {
    workers: 2,
    instances: 4,
    memories: 4,
    tables: 4,
    warm: 2,
    batch: 4,
    pages: 32,
    elements: 1_024,
    depth: 128,
    frame: 1_024,
};

const FIRST: Want = Want {
    instances: 1,
    memories: 2,
    tables: 1,
    warm: 1,
};

const SECOND: Want = Want {
    instances: 1,
    memories: 1,
    tables: 1,
    warm: 0,
};

const NO_MEMORY: Want = Want {
    instances: 1,
    memories: 0,
    tables: 1,
    warm: 0,
};

const REST: Want = Want {
    instances: 2,
    memories: 1,
    tables: 2,
    warm: 1,
};

// What tenants want, and what is left to tenant 0, or why there is no plan.
static ROWS: [(&[Want], Result<Want, PlanFault>); 3] = [
    (&[FIRST], Ok(REST)),
    (
        &[FIRST, SECOND],
        Err(PlanFault::Over {
            kind: Part::Memory,
            sum: 3,
            total: 4,
        }),
    ),
    (
        &[NO_MEMORY],
        Err(PlanFault::BadShare {
            tenant: 1,
            kind: Part::Memory,
        }),
    ),
];

// What tenant 0 has, or why there is no plan.
fn rest(alloc: Global, wants: &[Want]) -> Result<Want, PlanFault> {
    let Ok(config) = PoolConfig::new(NUMBERS) else {
        return Err(PlanFault::NoMemory);
    };
    let plan = Plan::new(alloc, &config, wants)?;
    Ok(plan.share(0))
}

#[test]
fn tenant_0_has_the_rest_or_there_is_no_plan(rt: HostRuntime) {
    for (wants, want) in &ROWS {
        assert!(rt; rest(rt.alloc(), wants) == *want, "{wants:?}");
    }
}
