//! The plan of all shares.
ghost use Rattle.std.specs.Prelude.{◌≡◌, ◌+◌, ◌≤◌, ◌<◌, ◌∷◌, None, Some, IfErr, IfOk, IsErrOf, OnOk, length, slice_get, take};
ghost use Rattle.pool_limits.specs.Plans.{plan_fault, MayWant};
ghost use Rattle.tenant_share.specs.Shares.{left_of, of_lane, rest, shares, IsPlan};

use pool_limits::{MOST_TENANTS, Numbers, Part, PlanFault, PoolConfig, Want, wanted};
use std::alloc::Global;
use std::marker::Model;

// The most shares of a plan: those of the tenants that want one, and tenant 0's.
const MOST_SHARES: usize = MOST_TENANTS + 1;

/// What each tenant has: tenant 0 the rest, and tenants 1, 2, .. what they wanted. Contracts see the configuration's numbers, and the shares from tenant 0's on.
#[derive(Drop)]
pub struct Plan {
    numbers: Numbers,
    shares: [Want; MOST_SHARES],
    count: usize,
}

impl Model for Plan {
    ghost use Rattle.std.specs.Prelude.{List, ◌≤◌, take};
    ghost use Rattle.pool_limits.specs.declared.numbers.Numbers.{Numbers};
    ghost use Rattle.pool_limits.specs.declared.wants.Want.{Want};
    ghost use Rattle.tenant_share.specs.declared.plan.TheConstants.{MOST_SHARES};
    ghost use Rattle.tenant_share.specs.Shares.{IsPlan};

    ghost Value = { Numbers × List Want };

    ghost view = { λ p. (p.numbers, take p.count p.shares) };

    ghost invariant = { λ p. (p.count ≤ MOST_SHARES) × IsPlan p.numbers (take p.count p.shares) };
}

// How much of a part is the lane's.
fn of_lane(part: Part) -> u64
    ensures { result ≡ of_lane part }
{
    match part {
        Part::Instance | Part::Memory | Part::Table => 1,
        Part::Warm => 0,
    }
}

// What the lane and the tenants leave of a part.
fn left_of(numbers: &Numbers, wants: &[Want], part: Part) -> u32
    requires { MayWant numbers.now wants.now }
    ensures { result ≡ left_of numbers.now wants.now part }
{
    let total = u64::from(numbers.total(part));
    (total - of_lane(part) - wanted(wants, part)) as u32
}

// What is left to tenant 0.
fn rest(numbers: &Numbers, wants: &[Want]) -> Want
    requires { MayWant numbers.now wants.now }
    ensures { result ≡ rest numbers.now wants.now }
{
    Want {
        instances: left_of(numbers, wants, Part::Instance),
        memories: left_of(numbers, wants, Part::Memory),
        tables: left_of(numbers, wants, Part::Table),
        warm: left_of(numbers, wants, Part::Warm),
    }
}

// The first share, and those of the others behind it.
fn table(first: Want, wants: &[Want]) -> [Want; MOST_SHARES]
    requires { length wants.now ≤ MOST_TENANTS }
    ensures { take (length wants.now + 1) result ≡ first ∷ wants.now }
{
    let mut shares = [first; MOST_SHARES];
    shares[1..=wants.len()].copy_from_slice(wants);
    shares
}

impl Plan {
    /// The plan for tenants 1, 2, .. that want this. One slot of each kind is the lane's, and tenant 0 has the rest. The allocator is not asked.
    ///
    /// # Errors
    ///
    /// `TooManyTenants`, `BadShare` or `Over`, exactly where and as `PoolConfig::check_wants` answers it. `NoMemory` never.
    #[tactic(auto, using(pool_limits::proofs::WantLemmas::not_memory))]
    pub fn new(alloc: Global, config: &PoolConfig, wants: &[Want]) -> Result<Plan, PlanFault>
        ensures made { IfOk result (λ p. p ≡ (config.now, shares config.now wants.now)) }
        ensures may { OnOk result (plan_fault config.now wants.now ≡ None) }
        ensures fault { IfErr result (λ e. plan_fault config.now wants.now ≡ Some e) }
        ensures never { IsErrOf result PlanFault.NoMemory → ⊥ }
    {
        let _ = alloc;
        config.check_wants(wants)?;
        let numbers = config.numbers();
        let rest = rest(&numbers, wants);
        Ok(Plan {
            numbers,
            shares: table(rest, wants),
            count: wants.len() + 1,
        })
    }

    // What tenants 0, 1, .. have.
    fn all(&self) -> &[Want]
        ensures all { result.now ≡ self.now.1 }
        ensures plan { IsPlan self.now.0 self.now.1 }
    {
        &self.shares[..self.count]
    }

    /// How many tenants there are, tenant 0 among them: from 1 to 16. Takes no memory.
    pub fn tenants(&self) -> usize
        ensures count { result ≡ length self.now.1 }
        ensures some { 1 ≤ result }
        ensures few { result ≤ MOST_TENANTS + 1 }
    {
        self.all().len()
    }

    /// What a tenant has. Takes no memory.
    pub fn share(&self, tenant: usize) -> Want
        requires { tenant < length self.now.1 }
        ensures share { slice_get self.now.1 tenant ≡ Some result }
        ensures plan { IsPlan self.now.0 self.now.1 }
    {
        self.all()[tenant]
    }
}
