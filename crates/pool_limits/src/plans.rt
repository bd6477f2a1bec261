//! Whether tenants may have what they want.
ghost use Rattle.std.specs.Prelude.{◌≡◌, ◌≤◌, ◌*◌, ◌^◌, true, false, None, Some, IfErr, OnOk, length};
ghost use Rattle.pool_limits.specs.Plans.{first_bad, first_over, is_over, kept, over_fault, plan_fault, total, wanted};

use crate::config::PoolConfig;
use crate::numbers::Numbers;
use crate::wants::{MOST_TENANTS, Part, PlanFault, Want};

impl PoolConfig {
    /// Whether tenants 1, 2, .. may have what they want, where one slot of each kind is the lane's and at least one is tenant 0's. Takes no memory.
    ///
    /// # Errors
    ///
    /// `TooManyTenants` where there are more than [`MOST_TENANTS`]; else `BadShare` for the first share without a slot of a kind; else `Over`
    /// for the first of instances, memories and tables of which less than two are left, or for more warm slots than there may be.
    pub fn check_wants(&self, wants: &[Want]) -> Result<(), PlanFault>
        ensures ok { OnOk result (plan_fault self.now wants.now ≡ None) }
        ensures fault { IfErr result (λ e. plan_fault self.now wants.now ≡ Some e) }
    {
        if MOST_TENANTS < wants.len() {
            return Err(PlanFault::TooManyTenants { count: wants.len() });
        }
        each_has_slots(wants)?;
        let numbers = self.numbers();
        sums_within(&numbers, wants)
    }
}

// Each share has a slot of each kind, or the first that has not is named.
fn each_has_slots(wants: &[Want]) -> Result<(), PlanFault>
    ensures ok { OnOk result (first_bad 1 wants.now ≡ None) }
    ensures bad { IfErr result (λ e. first_bad 1 wants.now ≡ Some e) }
{
    for (place, want) in wants.iter().enumerate() {
        if let Some(kind) = want.empty_part() {
            return Err(PlanFault::BadShare {
                tenant: place + 1,
                kind,
            });
        }
    }
    Ok(())
}

// They want no part too much of together, or the first that they do is named.
fn sums_within(numbers: &Numbers, wants: &[Want]) -> Result<(), PlanFault>
    requires { length wants.now ≤ MOST_TENANTS }
    ensures ok { OnOk result (first_over numbers.now wants.now ≡ None) }
    ensures over { IfErr result (λ e. first_over numbers.now wants.now ≡ Some e) }
{
    sum_within(numbers, wants, Part::Instance)?;
    sum_within(numbers, wants, Part::Memory)?;
    sum_within(numbers, wants, Part::Table)?;
    sum_within(numbers, wants, Part::Warm)
}

// They don't want too much of a part together.
fn sum_within(numbers: &Numbers, wants: &[Want], part: Part) -> Result<(), PlanFault>
    requires { length wants.now ≤ MOST_TENANTS }
    ensures ok { OnOk result (is_over numbers.now wants.now part ≡ false) }
    ensures over { IfErr result (λ e. (is_over numbers.now wants.now part ≡ true) × (e ≡ over_fault numbers.now wants.now part)) }
{
    let sum = wanted(wants, part);
    let total = numbers.total(part);
    if u64::from(total) < sum + kept(part) {
        return Err(PlanFault::Over {
            kind: part,
            sum,
            total,
        });
    }
    Ok(())
}

/// What tenants want of a part together. Takes no memory.
pub fn wanted(wants: &[Want], part: Part) -> u64
    requires { length wants.now ≤ MOST_TENANTS }
    ensures sum { result ≡ wanted part wants.now }
    ensures most { result ≤ MOST_TENANTS * 2 ^ 32 }
{
    let mut sum: u64 = 0;
    for want in wants {
        sum += u64::from(want.amount(part));
    }
    sum
}

// One slot of each kind is the lane's, and at least one is tenant 0's.
fn kept(part: Part) -> u64
    ensures { result ≡ kept part }
{
    match part {
        Part::Instance | Part::Memory | Part::Table => 2,
        Part::Warm => 0,
    }
}

impl Numbers {
    /// How much there is of a part. Takes no memory.
    pub fn total(&self, part: Part) -> u32
        ensures { result ≡ total part self.now }
    {
        match part {
            Part::Instance => self.instances,
            Part::Memory => self.memories,
            Part::Table => self.tables,
            Part::Warm => self.warm,
        }
    }
}
