//! What holds of every configuration. Each function does nothing: its contract is the law.
ghost use Rattle.std.specs.Prelude.{◌≡◌, ◌↔◌, List, None};
ghost use Rattle.pool_limits.specs.declared.numbers.Numbers.{Numbers};
ghost use Rattle.pool_limits.specs.declared.wants.Want.{Want};
ghost use Rattle.pool_limits.specs.Plans.{plan_fault, MayWant};
ghost use Rattle.pool_limits.specs.Ranges.{AreInRange, bad_number};
ghost use Rattle.pool_limits.specs.Shares.{AreAllSlots, lane_share, shared_share};

/// A number is out of its range exactly where not all are in range.
pub fn numbers_are_in_range_or_one_is_bad()
    ensures { (n : Numbers) → (bad_number n ≡ None) ↔ AreInRange n }
{}

/// The lane and the workers have all slots of each kind between them.
pub fn lane_and_workers_have_all_slots()
    ensures { (n : Numbers) → AreInRange n → AreAllSlots n (lane_share n) (shared_share n) }
{}

/// Tenants can't have what they want exactly where they are more than 15, one of them wants no slot of a kind, they leave less than two slots of a kind together, or they want more warm slots than there may be.
pub fn wants_are_met_or_one_is_at_fault()
    ensures { (n : Numbers) (ws : List Want) → (plan_fault n ws ≡ None) ↔ MayWant n ws }
{}
