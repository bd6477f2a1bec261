//! What holds of every plan. Each function does nothing: its contract is the law.
ghost use Rattle.std.specs.Prelude.{◌≡◌, ◌≤◌, List, [], ◌∷◌, None};
ghost use Rattle.pool_limits.specs.declared.numbers.Numbers.{Numbers};
ghost use Rattle.pool_limits.specs.declared.wants.Want.{Want};
ghost use Rattle.pool_limits.specs.Plans.{plan_fault};
ghost use Rattle.pool_limits.specs.Shares.{AreAllSlots, lane_share, shared_share};
ghost use Rattle.pool_model.specs.Tenants.{OwnEventsDecide};
ghost use Rattle.tenant_share.specs.Shares.{all_of, rest, shares, IsPlan};
ghost use Rattle.tenant_share.specs.Worlds.{PlansBoundWarmSlots};

use pool_model::laws as worlds;

/// Where tenants may have what they want, each has a slot of each kind, and the warm shares add up to the limit. The slots of the shares and the lane's one slot of each kind are all slots: with several workers those of the lane's share.
pub fn shares_add_up()
    ensures plan { (n : Numbers) (ws : List Want) → plan_fault n ws ≡ None → IsPlan n (shares n ws) }
    ensures lane { (n : Numbers) (ws : List Want) → 2 ≤ n.workers → plan_fault n ws ≡ None → AreAllSlots n (lane_share n) (all_of (shares n ws)) }
{}

/// Where nobody wants a share and there are several workers, tenant 0 has all that the lane has not, and every warm slot.
pub fn no_wants_leave_all()
    ensures slots { (n : Numbers) → 2 ≤ n.workers → all_of (rest n [] ∷ []) ≡ shared_share n }
    ensures warm { (n : Numbers) → (rest n []).warm ≡ n.warm }
{}

/// Where the events of one tenant's passes are the same list in two worlds of tenants, modules' numbers included, its pools have the same words, counts and seats after them, its callers the same running calls on the same instances, what its claims read is the same, and so is what its callers are answered. Other tenants may have and do anything.
pub fn own_full()
    ensures { OwnEventsDecide }
{
    worlds::own_events_decide();
}

/// Whatever events came since the pools of a plan's tenants opened with its warm shares, no more slots of a kind are warm while nobody holds them, of all tenants together, than are configured.
pub fn warm_slots_stay_within_the_plan()
    ensures { PlansBoundWarmSlots }
{
    worlds::warm_slots_stay_within();
}
