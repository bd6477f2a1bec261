//! What holds of the order. The function does nothing: its contract is the law.
ghost use Rattle.std.specs.Prelude.{ℕ, ◌≤◌, Bool, List, length};
ghost use Rattle.affinity_index.specs.Orders.{IsOrder};
ghost use Rattle.affinity_index.specs.Preference.{OwnComeFirst, OwnAreListed, OwnOrAllBefore};

/// The slots that were seen free and warm for the module come first in its order.
pub fn own_warm_slots_come_first()
    ensures first { (seen : List ℕ) (tag : ℕ) (full : Bool) (order : List ℕ) → IsOrder seen tag full order → OwnComeFirst tag seen order }
    ensures listed { (seen : List ℕ) (tag : ℕ) (full : Bool) (order : List ℕ) → IsOrder seen tag full order → OwnAreListed tag seen order }
    ensures before { (seen : List ℕ) (tag : ℕ) (full : Bool) (order : List ℕ) → IsOrder seen tag full order → OwnOrAllBefore tag seen order }
{}

/// Whatever was seen, the slots have an order, which is no longer than what was seen.
pub fn each_scan_has_its_order()
    ensures { (seen : List ℕ) (tag : ℕ) (full : Bool) → (order : List ℕ) × IsOrder seen tag full order × (length order ≤ length seen) }
{}
