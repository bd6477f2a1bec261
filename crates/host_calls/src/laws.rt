//! Laws of the definitions, as contracts of functions that do nothing.
ghost use Rattle.std.specs.Prelude.{◌≡◌, ℕ, List, [], Some};
ghost use Rattle.wasm_values.specs.declared.outcome.Outcome.{Outcome};
ghost use Rattle.wasm_values.specs.declared.outcome.Val.{Val};
ghost use Rattle.wasm_types.specs.Tree.{ModuleTree};
ghost use Rattle.wasm_types.specs.declared.limits.RunLimits.{RunLimits};
ghost use Rattle.wasm_spec.specs.Validity.{IsValid};
ghost use Rattle.pool_model.specs.Contents.{Matches, Named};
ghost use Rattle.pool_model.specs.declared.kinds.Kind.TheVariants.{Instance, Memory, Table};
ghost use Rattle.pool_core.specs.declared.words.State.{State};
ghost use Rattle.pool_limits.specs.declared.numbers.Numbers.{Numbers};
ghost use Rattle.slot_pools.specs.Causes.{LostToAnother};
ghost use Rattle.instance_slots.specs.Tickets.{TicketView};
ghost use Rattle.paused_call.specs.Fuel.{left_in};
ghost use Rattle.instance_calls.specs.CallWords.{EndsAs, EndsLeaving, EndsWith, MayCall, run_limits};
ghost use Rattle.instance_calls.specs.PausedInstances.{comes_to};
ghost use Rattle.instance_calls.specs.PausedViews.{PausedView};
ghost use Rattle.instance_calls.specs.Resumed.{IsCallOf};
ghost use Rattle.pool_host.specs.CallWords.{is_retired, IsAnswer};
ghost use Rattle.pool_host.specs.Counting.{CallsAreCounted};
ghost use Rattle.pool_host.specs.Preferring.{CallsPreferOwn, FullHasCause};
ghost use Rattle.pool_host.specs.Retirements.{NeverBegunAgain, NeverCalledAgain};
ghost use Rattle.pool_host.specs.declared.lane.LaneAnswer.{LaneAnswer};
ghost use Rattle.retired_tags.specs.Rule.{SetByOne, SetForGood};

use instance_slots::Ticket;
use memory_slots::MemSlot;
use module_store::Naming;
pub use pool_model::laws::{shadow, two_worlds};
use retired_tags::laws as tags;
use slot_pools::laws as pools;
use table_slots::TableSlot;

/// A call of a valid module has one answer where the module is retired and one where it is not, and one sequence of bytes with each:
/// nothing else but the module, the limits, the export, the arguments, the request and the fuel decides them.
pub fn a_call_has_one_answer()
    ensures { (m : ModuleTree) (limits : RunLimits) (export : List ℕ) (args : List Val) (request : List ℕ) (fuel : ℕ) (a b : LaneAnswer) (x y : List ℕ)
        → IsValid m → IsAnswer m limits export args request fuel a x → IsAnswer m limits export args request fuel b y
        → is_retired a ≡ is_retired b → (a ≡ b) × (x ≡ y) }
{}

/// And what is left of its fuel where it was made.
pub fn a_call_leaves_one_fuel()
    ensures { (m : ModuleTree) (limits : RunLimits) (export : List ℕ) (args : List Val) (request : List ℕ) (fuel a b : ℕ)
        → IsValid m → EndsLeaving m limits export args request fuel a → EndsLeaving m limits export args request fuel b → a ≡ b }
{}

/// A call that was paused, and is over after whatever slices, ended as a call of the export on a fresh instance ends, and answered the
/// same bytes.
pub fn slices_end_as_the_call()
    ensures { (config : Numbers) (m : Named) (export : List ℕ) (function : ℕ) (args : List Val) (fuel : ℕ) (v : PausedView) (outcome : Outcome) (bytes : List ℕ)
        → MayCall m.tree export function args → IsCallOf m function args fuel v → EndsAs (comes_to config v) v.call.fuel outcome bytes
        → EndsWith m.tree (run_limits config) export args [] fuel outcome bytes }
{}

/// And it leaves of its fuel what that call leaves.
pub fn slices_leave_the_fuel_of_the_call()
    ensures { (config : Numbers) (m : Named) (export : List ℕ) (function : ℕ) (args : List Val) (fuel : ℕ) (v : PausedView) (left : ℕ)
        → MayCall m.tree export function args → IsCallOf m function args fuel v → left_in (comes_to config v v.call.fuel) ≡ Some left
        → EndsLeaving m.tree (run_limits config) export args [] fuel left }
{}

/// A call that is served with a memory wins one that its scan saw free and warm for its module, unless it lost the claim of each such
/// memory; and likewise with a table. The last claim of its take is of the slot that it won.
pub fn calls_prefer_their_own<N: Naming>()
    ensures { CallsPreferOwn N }
{
    pools::takes_prefer_their_own();
    pools::the_last_claim_names_the_slot();
}

/// A call that is answered that a kind is full claimed each slot of that kind and found it held: the memories after its flush mark,
/// the tables after its look, the tickets after its scan.
pub fn full_has_its_cause<N: Naming>()
    ensures { FullHasCause N }
{
    pools::full_has_its_cause();
}

/// Where a call lost the claim of a slot, another pass held that slot.
pub fn lost_claims_are_lost_to_another<N: Naming>()
    ensures tickets { LostToAnother (λ (s : State) (tag : ℕ) (x : TicketView). Matches N.config.pages Instance s tag x.globals) }
    ensures memories { LostToAnother (λ s tag x. Matches N.config.pages Memory s tag x) }
    ensures tables { LostToAnother (λ s tag x. Matches N.config.pages Table s tag x) }
{
    pools::lost_claims_are_lost_to_another::<Ticket<N>>();
    pools::lost_claims_are_lost_to_another::<MemSlot<N>>();
    pools::lost_claims_are_lost_to_another::<TableSlot<N>>();
}

/// Of the calls that a pass makes one after another on a host, at once or in slices, none is made of a module that one before it
/// retired: it is answered that the module is retired, or as a call that could not be made anyway.
pub fn a_retired_module_is_never_called_again<N: Naming>()
    ensures calls { NeverCalledAgain }
    ensures begun { NeverBegunAgain N.Naming }
{}

/// Of the retirements of one module that any two passes of a host made at most one was told that it was the first, and what a pass
/// knows to be retired is retired for good: what the rule says of a host's retired tags at each moment.
pub fn a_module_is_retired_once_and_for_good()
    ensures once { SetByOne }
    ensures stays { SetForGood }
{
    tags::one_step_sets_a_bit_first();
    tags::a_set_bit_stays_set();
}

/// What a pass tells of its takes of memories is told call by call: each call whose module needs a memory looks once, and gives one back
/// unless it found each memory held.
pub fn each_call_is_counted<N: Naming>()
    ensures { CallsAreCounted N }
{}
