//! Laws of the definitions, as contracts of functions that do nothing.

ghost use Rattle.std.specs.Prelude.{◌≡◌, ◌≢◌, ◌<◌, ◌≤◌, ◌+◌, ℕ, suc, true, false, List, length, Option, Some, None, Result, Ok};
ghost use Rattle.wasm_values.specs.declared.outcome.Val.{Val};
ghost use Rattle.wasm_types.specs.declared.types.ValType.{ValType};
ghost use Rattle.wasm_types.specs.declared.instr.Instr.{Instr};
ghost use Rattle.wasm_values.specs.declared.profile.Profile.{Profile};
ghost use Rattle.wasm_types.specs.declared.limits.LoadLimits.{LoadLimits};
ghost use Rattle.wasm_types.specs.Tree.{Code, End, Plain, Block, Loop, If, Call, CallIndirect, FunctionTree, ModuleTree};
ghost use Rattle.wasm_spec.specs.Functions.{Own, callee_at};
ghost use Rattle.wasm_spec.specs.Typing.{result_types};
ghost use Rattle.wasm_spec.specs.Execution.{Terms, State, Next, OutOfFuel, plain, and_then, leave, pop_index, inside, arm, with_function, call, element_call, exec, exec_within};
ghost use Rattle.wasm_spec.specs.Store.{Store, minimum_of, first_misfit, fresh_store};
ghost use Rattle.wasm_spec.specs.Result.{CallResult, result_from, call_result};
ghost use Rattle.wasm_spec.specs.Instances.{IsInstance};
ghost use Rattle.wasm_spec.specs.MoreFuel.{is_fuel_end, with_more};
ghost use Rattle.wasm_spec.specs.Loading.{Refusal, LoadsBy, Loads};
ghost use Rattle.wasm_spec.specs.Validity.{IsSupported};
ghost use Rattle.wasm_spec.specs.Within.{IsWithin};

pub use crate::grammar_laws::{
    bytes_spell_at_most_one_module, modules_of_profile_1_are_those_of_profile_2,
    modules_of_profile_1_copy_and_fill_nothing, modules_of_profile_1_have_few_marks,
};

/// No code leaves more fuel than it was given.
pub fn fuel_only_falls()
    ensures { (m : ModuleTree) (limits : Terms) (depth : ℕ) (code : Code) (s : State) (fuel : ℕ)
        → (exec m limits depth code s fuel).1 ≤ fuel }
{}

/// The index to which execution is bounded is of no account once it is above the fuel: every such index gives what `exec`
/// gives.
pub fn any_index_above_the_fuel_gives_the_same()
    ensures { (m : ModuleTree) (limits : Terms) (depth : ℕ) (code : Code) (s : State) (fuel n : ℕ)
        → fuel < n → exec_within m limits n code depth s fuel ≡ exec m limits depth code s fuel }
{}

/// What each form of code does, in terms of what its parts do. Together these equations fix `exec`.
/// Source: Core Specification 1.0, sections 4.4.5 to 4.4.7.
pub fn execution_obeys_its_equations()
    ensures end { (m : ModuleTree) (limits : Terms) (depth : ℕ) (s : State) (fuel : ℕ)
        → exec m limits depth End s fuel ≡ (Next s, fuel) }
    ensures without_fuel { (m : ModuleTree) (limits : Terms) (depth : ℕ) (code : Code) (s : State)
        → code ≢ End → exec m limits depth code s 0 ≡ (OutOfFuel s.store, 0) }
    ensures plain_instruction { (m : ModuleTree) (limits : Terms) (depth : ℕ) (i : Instr) (rest : Code) (s : State) (fuel : ℕ)
        → exec m limits depth (Plain i rest) s (suc fuel)
        ≡ and_then (plain m limits i s) fuel (exec m limits depth rest) }
    ensures block { (m : ModuleTree) (limits : Terms) (depth : ℕ) (t : Option ValType) (body rest : Code) (s : State) (fuel : ℕ)
        → exec m limits depth (Block t body rest) s (suc fuel)
        ≡ leave (length (result_types t)) s.operands (exec m limits depth body (inside s) fuel)
        (exec m limits depth rest) (exec m limits depth rest) }
    ensures a_loop { (m : ModuleTree) (limits : Terms) (depth : ℕ) (t : Option ValType) (body rest : Code) (s : State) (fuel : ℕ)
        → exec m limits depth (Loop t body rest) s (suc fuel)
        ≡ leave 0 s.operands (exec m limits depth body (inside s) fuel)
        (exec m limits depth rest) (exec m limits depth (Loop t body rest)) }
    ensures an_if { (m : ModuleTree) (limits : Terms) (depth : ℕ) (t : Option ValType) (first second rest : Code) (s : State) (fuel : ℕ)
        → exec m limits depth (If t first second rest) s (suc fuel)
        ≡ pop_index s.operands (arm t (exec m limits depth first) (exec m limits depth second) (exec m limits depth rest)) s fuel }
    ensures call { (m : ModuleTree) (limits : Terms) (depth x : ℕ) (rest : Code) (s : State) (fuel : ℕ)
        → exec m limits depth (Call x rest) s (suc fuel)
        ≡ with_function m x (call m limits depth (exec m limits (depth + 1)) (exec m limits depth rest)) s fuel }
    ensures call_indirect { (m : ModuleTree) (limits : Terms) (depth x : ℕ) (rest : Code) (s : State) (fuel : ℕ)
        → exec m limits depth (CallIndirect x rest) s (suc fuel)
        ≡ pop_index s.operands (element_call m limits depth (exec m limits (depth + 1)) (exec m limits depth rest) x) s fuel }
{}

/// Every store that a call comes to has the fresh store's table, as many globals, whole pages of memory within the limit, and
/// an answer that is not too long.
pub fn each_store_is_of_the_instance()
    ensures { (m : ModuleTree) (limits : Terms) (x : ℕ) (arguments : List Val) (fuel : ℕ) (r : CallResult)
        → first_misfit m ≡ None → minimum_of m.memories ≤ limits.pages → call_result m limits x arguments fuel ≡ Some r
        → IsInstance m limits.pages (fresh_store m).table r.store }
{}

/// Without fuel a call of one of the module's own functions leaves the store as it is. An import costs nothing, so that one
/// that is exported may change it.
pub fn no_fuel_changes_nothing()
    ensures { (m : ModuleTree) (limits : Terms) (x : ℕ) (f : FunctionTree) (arguments : List Val) (store : Store) (r : CallResult)
        → callee_at m x ≡ Some (Own f) → result_from m limits x arguments store 0 ≡ Some r → r.store ≡ store }
{}

/// A call that does not end for want of fuel gives the same on more fuel, and leaves what it was given more. So one that is
/// stuck is stuck on more fuel.
pub fn more_fuel_gives_the_same()
    ensures { (m : ModuleTree) (limits : Terms) (x : ℕ) (arguments : List Val) (store : Store) (fuel more : ℕ)
        → is_fuel_end (result_from m limits x arguments store fuel) ≡ false
        → result_from m limits x arguments store (fuel + more) ≡ with_more more (result_from m limits x arguments store fuel) }
{}

/// A call that ends for want of fuel ends so on less fuel too. So whether it is unfinished after so many turns is told by their
/// number alone, however they were cut into slices.
pub fn less_fuel_ends_for_want_of_it()
    ensures { (m : ModuleTree) (limits : Terms) (x : ℕ) (arguments : List Val) (store : Store) (fuel less : ℕ)
        → less ≤ fuel → is_fuel_end (result_from m limits x arguments store fuel) ≡ true
        → is_fuel_end (result_from m limits x arguments store less) ≡ true }
{}

/// Which modules a host runs in a profile.
pub trait Hosting {
    ghost runs: { Profile → ModuleTree → Type 0 };
}

/// Bytes load to at most one answer in the same profile and under the same limits, whichever modules are run: the module that
/// they spell, or one refusal.
pub fn bytes_have_at_most_one_answer<P: Hosting>()
    ensures { (profile : Profile) (bytes : List ℕ) (limits : LoadLimits) (a b : Result ModuleTree Refusal)
        → LoadsBy (P.runs profile) profile bytes limits a → LoadsBy (P.runs profile) profile bytes limits b → a ≡ b }
{}

/// The host that runs every module which uses no floats and imports what the profile runs.
pub struct Supported;

impl Hosting for Supported {
    ghost runs = { IsSupported };
}

/// Bytes load to at most one answer in the same profile and under the same limits, by a host that runs every supported module.
pub fn loading_has_at_most_one_answer()
    ensures { (profile : Profile) (bytes : List ℕ) (limits : LoadLimits) (a b : Result ModuleTree Refusal)
        → Loads profile bytes limits a → Loads profile bytes limits b → a ≡ b }
{
    bytes_have_at_most_one_answer::<Supported>();
}

/// A module that loading gives is supported and valid, its segments fit, and it asks for no more than the limits.
pub fn a_loaded_module_is_within_its_limits()
    ensures { (profile : Profile) (bytes : List ℕ) (limits : LoadLimits) (m : ModuleTree) → Loads profile bytes limits (Ok m) → IsWithin limits m }
{}
