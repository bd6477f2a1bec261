//! A call on the parts of an instance.
ghost use Rattle.std.specs.Prelude.{◌≡◌, ℕ, ◌+◌, List, [], Option};
ghost use Rattle.wasm_types.specs.Tree.{module_tree};
ghost use Rattle.wasm_spec.specs.Instances.{room_for};
ghost use Rattle.wasm_spec.specs.Execution.{terms_of};
ghost use Rattle.wasm_spec.specs.Result.{CallResult};
ghost use Rattle.wasm_spec.specs.Store.{Store};
ghost use Rattle.wasm_machine.specs.Calls.{FitsFrame, IsCall};
ghost use Rattle.wasm_machine.specs.Lent.{run_terms};
ghost use Rattle.wasm_machine.specs.TypedConfiguration.{IsTypedStore};
ghost use Rattle.pool_model.specs.Contents.{MemoryContents, Named};
ghost use Rattle.pool_model.specs.Runs.{LeavesFrom};
ghost use Rattle.paused_call.specs.Fuel.{LeavesFuel, fuel_left};
ghost use Rattle.paused_call.specs.Standing.{HasTurned, Stands, upto, whole};
ghost use Rattle.memory_slots.specs.Lent.{IsReady, parts, store_in};
ghost use Rattle.instance_calls.specs.CallWords.{run_limits};
ghost use Rattle.instance_calls.specs.Instances.{bare_store};
ghost use Rattle.instance_calls.specs.Parts.{table_in};
ghost use Rattle.instance_calls.specs.Paused.{StandsWithMemory, StandsWithoutMemory};

use call_payload::{AnswerBuf, Call};
use instance_slots::Ticket;
use memory_slots::MemSlot;
use module_store::{ModuleStore, Naming};
use paused_call::{PausedCall, SliceEnd};
use slot_words::Lease;
use table_slots::TableSlot;
use wasm_machine::RunInputs;
use wasm_types::RunLimits;
use wasm_validate::Valid;

// The limits of the configuration's runs.
pub(crate) fn limits_of<N: Naming>(store: &ModuleStore<N>) -> RunLimits
    ensures { result ≡ run_limits N.config }
{
    let numbers = store.config().numbers();
    RunLimits {
        pages: numbers.pages,
        depth: numbers.depth,
    }
}

// The entries of the table, or none where there is no table.
pub(crate) fn entries_of<N: Naming>(table: &Option<Lease<TableSlot<N>>>) -> &[Option<u32>]
    ensures { result.now ≡ (table_in table.now).entries }
{
    match table {
        Some(table) => table.value.entries(),
        None => &[],
    }
}

// Makes turns of a paused call of a module that has a memory.
pub(crate) fn resume_with_memory<N: Naming>(
    ticket: &mut Ticket<N>,
    memory: &mut MemSlot<N>,
    inputs: &RunInputs<'_>,
    call: &mut PausedCall,
    slice: u64,
    answer: &mut AnswerBuf,
) -> SliceEnd
    requires limits { inputs.now.limits ≡ run_limits N.config }
    requires stands { (begun : Store)
        × StandsWithMemory inputs.now.valid.now (run_terms inputs.now) begun call.old ticket.old memory.old inputs.now.table.now answer.old }
    requires ready { IsReady (room_for inputs.now.valid.now.memories N.config.pages) memory.old }
    requires frame { FitsFrame inputs.now.valid.now N.config.frame }
    ensures turned { (begun : Store)
        → StandsWithMemory inputs.now.valid.now (run_terms inputs.now) begun call.old ticket.old memory.old inputs.now.table.now answer.old
        → HasTurned (whole inputs.now.valid.now (run_terms inputs.now) call.old ticket.old.args begun) call.old slice
        (store_in inputs.now.valid.now memory.new inputs.now.table.now ticket.new.globals answer.new) result }
    ensures stands { result ≡ SliceEnd.Again → (begun : Store)
        → StandsWithMemory inputs.now.valid.now (run_terms inputs.now) begun call.old ticket.old memory.old inputs.now.table.now answer.old
        → StandsWithMemory inputs.now.valid.now (run_terms inputs.now) begun call.new ticket.new memory.new inputs.now.table.now answer.new }
    ensures leaves { (begun : Store)
        → StandsWithMemory inputs.now.valid.now (run_terms inputs.now) begun call.old ticket.old memory.old inputs.now.table.now answer.old
        → (owner : Option Named) → (r : CallResult)
        × LeavesFrom N.config.pages (module_tree inputs.now.valid.now) (whole inputs.now.valid.now (run_terms inputs.now) call.old ticket.old.args begun)
        call.old.turns (upto call.old slice)
        (parts memory.old owner inputs.now.table.now ticket.old.globals) (parts memory.new owner inputs.now.table.now ticket.new.globals) memory.new.marks r }
    ensures left { (begun : Store)
        → StandsWithMemory inputs.now.valid.now (run_terms inputs.now) begun call.old ticket.old memory.old inputs.now.table.now answer.old
        → LeavesFuel (whole inputs.now.valid.now (run_terms inputs.now) call.old ticket.old.args begun) call.old.fuel result (fuel_left call.new) }
    ensures holds { memory.new.holds ≡ memory.old.holds }
    ensures ready { IsReady (room_for inputs.now.valid.now.memories N.config.pages) memory.new }
    ensures args { ticket.new.args ≡ ticket.old.args }
    ensures same { (call.new.function ≡ call.old.function) × (call.new.fuel ≡ call.old.fuel) }
    ensures turns { result ≡ SliceEnd.Again → call.new.turns ≡ call.old.turns + slice }
{
    memory.resume(
        call,
        &ticket.args,
        inputs,
        slice,
        &mut ticket.globals,
        &mut ticket.stacks,
        answer,
    )
}

// Makes turns of a paused call of a module that has no memory.
pub(crate) fn resume_without_memory<N: Naming>(
    ticket: &mut Ticket<N>,
    inputs: &RunInputs<'_>,
    call: &mut PausedCall,
    slice: u64,
    answer: &mut AnswerBuf,
) -> SliceEnd
    requires limits { inputs.now.limits ≡ run_limits N.config }
    requires none { inputs.now.valid.now.memories ≡ [] }
    requires stands { (begun : Store)
        × StandsWithoutMemory inputs.now.valid.now (run_terms inputs.now) begun call.old ticket.old inputs.now.table.now answer.old }
    requires frame { FitsFrame inputs.now.valid.now N.config.frame }
    ensures turned { (begun : Store)
        → StandsWithoutMemory inputs.now.valid.now (run_terms inputs.now) begun call.old ticket.old inputs.now.table.now answer.old
        → HasTurned (whole inputs.now.valid.now (run_terms inputs.now) call.old ticket.old.args begun) call.old slice
        (bare_store inputs.now.valid.now inputs.now.table.now ticket.new.globals answer.new) result }
    ensures stands { result ≡ SliceEnd.Again → (begun : Store)
        → StandsWithoutMemory inputs.now.valid.now (run_terms inputs.now) begun call.old ticket.old inputs.now.table.now answer.old
        → StandsWithoutMemory inputs.now.valid.now (run_terms inputs.now) begun call.new ticket.new inputs.now.table.now answer.new }
    ensures leaves { (begun : Store)
        → StandsWithoutMemory inputs.now.valid.now (run_terms inputs.now) begun call.old ticket.old inputs.now.table.now answer.old
        → (x : MemoryContents) (owner : Option Named) → (r : CallResult)
        × LeavesFrom N.config.pages (module_tree inputs.now.valid.now) (whole inputs.now.valid.now (run_terms inputs.now) call.old ticket.old.args begun)
        call.old.turns (upto call.old slice)
        (parts x owner inputs.now.table.now ticket.old.globals) (parts x owner inputs.now.table.now ticket.new.globals) x.marks r }
    ensures left { (begun : Store)
        → StandsWithoutMemory inputs.now.valid.now (run_terms inputs.now) begun call.old ticket.old inputs.now.table.now answer.old
        → LeavesFuel (whole inputs.now.valid.now (run_terms inputs.now) call.old ticket.old.args begun) call.old.fuel result (fuel_left call.new) }
    ensures args { ticket.new.args ≡ ticket.old.args }
    ensures same { (call.new.function ≡ call.old.function) × (call.new.fuel ≡ call.old.fuel) }
    ensures turns { result ≡ SliceEnd.Again → call.new.turns ≡ call.old.turns + slice }
{
    call.resume(
        &ticket.args,
        inputs,
        slice,
        &mut ticket.memory,
        &mut ticket.globals,
        &mut ticket.stacks,
        answer,
    )
}

// A call that has not begun, whose arguments the ticket keeps.
pub(crate) fn begin_call<N: Naming>(
    ticket: &mut Ticket<N>,
    valid: &Valid,
    function: u32,
    call: &Call<'_>,
) -> PausedCall
    requires call { IsCall valid.now function call.now.args.now }
    requires frame { FitsFrame valid.now N.config.frame }
    ensures stands { (request : List ℕ) (store : Store) → IsTypedStore valid.now store
        → Stands valid.now (terms_of (run_limits N.config) request) store call.now.args.now result ticket.new.stacks store }
    ensures function { result.function ≡ function }
    ensures fuel { result.fuel ≡ call.now.fuel }
    ensures turns { result.turns ≡ 0 }
    ensures args { ticket.new.args ≡ call.now.args.now }
    ensures globals { ticket.new.globals ≡ ticket.old.globals }
{
    // The arguments of a valid module's functions fit the place.
    let _ = valid.module();
    ticket.args.clear();
    match ticket.args.extend_from_slice(call.args) {
        Ok(()) => {}
        Err(_) => unreachable!(),
    }
    PausedCall::begin(valid, function, call.fuel)
}
