//! A function's run, from its beginning to its end or in slices.
ghost use Rattle.std.specs.Prelude.{◌≡◌, ℕ, ◌+◌, ◌-◌, ◌*◌, ◌<◌, ◌≤◌, ◌^◌, List, Option, Some, IsSome, is_some, length, map, option_and_then, reverse, slice_get};
ghost use Rattle.wasm_values.specs.declared.outcome.Val.{Val as AVal};
ghost use Rattle.wasm_types.specs.declared.limits.RunLimits.{RunLimits as Limits};
ghost use Rattle.wasm_types.specs.declared.instr.Width.TheVariants.{W32};
ghost use Rattle.wasm_spec.specs.Functions.{host_type};
ghost use Rattle.wasm_spec.specs.Typing.{type_of, number};
ghost use Rattle.wasm_spec.specs.Execution.{Ended, Terms, host_call, terms_of};
ghost use Rattle.wasm_spec.specs.Store.{Store};
ghost use Rattle.wasm_types.specs.Tree.{module_tree};
ghost use Rattle.wasm_spec.specs.Bulk.{HasFewMarks};
ghost use Rattle.wasm_spec.specs.Instances.{room_for};
ghost use Rattle.wasm_spec.specs.Result.{CallResult, function_result, result_of, run_function};
ghost use Rattle.linear_memory.specs.Bytes.{IsMemory};
ghost use Rattle.memory_blocks.specs.Blocks.{KeepsUnmarked};
ghost use Rattle.linear_memory.specs.Marks.{HasSameRoom, count_marks};
ghost use Rattle.machine_steps.specs.Lent.{store_of};
ghost use Rattle.machine_steps.specs.StackLayout.{KeepsRoom};
ghost use Rattle.machine_steps.specs.WrittenParts.{MarksIf, part_read};
ghost use Rattle.wasm_machine.specs.Calls.{FitsFrame, GivesOutside, IsCall, IsOwnCall, IsDone, outside};
ghost use Rattle.wasm_machine.specs.Lent.{MarksWithin, lent_store, others, run_store, run_terms};
ghost use Rattle.wasm_machine.specs.Resuming.{CanResume, HasEnded, IsOutOfFuel, Resumes};
ghost use Rattle.wasm_machine.specs.Simulation.{Simulates, after};
ghost use Rattle.wasm_machine.specs.TypedConfiguration.{IsRunnable, IsTypedStore};

use crate::calls::begin;
use crate::inputs::{Inputs, RunInputs};
use crate::interpreter::{Halt, advance};
use crate::lookup::host_of;
use crate::stacks::Stacks;
use call_payload::AnswerBuf;
use linear_memory::Memory;
use machine_steps::{Machine, append_memory, copy_request};
use wasm_types::{HostFunction, Module, RunLimits};
use wasm_validate::Valid;
use wasm_values::{Outcome, TrapKind, Val};

/// How a run ended, and the fuel that it left.
#[derive(Clone, Copy, Debug, PartialEq, Eq)]
pub struct RunEnd {
    pub outcome: Outcome,
    pub left: u64,
}

// The i32 that is an argument.
fn argument(args: &[Val], place: usize) -> u32
    requires { IsSome (option_and_then (λ v. number W32 v) (slice_get args.now place)) }
    ensures { option_and_then (λ v. number W32 v) (slice_get args.now place) ≡ Some result }
{
    match args.get(place) {
        Some(Val::I32(n)) => *n,
        _ => unreachable!(),
    }
}

// What a function of the host gives that is called from outside, if it does not trap.
fn host_from_outside(
    function: HostFunction,
    args: &[Val],
    request: &[u8],
    memory: &mut Memory,
    answer: &mut AnswerBuf,
) -> Option<u32>
    requires arguments { map type_of args.now ≡ (host_type function).params }
    requires memory { (most : ℕ) × IsMemory most memory.old }
    requires short { length request.now < 2 ^ 32 }
    ensures ends { (table : List (Option ℕ)) (globals : List AVal)
        → GivesOutside (host_call request.now function (outside args.now (store_of memory.old table globals answer.old))) result
        (store_of memory.new table globals answer.new) }
    ensures memory { (most : ℕ) → IsMemory most memory.old → IsMemory most memory.new }
    ensures marks { MarksIf (is_some result) (part_read request.now function (reverse args.now)) memory.old memory.new }
{
    match function {
        HostFunction::Len => Some(request.len() as u32),
        HostFunction::Read => copy_request(
            memory,
            request,
            argument(args, 0),
            argument(args, 1),
            argument(args, 2),
        ),
        HostFunction::Write => {
            append_memory(memory, answer, argument(args, 0), argument(args, 1))
        }
    }
}

// Runs an import that is called from outside, which costs nothing.
fn run_import(
    m: &Module,
    x: usize,
    args: &[Val],
    fuel: u64,
    request: &[u8],
    memory: &mut Memory,
    answer: &mut AnswerBuf,
) -> RunEnd
    requires runs { (frame : ℕ) × IsRunnable m.now frame }
    requires import { x < length m.now.imports }
    requires call { IsCall m.now x args.now }
    requires memory { (most : ℕ) × IsMemory most memory.old }
    requires short { length request.now < 2 ^ 32 }
    ensures result { (limits : Limits) (table : List (Option ℕ)) (globals : List AVal) (turns : ℕ)
        → function_result (module_tree m.now) (terms_of limits request.now) x args.now (store_of memory.old table globals answer.old) turns
        ≡ Some (record { outcome = result.outcome; store = store_of memory.new table globals answer.new; fuel = turns }) }
    ensures ended { HasEnded result.outcome }
    ensures left { result.left ≡ fuel }
    ensures memory { (most : ℕ) → IsMemory most memory.old → IsMemory most memory.new }
    ensures marks { MarksWithin m.now memory.old memory.new 0 }
{
    let function = match host_of(m, x) {
        Some(function) => function,
        None => unreachable!(),
    };
    match host_from_outside(function, args, request, memory, answer) {
        Some(n) => RunEnd {
            outcome: Outcome::Done(Some(Val::I32(n))),
            left: fuel,
        },
        None => RunEnd {
            outcome: Outcome::Trap(TrapKind::Memory),
            left: fuel,
        },
    }
}

// Goes on from where a run stands, over a machine and the module's own globals.
fn go_on(
    inputs: &Inputs,
    fuel: u64,
    memory: &mut Memory,
    globals: &mut [Val],
    answer: &mut AnswerBuf,
    machine: &mut Machine,
) -> RunEnd
    requires runs { (frame : ℕ) × (r : ℕ → Ended) × IsRunnable inputs.now.m.now frame
        × Simulates inputs.now.m.now (terms_of inputs.now.limits inputs.now.request.now) frame machine.old
        (store_of memory.old inputs.now.table.now globals.old answer.old) r }
    requires memory { IsMemory (room_for inputs.now.m.now.memories inputs.now.limits.pages) memory.old }
    ensures result { (frame : ℕ) (r : ℕ → Ended) → IsRunnable inputs.now.m.now frame
        → Simulates inputs.now.m.now (terms_of inputs.now.limits inputs.now.request.now) frame machine.old
        (store_of memory.old inputs.now.table.now globals.old answer.old) r
        → result_of (r fuel) ≡ Some
        (record { outcome = result.outcome; store = store_of memory.new inputs.now.table.now globals.new answer.new; fuel = result.left }) }
    ensures ended { HasEnded result.outcome → (frame : ℕ) (r : ℕ → Ended) → IsRunnable inputs.now.m.now frame
        → Simulates inputs.now.m.now (terms_of inputs.now.limits inputs.now.request.now) frame machine.old
        (store_of memory.old inputs.now.table.now globals.old answer.old) r → (more : ℕ)
        → result_of (r (fuel - result.left + more))
        ≡ Some (record { outcome = result.outcome; store = store_of memory.new inputs.now.table.now globals.new answer.new; fuel = more }) }
    ensures stands { IsOutOfFuel result.outcome → (frame : ℕ) (r : ℕ → Ended) → IsRunnable inputs.now.m.now frame
        → Simulates inputs.now.m.now (terms_of inputs.now.limits inputs.now.request.now) frame machine.old
        (store_of memory.old inputs.now.table.now globals.old answer.old) r
        → Simulates inputs.now.m.now (terms_of inputs.now.limits inputs.now.request.now) frame machine.new
        (store_of memory.new inputs.now.table.now globals.new answer.new) (after fuel r) }
    ensures left { result.left ≤ fuel }
    ensures store { IsDone result.outcome → IsTypedStore inputs.now.m.now (store_of memory.new inputs.now.table.now globals.new answer.new) }
    ensures marked { (frame : ℕ) (r : ℕ → Ended) → IsRunnable inputs.now.m.now frame
        → Simulates inputs.now.m.now (terms_of inputs.now.limits inputs.now.request.now) frame machine.old
        (store_of memory.old inputs.now.table.now globals.old answer.old) r
        → (turns : ℕ) (x : CallResult) → turns ≤ fuel → result_of (r turns) ≡ Some x
        → KeepsUnmarked memory.old.bytes.items x.store.memory memory.old.marks.items memory.new.marks.items }
    ensures unspent { result.left ≡ fuel → memory.new.marks.items ≡ memory.old.marks.items }
    ensures marks { MarksWithin inputs.now.m.now memory.old memory.new (2 * (fuel - result.left)) }
    ensures memory { IsMemory (room_for inputs.now.m.now.memories inputs.now.limits.pages) memory.new }
    ensures globals { length globals.new ≡ length globals.old }
    ensures room { KeepsRoom machine.old machine.new }
{
    match advance(machine, inputs, memory, globals, answer, fuel) {
        Halt::Done(left) => RunEnd {
            outcome: Outcome::Done(machine.values.top()),
            left,
        },
        Halt::Trapped(t, left) => RunEnd {
            outcome: Outcome::Trap(t),
            left,
        },
        Halt::OutOfFuel => RunEnd {
            outcome: Outcome::Fuel,
            left: 0,
        },
    }
}

impl Stacks {
    // Stands at the beginning of one of the module's own functions, by its number among these, which is called with these arguments
    // from outside. What stood there is gone.
    fn begin(&mut self, valid: &Valid, x: usize, args: &[Val])
        requires call { IsOwnCall valid.now x args.now }
        requires depth { 0 < self.old.room.depth }
        requires frame { FitsFrame valid.now self.old.room.frame }
        ensures begins { (limits : Terms) (store : Store) → 0 < limits.depth → limits.depth ≤ self.old.room.depth → IsTypedStore valid.now store
            → Resumes valid.now limits self.new store (run_function (module_tree valid.now) limits (length valid.now.imports + x) args.now store) }
        ensures room { self.new.room ≡ self.old.room }
    {
        begin(&mut self.machine, valid.module(), x, args);
    }

    /// Goes on from where a run stands, on so much fuel, on parts that are lent to it as to [`Stacks::invoke`]. Where the fuel is used
    /// up before the run ends, it stands at the instruction that is next, and can go on from there, whatever lay on the stacks of
    /// others meanwhile. It takes no memory.
    pub fn advance(
        &mut self,
        inputs: &RunInputs<'_>,
        fuel: u64,
        memory: &mut Memory,
        globals: &mut [Val],
        answer: &mut AnswerBuf,
    ) -> RunEnd
        requires resumes { CanResume inputs.now.valid.now (run_terms inputs.now) self.old (run_store inputs.now memory.old globals.old answer.old) }
        requires frame { FitsFrame inputs.now.valid.now self.old.room.frame }
        requires memory { IsMemory (room_for inputs.now.valid.now.memories inputs.now.limits.pages) memory.old }
        ensures result { (r : ℕ → Ended)
            → Resumes inputs.now.valid.now (run_terms inputs.now) self.old (run_store inputs.now memory.old globals.old answer.old) r
            → result_of (r fuel)
            ≡ Some (record { outcome = result.outcome; store = run_store inputs.now memory.new globals.new answer.new; fuel = result.left }) }
        ensures ended { HasEnded result.outcome → (r : ℕ → Ended)
            → Resumes inputs.now.valid.now (run_terms inputs.now) self.old (run_store inputs.now memory.old globals.old answer.old) r
            → (more : ℕ) → result_of (r (fuel - result.left + more))
            ≡ Some (record { outcome = result.outcome; store = run_store inputs.now memory.new globals.new answer.new; fuel = more }) }
        ensures stands { IsOutOfFuel result.outcome → (r : ℕ → Ended)
            → Resumes inputs.now.valid.now (run_terms inputs.now) self.old (run_store inputs.now memory.old globals.old answer.old) r
            → Resumes inputs.now.valid.now (run_terms inputs.now) self.new (run_store inputs.now memory.new globals.new answer.new) (after fuel r) }
        ensures left { result.left ≤ fuel }
        ensures memory { IsMemory (room_for inputs.now.valid.now.memories inputs.now.limits.pages) memory.new }
        ensures store { IsDone result.outcome → IsTypedStore inputs.now.valid.now (run_store inputs.now memory.new globals.new answer.new) }

        ensures marked { (r : ℕ → Ended)
            → Resumes inputs.now.valid.now (run_terms inputs.now) self.old (run_store inputs.now memory.old globals.old answer.old) r
            → (turns : ℕ) (x : CallResult) → turns ≤ fuel → result_of (r turns) ≡ Some x
            → KeepsUnmarked memory.old.bytes.items x.store.memory memory.old.marks.items memory.new.marks.items }
        ensures unspent { result.left ≡ fuel → memory.new.marks.items ≡ memory.old.marks.items }
        ensures marks { MarksWithin inputs.now.valid.now memory.old memory.new (2 * (fuel - result.left)) }

        ensures globals { length globals.new ≡ length globals.old }
        ensures others { others inputs.now.valid.now globals.new ≡ others inputs.now.valid.now globals.old }
        ensures stacks { self.new.room ≡ self.old.room }
    {
        let m = inputs.valid.module();
        let count = m.globals.len();
        let inner = Inputs {
            m,
            limits: inputs.limits,
            request: inputs.request,
            table: inputs.table,
        };
        go_on(
            &inner,
            fuel,
            memory,
            &mut globals[..count],
            answer,
            &mut self.machine,
        )
    }

    /// Runs a function of a valid module from its beginning, as [`run`] does. Where the fuel is used up before the run ends, it stands
    /// in these stacks, and [`Stacks::advance`] goes on with it. An import never stands there: it ends at once. What stood there is
    /// gone. It takes no memory.
    pub fn invoke(
        &mut self,
        inputs: &RunInputs<'_>,
        function: u32,
        args: &[Val],
        fuel: u64,
        memory: &mut Memory,
        globals: &mut [Val],
        answer: &mut AnswerBuf,
    ) -> RunEnd
        requires call { IsCall inputs.now.valid.now function args.now }
        requires depth { 0 < inputs.now.limits.depth }
        requires memory { IsMemory (room_for inputs.now.valid.now.memories inputs.now.limits.pages) memory.old }
        requires store { IsTypedStore inputs.now.valid.now (run_store inputs.now memory.old globals.old answer.old) }
        requires frames { inputs.now.limits.depth ≤ self.old.room.depth }
        requires frame { FitsFrame inputs.now.valid.now self.old.room.frame }
        ensures result { function_result (module_tree inputs.now.valid.now) (run_terms inputs.now) function args.now
            (run_store inputs.now memory.old globals.old answer.old) fuel
            ≡ Some (record { outcome = result.outcome; store = run_store inputs.now memory.new globals.new answer.new; fuel = result.left }) }
        ensures ended { HasEnded result.outcome → (more : ℕ)
            → function_result (module_tree inputs.now.valid.now) (run_terms inputs.now) function args.now
            (run_store inputs.now memory.old globals.old answer.old) (fuel - result.left + more)
            ≡ Some (record { outcome = result.outcome; store = run_store inputs.now memory.new globals.new answer.new; fuel = more }) }
        ensures stands { IsOutOfFuel result.outcome
            → Resumes inputs.now.valid.now (run_terms inputs.now) self.new (run_store inputs.now memory.new globals.new answer.new)
            (after fuel (run_function (module_tree inputs.now.valid.now) (run_terms inputs.now) function args.now
            (run_store inputs.now memory.old globals.old answer.old))) }
        ensures left { result.left ≤ fuel }
        ensures memory { IsMemory (room_for inputs.now.valid.now.memories inputs.now.limits.pages) memory.new }
        ensures store { IsDone result.outcome → IsTypedStore inputs.now.valid.now (run_store inputs.now memory.new globals.new answer.new) }

        ensures marked { (turns : ℕ) (r : CallResult) → turns ≤ fuel
            → function_result (module_tree inputs.now.valid.now) (run_terms inputs.now) function args.now
            (run_store inputs.now memory.old globals.old answer.old) turns ≡ Some r
            → KeepsUnmarked memory.old.bytes.items r.store.memory memory.old.marks.items memory.new.marks.items }
        ensures unspent { length inputs.now.valid.now.imports ≤ function → result.left ≡ fuel → memory.new.marks.items ≡ memory.old.marks.items }
        ensures still { IsOutOfFuel result.outcome → result.left ≡ fuel → memory.new.marks.items ≡ memory.old.marks.items }
        ensures marks { MarksWithin inputs.now.valid.now memory.old memory.new (2 * (fuel - result.left)) }

        ensures globals { length globals.new ≡ length globals.old }
        ensures others { others inputs.now.valid.now globals.new ≡ others inputs.now.valid.now globals.old }
        ensures stacks { self.new.room ≡ self.old.room }
    {
        let m = inputs.valid.module();
        let x = function as usize;
        let imported = m.imports.len();
        if x < imported {
            return run_import(m, x, args, fuel, inputs.request, memory, answer);
        }
        self.begin(inputs.valid, x - imported, args);
        self.advance(inputs, fuel, memory, globals, answer)
    }
}

/// Runs a function of a valid module from its beginning to its end, on a memory, a table and globals that are lent to it.
/// Of the globals the first are the module's, and the others stay as they are. It takes no memory.
///
/// Each instruction costs one unit of fuel. An import is one of the host's functions: it reads the request and appends to the
/// answer, and costs nothing itself, also where it is the function that is run. A module without a memory runs on one of size
/// 0. Outcome, fuel left and what is left in the lent parts are those of the definition `function_result`. A byte that differs
/// from the beginning after any number of instructions lies in a block that is marked at the end.
///
/// Source: Core Specification 1.0, section 4.5.5 (invocation).
pub fn run(
    valid: &Valid,
    function: u32,
    args: &[Val],
    fuel: u64,
    limits: RunLimits,
    memory: &mut Memory,
    table: &[Option<u32>],
    globals: &mut [Val],
    stacks: &mut Stacks,
    request: &[u8],
    answer: &mut AnswerBuf,
) -> RunEnd
    requires call { IsCall valid.now function args.now }
    requires depth { 0 < limits.depth }
    requires memory { IsMemory (room_for valid.now.memories limits.pages) memory.old }
    requires store { IsTypedStore valid.now (lent_store valid.now memory.old table.now globals.old answer.old) }
    requires request { length request.now ≤ 65536 }
    requires frames { limits.depth ≤ stacks.old.room.depth }
    requires frame { FitsFrame valid.now stacks.old.room.frame }
    ensures result { function_result (module_tree valid.now) (terms_of limits request.now) function args.now
        (lent_store valid.now memory.old table.now globals.old answer.old) fuel
        ≡ Some (record { outcome = result.outcome; store = lent_store valid.now memory.new table.now globals.new answer.new; fuel = result.left }) }
    ensures left { result.left ≤ fuel }
    ensures memory { IsMemory (room_for valid.now.memories limits.pages) memory.new }
    ensures store { IsDone result.outcome → IsTypedStore valid.now (lent_store valid.now memory.new table.now globals.new answer.new) }

    ensures marked { (turns : ℕ) (r : CallResult) → turns ≤ fuel
        → function_result (module_tree valid.now) (terms_of limits request.now) function args.now
        (lent_store valid.now memory.old table.now globals.old answer.old) turns ≡ Some r
        → KeepsUnmarked memory.old.bytes.items r.store.memory memory.old.marks.items memory.new.marks.items }
    ensures unspent { length valid.now.imports ≤ function → result.left ≡ fuel → memory.new.marks.items ≡ memory.old.marks.items }
    ensures counted { HasFewMarks (module_tree valid.now) → count_marks memory.new ≤ count_marks memory.old + 2 * (fuel - result.left) }

    ensures room { HasSameRoom memory.old memory.new }
    ensures globals { length globals.new ≡ length globals.old }
    ensures others { others valid.now globals.new ≡ others valid.now globals.old }
    ensures stacks { stacks.new.room ≡ stacks.old.room }
{
    let inputs = RunInputs {
        valid,
        limits,
        request,
        table,
    };
    stacks.invoke(&inputs, function, args, fuel, memory, globals, answer)
}
