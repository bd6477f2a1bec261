//! Calls, from outside and of one function by another.
ghost use Rattle.std.specs.Prelude.{◌≡◌, ℕ, List, Option, ◌+◌, ◌-◌, ◌<◌, ◌≤◌, ◌++◌, All, length, map, replicate, slice_get, vec_len, vec_capacity};
ghost use Rattle.std.specs.List.{flat_map};
ghost use Rattle.wasm_values.specs.declared.outcome.Val.{Val as AVal};
ghost use Rattle.linear_memory.specs.Bytes.{IsMemory};
ghost use Rattle.machine_steps.specs.Lent.{store_of};
ghost use Rattle.wasm_machine.specs.Lent.{MarksWithin};
ghost use Rattle.wasm_types.specs.Tree.{function_tree, locals_of, module_tree};
ghost use Rattle.wasm_spec.specs.Execution.{Ended, Terms, terms_of, zero_of};
ghost use Rattle.wasm_spec.specs.Store.{Store};
ghost use Rattle.wasm_spec.specs.Result.{run_function};
ghost use Rattle.wasm_validate.specs.Locals.{HasLocals, HasNoEmptyRun};
ghost use Rattle.wasm_machine.specs.Calls.{IsOwnCall};
ghost use Rattle.machine_steps.specs.Configuration.{Configuration};
ghost use Rattle.wasm_machine.specs.Remaining.{function_of};
ghost use Rattle.machine_steps.specs.StackLayout.{HasRoom, KeepsRoom, Represents};
ghost use Rattle.wasm_machine.specs.TypedConfiguration.{IsRunnable, IsTypedStore};
ghost use Rattle.wasm_types.specs.declared.instr.Op.TheVariants as op;
ghost use Rattle.wasm_machine.specs.Simulation.{HasFetched, CanCall, CanCallNumber, CanCallElement, Simulates, SimulatesCall, SimulatesCalling, SimulatesUnlessTrapped, in_function, paid};

use crate::inputs::Inputs;
use crate::lookup::{has_type, host_of, local_runs, param_count, start_of};
use call_payload::AnswerBuf;
use linear_memory::Memory;
use machine_steps::{Frame, Machine, Position, ValueStack};
use wasm_types::{LocalRun, Module, ValType};
use wasm_values::{TrapKind, Val};

// The value that a local begins with.
fn zero(t: ValType) -> Val
    ensures { result ≡ zero_of t }
{
    match t {
        ValType::I64 => Val::I64(0),
        ValType::I32 | ValType::F32 | ValType::F64 => Val::I32(0),
    }
}

// Puts one value on the top so many times.
fn fill(values: &mut ValueStack, count: usize, value: Val)
    requires { length values.old.items + count ≤ values.old.room }
    ensures items { values.new.items ≡ values.old.items ++ replicate count value }
    ensures room { values.old.room ≤ values.new.room }
{
    for _ in 0..count {
        values.push(value);
    }
}

// Puts values on the top, the last one highest.
fn push_all(values: &mut ValueStack, more: &[Val])
    requires { length values.old.items + length more.now ≤ values.old.room }
    ensures items { values.new.items ≡ values.old.items ++ more.now }
    ensures room { values.old.room ≤ values.new.room }
{
    for value in more {
        values.push(*value);
    }
}

// Puts the declared locals' zeros on the top. No run is empty, so that there are no more turns than locals.
#[inline(always)]
pub(crate) fn push_zeros(values: &mut ValueStack, runs: &[LocalRun])
    requires room { length values.old.items + length (flat_map locals_of runs.now) ≤ values.old.room }
    requires turns { All HasLocals runs.now }
    ensures items { values.new.items ≡ values.old.items ++ map zero_of (flat_map locals_of runs.now) }
    ensures room { values.old.room ≤ values.new.room }
{
    for run in runs {
        fill(values, run.count as usize, zero(run.value));
    }
}

// The element of a table at an index.
fn element_at(table: &[Option<u32>], i: u32) -> Option<Option<u32>>
    ensures { result ≡ slice_get table.now i }
{
    match table.get(i as usize) {
        Some(element) => Some(*element),
        None => None,
    }
}

// Enters a function, whose arguments are on the top.
#[inline(always)]
fn enter_function(machine: &mut Machine, m: &Module, x: usize, count: usize)
    requires arguments { count ≤ length machine.old.values.items }
    requires values { length machine.old.values.items + length (function_tree (function_of m.now x)).locals ≤ machine.old.values.room }
    requires frames { vec_len machine.old.frames < vec_capacity machine.old.frames }
    requires there { x < length m.now.functions }
    requires turns { HasNoEmptyRun (function_of m.now x) }
    ensures represents { (k : Configuration) → Represents k machine.old → count ≤ length k.operands → Represents (in_function m.now k x count) machine.new }
    ensures room { KeepsRoom machine.old machine.new }
{
    let locals = machine.values.len() - count;
    push_zeros(&mut machine.values, local_runs(m, x));
    machine.frames.push_reserved(Frame::of(machine.at));
    machine.at = Position {
        function: x,
        sequence: start_of(m, x),
        locals,
        labels: machine.labels.len(),
        place: 0,
    };
}

// Calls one of the module's own functions, if one more call may be open.
#[inline(always)]
fn invoke(machine: &mut Machine, inputs: &Inputs, x: usize) -> Option<TrapKind>
    requires { (request : List ℕ) × CanCall inputs.now.m.now (terms_of inputs.now.limits request) machine.old x }
    ensures steps { (request : List ℕ) (frame : ℕ) (store : Store) (r : ℕ → Ended) → IsRunnable inputs.now.m.now frame
        → SimulatesCall inputs.now.m.now (terms_of inputs.now.limits request) frame machine.old store x r
        → SimulatesUnlessTrapped result inputs.now.m.now (terms_of inputs.now.limits request) frame machine.new store r }
    ensures room { KeepsRoom machine.old machine.new }
{
    if machine.frames.len() + 1 >= inputs.limits.depth as usize {
        return Some(TrapKind::Exhausted);
    }
    enter_function(machine, inputs.m, x, param_count(inputs.m, x));
    None
}

// Calls an import, for which the host has what it does in place of a body.
#[inline(never)]
fn call_import(
    machine: &mut Machine,
    inputs: &Inputs,
    memory: &mut Memory,
    answer: &mut AnswerBuf,
    x: usize,
) -> Option<TrapKind>
    requires import { x < length inputs.now.m.now.imports }
    requires can { CanCallNumber inputs.now.m.now (terms_of inputs.now.limits inputs.now.request.now) machine.old x }
    requires memory { (most : ℕ) × IsMemory most memory.old }
    ensures steps { (frame : ℕ) (table : List (Option ℕ)) (globals : List AVal) (r : ℕ → Ended) → IsRunnable inputs.now.m.now frame
        → SimulatesCalling inputs.now.m.now (terms_of inputs.now.limits inputs.now.request.now) frame machine.old
        (store_of memory.old table globals answer.old) x r
        → SimulatesUnlessTrapped result inputs.now.m.now (terms_of inputs.now.limits inputs.now.request.now) frame machine.new
        (store_of memory.new table globals answer.new) r }
    ensures room { KeepsRoom machine.old machine.new }
    ensures memory { (most : ℕ) → IsMemory most memory.old → IsMemory most memory.new }
    ensures marks { MarksWithin inputs.now.m.now memory.old memory.new 0 }
{
    match host_of(inputs.m, x) {
        Some(function) => machine.host(function, inputs.request, memory, answer),
        None => unreachable!(),
    }
}

// Calls a function by its number: the imports have the first ones.
#[inline(always)]
pub(crate) fn call(
    machine: &mut Machine,
    inputs: &Inputs,
    memory: &mut Memory,
    answer: &mut AnswerBuf,
    x: u32,
) -> Option<TrapKind>
    requires can { CanCallNumber inputs.now.m.now (terms_of inputs.now.limits inputs.now.request.now) machine.old x }
    requires memory { (most : ℕ) × IsMemory most memory.old }
    ensures steps { (frame : ℕ) (table : List (Option ℕ)) (globals : List AVal) (r : ℕ → Ended) → IsRunnable inputs.now.m.now frame
        → SimulatesCalling inputs.now.m.now (terms_of inputs.now.limits inputs.now.request.now) frame machine.old
        (store_of memory.old table globals answer.old) x r
        → SimulatesUnlessTrapped result inputs.now.m.now (terms_of inputs.now.limits inputs.now.request.now) frame machine.new
        (store_of memory.new table globals answer.new) r }
    ensures room { KeepsRoom machine.old machine.new }
    ensures memory { (most : ℕ) → IsMemory most memory.old → IsMemory most memory.new }
    ensures marks { MarksWithin inputs.now.m.now memory.old memory.new 0 }
{
    let x = x as usize;
    let imported = inputs.m.imports.len();
    if x < imported {
        call_import(machine, inputs, memory, answer, x)
    } else {
        invoke(machine, inputs, x - imported)
    }
}

// Calls the function that an element of the table is, if it has the type that is named.
#[inline(never)]
pub(crate) fn call_indirect(
    machine: &mut Machine,
    inputs: &Inputs,
    memory: &mut Memory,
    answer: &mut AnswerBuf,
    x: u32,
) -> Option<TrapKind>
    requires can { CanCallElement inputs.now.m.now (terms_of inputs.now.limits inputs.now.request.now) inputs.now.table.now machine.old x }
    requires memory { (most : ℕ) × IsMemory most memory.old }
    ensures steps { (frame : ℕ) (globals : List AVal) (here : ℕ) (r : ℕ → Ended) → IsRunnable inputs.now.m.now frame
        → HasFetched inputs.now.m.now (terms_of inputs.now.limits inputs.now.request.now) frame machine.old
        (store_of memory.old inputs.now.table.now globals answer.old) here (op.CallIndirect x) r
        → SimulatesUnlessTrapped result inputs.now.m.now (terms_of inputs.now.limits inputs.now.request.now) frame machine.new
        (store_of memory.new inputs.now.table.now globals answer.new) (paid r) }
    ensures room { KeepsRoom machine.old machine.new }
    ensures memory { (most : ℕ) → IsMemory most memory.old → IsMemory most memory.new }
    ensures marks { MarksWithin inputs.now.m.now memory.old memory.new 0 }
{
    let i = machine.pop32();
    match element_at(inputs.table, i) {
        None => Some(TrapKind::Element),
        Some(None) => Some(TrapKind::Uninit),
        Some(Some(y)) => {
            if has_type(inputs.m, y, x as usize) {
                call(machine, inputs, memory, answer, y)
            } else {
                Some(TrapKind::Signature)
            }
        }
    }
}

// Stands at the beginning of one of the module's own functions, which is called with these arguments from outside.
pub(crate) fn begin(machine: &mut Machine, m: &Module, x: usize, args: &[Val])
    requires room { length args.now + length (function_tree (function_of m.now x)).locals ≤ machine.old.values.room }
    requires turns { HasNoEmptyRun (function_of m.now x) }
    requires there { x < length m.now.functions }
    ensures simulates { (limits : Terms) (frame : ℕ) (store : Store) → IsRunnable m.now frame → IsOwnCall m.now x args.now → 0 < limits.depth
        → IsTypedStore m.now store → HasRoom limits.depth frame machine.old
        → Simulates m.now limits frame machine.new store (run_function (module_tree m.now) limits (length m.now.imports + x) args.now store) }
    ensures room { KeepsRoom machine.old machine.new }
{
    machine.values.clear();
    machine.labels.clear();
    machine.frames.clear();
    push_all(&mut machine.values, args);
    push_zeros(&mut machine.values, local_runs(m, x));
    machine.at = Position {
        function: x,
        sequence: start_of(m, x),
        locals: 0,
        labels: 0,
        place: 0,
    };
}
