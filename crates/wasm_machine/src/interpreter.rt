//! A run from a place on.
ghost use Rattle.std.specs.Prelude.{◌≡◌, ◌≢◌, ℕ, List, ◌+◌, ◌-◌, ◌*◌, ◌<◌, ◌≤◌, ◌^◌, Option, Some, None, IfOk, IsFalse, length};
ghost use Rattle.wasm_values.specs.declared.outcome.Val.{Val as AVal};
ghost use Rattle.wasm_types.specs.declared.instr.Op.TheVariants as op;
ghost use Rattle.wasm_machine.specs.declared.interpreter.Step.TheVariants as step;
ghost use Rattle.wasm_spec.specs.Execution.{Ended, Terms, terms_of, most_pages as pages_at_most};
ghost use Rattle.wasm_spec.specs.Store.{Store};
ghost use Rattle.machine_steps.specs.StackLayout.{KeepsRoom};
ghost use Rattle.linear_memory.specs.Bytes.{IsMemory};
ghost use Rattle.wasm_spec.specs.Instances.{room_for};
ghost use Rattle.machine_steps.specs.Lent.{store_of};
ghost use Rattle.wasm_machine.specs.Lent.{MarksWithin};
ghost use Rattle.wasm_machine.specs.TypedConfiguration.{IsRunnable};
ghost use Rattle.wasm_machine.specs.Simulation.{AreMarkedBelow, HasFetched, CanContinue, HaltsAs, IsStructured, Simulates, SimulatesStep, SimulatesUnlessOver, SimulatesUnlessTrapped, left_of, op_at, paid, placed, sequence_at, standing, step_unless_trapped};
ghost use Rattle.wasm_machine.specs.Stretches.{GoesOnAs, IsNext, LiesIn, fuel_after, fuel_of, place_of};

use crate::block_entry::{enter_arm, enter_named};
use crate::calls::{call, call_indirect};
use crate::control::{end_sequence, jump};
use crate::inputs::Inputs;
use crate::lookup::{most_pages, named_by, sequence_of};
use crate::stretch::Stretch;
use call_payload::AnswerBuf;
use linear_memory::Memory;
use machine_steps::{Effect, Machine};
use wasm_types::{Instr, Module, Op};
use wasm_values::{TrapKind, Val};

// What a step comes to: the run goes on in the same sequence, or wherever it stands then, is over, or traps.
#[derive(Clone, Copy, Debug, PartialEq, Eq)]
pub(crate) enum Step {
    Stays,
    Continues,
    Finishes,
    Traps(TrapKind),
}

// How a run halts: at its end, by a trap, or for want of fuel, and the fuel that is left.
#[derive(Clone, Copy, Debug, PartialEq, Eq)]
pub(crate) enum Halt {
    Done(u64),
    Trapped(TrapKind, u64),
    OutOfFuel,
}

// What a block or a call comes to, of which the run goes on where it stands then.
#[inline(always)]
fn unless_trapped(trap: Option<TrapKind>) -> Step
    ensures is { result ≡ step_unless_trapped trap }
    ensures moves { result ≢ step.Stays }
{
    match trap {
        None => Step::Continues,
        Some(t) => Step::Traps(t),
    }
}

// Ends the current sequence, which is over, and those that are over then, up to the next instruction. Says whether the run is over.
#[inline(always)]
fn end_sequences(machine: &mut Machine, m: &Module) -> bool
    requires over { op_at m.now machine.old ≡ None }
    requires can { CanContinue m.now machine.old }
    ensures steps { (limits : Terms) (frame : ℕ) (store : Store) (r : ℕ → Ended)
        → Simulates m.now limits frame machine.old store r → SimulatesUnlessOver result m.now limits frame machine.new store r }
    ensures there { IsFalse result → machine.new.at.place < length (sequence_at m.now machine.new) }
    ensures room { KeepsRoom machine.old machine.new }
{
    loop {
        if end_sequence(machine, m) {
            return true;
        }
        let ops = sequence_of(m, machine.at);
        if machine.at.place < ops.len() {
            return false;
        }
    }
}

// Goes to the next instruction from a place of the sequence on. Says whether the run is over.
#[inline(always)]
fn settle(machine: &mut Machine, m: &Module, place: usize) -> bool
    requires { CanContinue m.now (placed machine.old place) }
    ensures steps { (limits : Terms) (frame : ℕ) (store : Store) (r : ℕ → Ended)
        → Simulates m.now limits frame (placed machine.old place) store r → SimulatesUnlessOver result m.now limits frame machine.new store r }
    ensures there { IsFalse result → machine.new.at.place < length (sequence_at m.now machine.new) }
    ensures room { KeepsRoom machine.old machine.new }
{
    machine.at.place = place;
    let ops = sequence_of(m, machine.at);
    if machine.at.place < ops.len() {
        return false;
    }
    end_sequences(machine, m)
}

// The instructions from where the machine stands, with so much fuel.
#[inline(always)]
fn stretch_at<'m>(machine: &Machine, m: &'m Module, fuel: u64) -> Stretch<'m>
    requires { machine.now.at.function < length m.now.functions }
    ensures lies { LiesIn (sequence_at m.now machine.now) result }
    ensures place { place_of result ≡ machine.now.at.place }
    ensures fuel { fuel_of result ≡ fuel }
    ensures some { machine.now.at.place < length (sequence_at m.now machine.now) → 0 < fuel → 0 < length result.ops.now }
{
    Stretch::of(sequence_of(m, machine.at), machine.at.place, fuel)
}

// Goes on with a stretch, which may have no instruction left: then from its end on. Gives the stretch that is next, which has one, or
// how the run halts there.
#[inline(always)]
fn fetch<'m>(machine: &mut Machine, m: &'m Module, ahead: Stretch<'m>) -> Result<Stretch<'m>, Halt>
    requires lies { LiesIn (sequence_at m.now machine.old) ahead }
    requires fits { fuel_of ahead < 2 ^ 64 }
    requires can { CanContinue m.now (placed machine.old (place_of ahead)) }
    ensures next { IfOk result (λ next. IsNext (sequence_at m.now machine.new) next) }
    ensures fuel { fuel_after result ≡ fuel_of ahead.entry }
    ensures steps { (limits : Terms) (frame : ℕ) (store : Store) (r : ℕ → Ended)
        → Simulates m.now limits frame (placed machine.old (place_of ahead.entry)) store r
        → GoesOnAs result m.now limits frame machine.new store (fuel_of ahead.entry) r }
    ensures room { KeepsRoom machine.old machine.new }
{
    if ahead.has_next() {
        return Ok(ahead);
    }
    let end = ahead.place();
    let fuel = ahead.fuel();
    if settle(machine, m, end) {
        return Err(Halt::Done(fuel));
    }
    if fuel == 0 {
        return Err(Halt::OutOfFuel);
    }
    Ok(stretch_at(machine, m, fuel))
}

// A block, a loop, an `if` or a call, at which the machine stands.
#[inline(always)]
fn execute_structured(
    machine: &mut Machine,
    inputs: &Inputs,
    memory: &mut Memory,
    answer: &mut AnswerBuf,
    op: &Op,
) -> Option<TrapKind>
    requires there { op_at inputs.now.m.now machine.old ≡ Some op.now }
    requires structured { IsStructured op.now }
    requires fits { machine.old.at.place + 1 < 2 ^ 64 }
    requires runs { (frame : ℕ) × (globals : List AVal) × (r : ℕ → Ended) × IsRunnable inputs.now.m.now frame
        × Simulates inputs.now.m.now (terms_of inputs.now.limits inputs.now.request.now) frame machine.old
        (store_of memory.old inputs.now.table.now globals answer.old) r }
    requires memory { IsMemory (room_for inputs.now.m.now.memories inputs.now.limits.pages) memory.old }
    ensures steps { (frame : ℕ) (globals : List AVal) (r : ℕ → Ended) → IsRunnable inputs.now.m.now frame
        → Simulates inputs.now.m.now (terms_of inputs.now.limits inputs.now.request.now) frame machine.old
        (store_of memory.old inputs.now.table.now globals answer.old) r
        → SimulatesUnlessTrapped result inputs.now.m.now (terms_of inputs.now.limits inputs.now.request.now) frame machine.new
        (store_of memory.new inputs.now.table.now globals answer.new) (paid r) }
    ensures room { KeepsRoom machine.old machine.new }
    ensures memory { IsMemory (room_for inputs.now.m.now.memories inputs.now.limits.pages) memory.new }
    ensures marks { MarksWithin inputs.now.m.now memory.old memory.new 2 }
{
    let here = machine.at.place;
    machine.at.place = here + 1;
    match op {
        Op::Block(t, q) => {
            enter_named(machine, inputs.m, *t, *q, here + 1);
            None
        }
        Op::Loop(_, q) => {
            let inner = named_by(inputs.m, machine.at, *q);
            machine.enter_block(0, here, inner);
            None
        }
        Op::Call(x) => call(machine, inputs, memory, answer, *x),
        Op::Plain(_) => unreachable!(),
        Op::If(t, first, second) => {
            let condition = machine.pop32();
            enter_arm(machine, inputs.m, *t, condition, *first, *second, here + 1);
            None
        }
        Op::CallIndirect(x) => { call_indirect(machine, inputs, memory, answer, *x) }
    }
}

// The next instruction, of whose place the machine is told only where the run may leave its sequence.
#[inline(always)]
fn execute(
    machine: &mut Machine,
    inputs: &Inputs,
    most: u32,
    memory: &mut Memory,
    globals: &mut [Val],
    answer: &mut AnswerBuf,
    ahead: Stretch<'_>,
) -> Step
    requires next { IsNext (sequence_at inputs.now.m.now machine.old) ahead }
    requires most { most ≡ pages_at_most inputs.now.m.now.memories inputs.now.limits.pages }
    requires runs { (frame : ℕ) × (r : ℕ → Ended) × IsRunnable inputs.now.m.now frame
        × Simulates inputs.now.m.now (terms_of inputs.now.limits inputs.now.request.now) frame (placed machine.old (place_of ahead))
        (store_of memory.old inputs.now.table.now globals.old answer.old) r }
    requires memory { IsMemory (room_for inputs.now.m.now.memories inputs.now.limits.pages) memory.old }
    ensures steps { (frame : ℕ) (r : ℕ → Ended) → IsRunnable inputs.now.m.now frame
        → Simulates inputs.now.m.now (terms_of inputs.now.limits inputs.now.request.now) frame (placed machine.old (place_of ahead.entry))
        (store_of memory.old inputs.now.table.now globals.old answer.old) r
        → SimulatesStep result inputs.now.m.now (terms_of inputs.now.limits inputs.now.request.now) frame
        (standing result (place_of ahead.entry + 1) machine.new) (store_of memory.new inputs.now.table.now globals.new answer.new) (paid r) }
    ensures room { KeepsRoom machine.old machine.new }
    ensures memory { IsMemory (room_for inputs.now.m.now.memories inputs.now.limits.pages) memory.new }
    ensures marks { MarksWithin inputs.now.m.now memory.old memory.new 2 }
    ensures globals { length globals.new ≡ length globals.old }
    ensures stays { result ≡ step.Stays → sequence_at inputs.now.m.now machine.new ≡ sequence_at inputs.now.m.now machine.old }
{
    let op = ahead.first();
    match op {
        Op::Plain(instr) => execute_plain(machine, inputs, most, memory, globals, instr, ahead),
        _ => {
            let here = ahead.place();
            machine.at.place = here;
            unless_trapped(execute_structured(machine, inputs, memory, answer, op))
        }
    }
}

// The next instruction, which is a plain one.
#[inline(always)]
fn execute_plain(
    machine: &mut Machine,
    inputs: &Inputs,
    most: u32,
    memory: &mut Memory,
    globals: &mut [Val],
    instr: &Instr,
    ahead: Stretch<'_>,
) -> Step
    requires next { IsNext (sequence_at inputs.now.m.now machine.old) ahead }
    requires most { most ≡ pages_at_most inputs.now.m.now.memories inputs.now.limits.pages }
    requires runs { (frame : ℕ) × (answer : List ℕ) × (r : ℕ → Ended) × IsRunnable inputs.now.m.now frame
        × HasFetched inputs.now.m.now (terms_of inputs.now.limits inputs.now.request.now) frame
        (placed machine.old (place_of ahead + 1)) (store_of memory.old inputs.now.table.now globals.old answer) (place_of ahead)
        (op.Plain instr.now) r }
    requires memory { IsMemory (room_for inputs.now.m.now.memories inputs.now.limits.pages) memory.old }
    ensures steps { (frame : ℕ) (answer : List ℕ) (r : ℕ → Ended) → IsRunnable inputs.now.m.now frame
        → HasFetched inputs.now.m.now (terms_of inputs.now.limits inputs.now.request.now) frame
        (placed machine.old (place_of ahead.entry + 1)) (store_of memory.old inputs.now.table.now globals.old answer) (place_of ahead.entry)
        (op.Plain instr.now) r
        → SimulatesStep result inputs.now.m.now (terms_of inputs.now.limits inputs.now.request.now) frame
        (standing result (place_of ahead.entry + 1) machine.new) (store_of memory.new inputs.now.table.now globals.new answer) (paid r) }
    ensures room { KeepsRoom machine.old machine.new }
    ensures memory { IsMemory (room_for inputs.now.m.now.memories inputs.now.limits.pages) memory.new }
    ensures marks { MarksWithin inputs.now.m.now memory.old memory.new 2 }
    ensures globals { length globals.new ≡ length globals.old }
    ensures stays { result ≡ step.Stays → sequence_at inputs.now.m.now machine.new ≡ sequence_at inputs.now.m.now machine.old }
{
    match machine.plain(most, memory, globals, instr) {
        Effect::Stays => Step::Stays,
        Effect::Traps(t) => Step::Traps(t),
        Effect::Jumps => {
            let here = ahead.place();
            machine.at.place = here + 1;
            jump(machine, inputs.m, instr)
        }
    }
}

// Does the next instruction. Gives the stretch that is next then, or how the run halts.
#[inline(always)]
fn turn<'m>(
    machine: &mut Machine,
    inputs: &Inputs<'m>,
    most: u32,
    memory: &mut Memory,
    globals: &mut [Val],
    answer: &mut AnswerBuf,
    ahead: Stretch<'m>,
) -> Result<Stretch<'m>, Halt>
    requires next { IsNext (sequence_at inputs.now.m.now machine.old) ahead }
    requires fits { fuel_of ahead < 2 ^ 64 }
    requires most { most ≡ pages_at_most inputs.now.m.now.memories inputs.now.limits.pages }
    requires runs { (frame : ℕ) × (r : ℕ → Ended) × IsRunnable inputs.now.m.now frame
        × Simulates inputs.now.m.now (terms_of inputs.now.limits inputs.now.request.now) frame (placed machine.old (place_of ahead))
        (store_of memory.old inputs.now.table.now globals.old answer.old) r }
    requires memory { IsMemory (room_for inputs.now.m.now.memories inputs.now.limits.pages) memory.old }
    ensures next { IfOk result (λ next. IsNext (sequence_at inputs.now.m.now machine.new) next) }
    ensures fuel { fuel_after result + 1 ≡ fuel_of ahead.entry }
    ensures steps { (frame : ℕ) (r : ℕ → Ended) → IsRunnable inputs.now.m.now frame
        → Simulates inputs.now.m.now (terms_of inputs.now.limits inputs.now.request.now) frame (placed machine.old (place_of ahead.entry))
        (store_of memory.old inputs.now.table.now globals.old answer.old) r
        → GoesOnAs result inputs.now.m.now (terms_of inputs.now.limits inputs.now.request.now) frame machine.new
        (store_of memory.new inputs.now.table.now globals.new answer.new) (fuel_of ahead.entry) r }
    ensures room { KeepsRoom machine.old machine.new }
    ensures memory { IsMemory (room_for inputs.now.m.now.memories inputs.now.limits.pages) memory.new }
    ensures marks { MarksWithin inputs.now.m.now memory.old memory.new 2 }
    ensures globals { length globals.new ≡ length globals.old }
{
    match execute(machine, inputs, most, memory, globals, answer, ahead) {
        Step::Stays => {
            let behind = ahead.rest();
            fetch(machine, inputs.m, behind)
        }
        Step::Continues => {
            let left = ahead.fuel_behind();
            let there = stretch_at(machine, inputs.m, left);
            fetch(machine, inputs.m, there)
        }
        Step::Finishes => {
            let left = ahead.fuel_behind();
            Err(Halt::Done(left))
        }
        Step::Traps(t) => {
            let left = ahead.fuel_behind();
            Err(Halt::Trapped(t, left))
        }
    }
}

// Runs to the end, to a trap, or to the end of the fuel.
pub(crate) fn advance(
    machine: &mut Machine,
    inputs: &Inputs,
    memory: &mut Memory,
    globals: &mut [Val],
    answer: &mut AnswerBuf,
    fuel: u64,
) -> Halt
    requires runs { (frame : ℕ) × (r : ℕ → Ended) × IsRunnable inputs.now.m.now frame
        × Simulates inputs.now.m.now (terms_of inputs.now.limits inputs.now.request.now) frame machine.old
        (store_of memory.old inputs.now.table.now globals.old answer.old) r }
    requires memory { IsMemory (room_for inputs.now.m.now.memories inputs.now.limits.pages) memory.old }
    ensures halts { (frame : ℕ) (r : ℕ → Ended) → IsRunnable inputs.now.m.now frame
        → Simulates inputs.now.m.now (terms_of inputs.now.limits inputs.now.request.now) frame machine.old
        (store_of memory.old inputs.now.table.now globals.old answer.old) r
        → HaltsAs result inputs.now.m.now (terms_of inputs.now.limits inputs.now.request.now) frame machine.new
        (store_of memory.new inputs.now.table.now globals.new answer.new) fuel r }
    ensures marked { (frame : ℕ) (r : ℕ → Ended) → IsRunnable inputs.now.m.now frame
        → Simulates inputs.now.m.now (terms_of inputs.now.limits inputs.now.request.now) frame machine.old
        (store_of memory.old inputs.now.table.now globals.old answer.old) r
        → AreMarkedBelow (fuel + 1) r memory.old memory.new }
    ensures left { left_of result ≤ fuel }
    ensures unspent { left_of result ≡ fuel → memory.new.marks.items ≡ memory.old.marks.items }
    ensures marks { MarksWithin inputs.now.m.now memory.old memory.new (2 * (fuel - left_of result)) }
    ensures room { KeepsRoom machine.old machine.new }
    ensures memory { IsMemory (room_for inputs.now.m.now.memories inputs.now.limits.pages) memory.new }
    ensures globals { length globals.new ≡ length globals.old }
{
    let most = most_pages(inputs.m, inputs.limits.pages);
    let first = stretch_at(machine, inputs.m, fuel);
    let mut ahead = match fetch(machine, inputs.m, first) {
        Ok(next) => next,
        Err(halt) => return halt,
    };
    'turns: loop {
        match turn(machine, inputs, most, memory, globals, answer, ahead) {
            Ok(next) => ahead = next,
            Err(halt) => return halt,
        }
    }
}
