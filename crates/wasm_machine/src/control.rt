//! The ways out of a sequence: its end, a branch and a return.
ghost use Rattle.std.specs.Prelude.{◌≡◌, ◌≢◌, ℕ, ◌<◌, IsFalse, IsTrue};
ghost use Rattle.wasm_machine.specs.declared.interpreter.Step.TheVariants as step;
ghost use Rattle.wasm_types.specs.declared.instr.Instr.TheVariants as instr;
ghost use Rattle.wasm_types.specs.declared.instr.Op.TheVariants as op;
ghost use Rattle.wasm_spec.specs.Execution.{Terms, Ended};
ghost use Rattle.wasm_spec.specs.Store.{Store};
ghost use Rattle.machine_steps.specs.StackLayout.{KeepsRoom};
ghost use Rattle.wasm_machine.specs.Simulation.{AtEnd, ByReturn, HasFetched, CanExit, CanExecuteNext, paid, SimulatesExit, SimulatesStep, SimulatesUnlessOver, ToLabel, depth_of, step_unless_over};
ghost use Rattle.machine_steps.specs.InstructionKinds.{jumps};

use crate::interpreter::Step;
use crate::lookup::{label_at, result_count};
use machine_steps::Machine;
use wasm_types::{Instr, Module};

// Ends the current function: its results are left for the caller. Says whether the run is over.
#[inline(always)]
pub(crate) fn return_from_function(machine: &mut Machine, m: &Module) -> bool
    requires { CanExit ByReturn m.now machine.old }
    ensures steps { (limits : Terms) (frame : ℕ) (store : Store) (r : ℕ → Ended)
        → SimulatesExit ByReturn m.now limits frame machine.old store r → SimulatesUnlessOver result m.now limits frame machine.new store r }
    ensures room { KeepsRoom machine.old machine.new }
    ensures falls { IsFalse result → depth_of machine.new < depth_of machine.old }
{
    let count = result_count(m, machine.at.function);
    machine.values.keep(count, machine.at.locals);
    machine.labels.truncate(machine.at.labels);
    match machine.frames.pop() {
        Some(frame) => {
            machine.at = frame.position();
            false
        }
        None => true,
    }
}

// Goes on at the label l, counted from the innermost; the outermost is the function's own. Says whether the run is over.
#[inline(always)]
pub(crate) fn branch(machine: &mut Machine, m: &Module, l: usize) -> bool
    requires { CanExit (ToLabel l) m.now machine.old }
    ensures steps { (limits : Terms) (frame : ℕ) (store : Store) (r : ℕ → Ended)
        → SimulatesExit (ToLabel l) m.now limits frame machine.old store r → SimulatesUnlessOver result m.now limits frame machine.new store r }
    ensures room { KeepsRoom machine.old machine.new }
{
    let count = machine.labels.len();
    if l < count - machine.at.labels {
        let index = count - 1 - l;
        let label = machine.labels[index];
        machine.labels.truncate(index);
        machine.values.keep(label.arity, label.base);
        machine.at.sequence = label.sequence;
        machine.at.place = label.target;
        false
    } else {
        return_from_function(machine, m)
    }
}

// The end of a sequence: of an open block, or of the function. Says whether the run is over.
pub(crate) fn end_sequence(machine: &mut Machine, m: &Module) -> bool
    requires { CanExit AtEnd m.now machine.old }
    ensures steps { (limits : Terms) (frame : ℕ) (store : Store) (r : ℕ → Ended)
        → SimulatesExit AtEnd m.now limits frame machine.old store r → SimulatesUnlessOver result m.now limits frame machine.new store r }
    ensures room { KeepsRoom machine.old machine.new }
    ensures falls { IsFalse result → depth_of machine.new < depth_of machine.old }
{
    if machine.labels.len() == machine.at.labels {
        return return_from_function(machine, m);
    }
    match machine.labels.pop() {
        Some(label) => {
            machine.at.sequence = label.sequence;
            machine.at.place = label.after;
            false
        }
        None => unreachable!(),
    }
}

// Whether a run is over.
#[inline(always)]
fn unless_over(over: bool) -> Step
    ensures is { result ≡ step_unless_over over }
    ensures moves { result ≢ step.Stays }
{
    if over {
        Step::Finishes
    } else {
        Step::Continues
    }
}

// A branch to the label l where the topmost operand is not 0. Where it is, the run stays in its sequence.
#[inline(always)]
pub(crate) fn branch_if(machine: &mut Machine, m: &Module, l: usize) -> Step
    requires { CanExecuteNext m.now (op.Plain (instr.BrIf l)) machine.old }
    ensures steps { (limits : Terms) (frame : ℕ) (store : Store) (here : ℕ) (r : ℕ → Ended)
        → HasFetched m.now limits frame machine.old store here (op.Plain (instr.BrIf l)) r
        → SimulatesStep result m.now limits frame machine.new store (paid r) }
    ensures room { KeepsRoom machine.old machine.new }
    ensures stays { result ≡ step.Stays → machine.new.at ≡ machine.old.at }
{
    let n = machine.pop32();
    if n == 0 {
        Step::Stays
    } else {
        unless_over(branch(machine, m, l))
    }
}

// A branch to the label that the topmost operand chooses of these, or else to the last one. Says whether the run is over.
pub(crate) fn branch_by_table(machine: &mut Machine, m: &Module, labels: &[u32], last: u32) -> bool
    requires { CanExecuteNext m.now (op.Plain (instr.BrTable labels.now last)) machine.old }
    ensures steps { (limits : Terms) (frame : ℕ) (store : Store) (here : ℕ) (r : ℕ → Ended)
        → HasFetched m.now limits frame machine.old store here (op.Plain (instr.BrTable labels.now last)) r
        → SimulatesUnlessOver result m.now limits frame machine.new store (paid r) }
    ensures room { KeepsRoom machine.old machine.new }
{
    let n = machine.pop32();
    branch(machine, m, label_at(labels, n, last) as usize)
}

// An instruction that may leave its sequence.
pub(crate) fn jump(machine: &mut Machine, m: &Module, instr: &Instr) -> Step
    requires kind { IsTrue (jumps instr.now) }
    requires can { CanExecuteNext m.now (op.Plain instr.now) machine.old }
    ensures steps { (limits : Terms) (frame : ℕ) (store : Store) (here : ℕ) (r : ℕ → Ended)
        → HasFetched m.now limits frame machine.old store here (op.Plain instr.now) r
        → SimulatesStep result m.now limits frame machine.new store (paid r) }
    ensures room { KeepsRoom machine.old machine.new }
    ensures stays { result ≡ step.Stays → machine.new.at ≡ machine.old.at }
{
    match instr {
        Instr::Br(l) => unless_over(branch(machine, m, *l as usize)),
        Instr::BrIf(l) => branch_if(machine, m, *l as usize),
        Instr::BrTable(labels, last) => {
            unless_over(branch_by_table(machine, m, labels.as_slice(), *last))
        }
        Instr::Return => unless_over(return_from_function(machine, m)),
        _ => unreachable!(),
    }
}
