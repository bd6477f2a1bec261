//! The ways into a block.
ghost use Rattle.std.specs.Prelude.{◌<◌, length, vec_len, vec_capacity};
ghost use Rattle.machine_steps.specs.StackLayout.{KeepsRoom};
ghost use Rattle.wasm_machine.specs.Simulation.{OpensNamed, chosen_arm};

use crate::lookup::{named_by, value_count};
use machine_steps::Machine;
use wasm_types::{Module, ValType};

// Goes on in the sequence that the current one names by this number, and behind it at the place `after`.
#[inline(always)]
pub(crate) fn enter_named(
    machine: &mut Machine,
    m: &Module,
    t: Option<ValType>,
    number: usize,
    after: usize,
)
    requires there { machine.old.at.function < length m.now.functions }
    requires free { vec_len machine.old.labels < vec_capacity machine.old.labels }
    ensures opens { OpensNamed m.now t number after machine.old machine.new }
    ensures room { KeepsRoom machine.old machine.new }
{
    let inner = named_by(m, machine.at, number);
    machine.enter_block(value_count(t), after, inner);
}

// Goes on in the arm that a condition chooses. Each arm is entered by itself: of one number that is chosen of two, every step behind
// it would wait for the condition, where the processor can go on in the arm that it expects.
#[inline(always)]
pub(crate) fn enter_arm(
    machine: &mut Machine,
    m: &Module,
    t: Option<ValType>,
    condition: u32,
    first: usize,
    second: usize,
    after: usize,
)
    requires there { machine.old.at.function < length m.now.functions }
    requires free { vec_len machine.old.labels < vec_capacity machine.old.labels }
    ensures opens { OpensNamed m.now t (chosen_arm condition first second) after machine.old machine.new }
    ensures room { KeepsRoom machine.old machine.new }
{
    if condition == 0 {
        enter_named(machine, m, t, second, after);
    } else {
        enter_named(machine, m, t, first, after);
    }
}
