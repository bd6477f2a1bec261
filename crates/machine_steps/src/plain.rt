//! The instructions that stay in their sequence.
ghost use Rattle.std.specs.Prelude.{◌≡◌, ◌≢◌, IsFalse, IsTrue, ℕ, ◌≤◌, List, Option, length};
ghost use Rattle.wasm_spec.specs.Execution.{Terms};
ghost use Rattle.wasm_types.specs.Tree.{ModuleTree};
ghost use Rattle.wasm_spec.specs.Execution.{most_pages};
ghost use Rattle.linear_memory.specs.Bytes.{IsMemory};
ghost use Rattle.machine_steps.specs.InstructionKinds.{jumps};
ghost use Rattle.machine_steps.specs.Lent.{store_of};
ghost use Rattle.machine_steps.specs.PlainSteps.{CanExecute, Executes, IsReady, effect_unless, trap_of};
ghost use Rattle.machine_steps.specs.declared.plain.Effect.TheVariants as effect;
ghost use Rattle.machine_steps.specs.StackLayout.{KeepsRoom};
ghost use Rattle.machine_steps.specs.WrittenParts.{MarksWritten};

use crate::cells::Cell;
use crate::machine::Machine;
use linear_memory::Memory;
use wasm_types::Instr;
use wasm_values::{TrapKind, Val};

/// What a plain instruction comes to: it stays in its sequence, traps, or may leave its sequence, and nothing was done yet.
#[derive(Clone, Copy, Debug, PartialEq, Eq)]
pub enum Effect {
    Stays,
    Traps(TrapKind),
    Jumps,
}

// What an instruction comes to that stays in its sequence, unless it traps.
#[inline(always)]
fn unless_trapped(trap: Option<TrapKind>) -> Effect
    ensures { result ≡ effect_unless trap }
{
    match trap {
        None => Effect::Stays,
        Some(t) => Effect::Traps(t),
    }
}

impl Machine {
    /// A plain instruction, where a memory may have `most` pages. One that may leave its sequence is not done: `Jumps`. The operands
    /// go with a run that comes to `unreachable`: an arm that does nothing would set its answer before the jump to any other.
    #[inline(always)]
    pub fn plain(
        &mut self,
        most: u32,
        memory: &mut Memory,
        globals: &mut [Val],
        instr: &Instr,
    ) -> Effect
        requires can { IsFalse (jumps instr.now) → CanExecute instr.now self.old }
        requires ready { IsFalse (jumps instr.now) → IsReady instr.now self.old globals.old }
        requires memory { (limit : ℕ) × IsMemory limit memory.old × (most ≤ limit) }
        ensures jumps { result ≡ effect.Jumps → IsTrue (jumps instr.now) × (self.new ≡ self.old) × (memory.new ≡ memory.old) × (globals.new ≡ globals.old) }
        ensures stays { result ≢ effect.Jumps → IsFalse (jumps instr.now) }
        ensures does { (m : ModuleTree) (limits : Terms) (table : List (Option ℕ)) (answer : List ℕ)
            → most ≡ most_pages m.memories limits.pages → IsFalse (jumps instr.now)
            → Executes m limits instr.now self.old (store_of memory.old table globals.old answer) (trap_of result) self.new
            (store_of memory.new table globals.new answer) }
        ensures room { KeepsRoom self.old self.new }
        ensures memory { (limit : ℕ) → most ≤ limit → IsMemory limit memory.old → IsMemory limit memory.new }
        ensures marks { MarksWritten instr.now self.old (trap_of result) memory.old memory.new }
        ensures globals { length globals.new ≡ length globals.old }
    {
        match instr {
            Instr::Br(_) | Instr::BrIf(_) | Instr::BrTable(..) | Instr::Return => {
                return Effect::Jumps;
            }
            Instr::Unreachable => {
                self.values.clear();
                return Effect::Traps(TrapKind::Unreachable);
            }
            Instr::Nop => {}
            Instr::Drop => _ = self.pop(),
            Instr::Select => self.select(),
            Instr::LocalGet(x) => self.get_local(*x),
            Instr::LocalSet(x) => self.set_local(*x),
            Instr::LocalTee(x) => self.tee_local(*x),
            Instr::GlobalGet(x) => self.get_global(globals, *x),
            Instr::GlobalSet(x) => self.set_global(globals, *x),
            Instr::Load(_, arg) | Instr::LoadPacked(_, _, _, arg) => {
                return unless_trapped(self.load(memory, instr, arg.offset));
            }
            Instr::Store(_, arg) | Instr::StorePacked(_, _, arg) => {
                return unless_trapped(self.store(memory, instr, arg.offset));
            }
            Instr::MemorySize => self.memory_size(memory),
            Instr::MemoryGrow => self.memory_grow(memory, most),
            Instr::MemoryCopy => return unless_trapped(self.memory_copy(memory)),
            Instr::MemoryFill => return unless_trapped(self.memory_fill(memory)),
            Instr::Const(v) => self.push(Cell::of(*v)),
            Instr::Eqz(_) | Instr::Unary(..) | Instr::Wrap | Instr::Extend(_) => {
                self.on_one(instr)
            }
            Instr::Compare(width, op) => {
                return unless_trapped(self.on_two(&Instr::Compare(*width, *op)));
            }
            Instr::Binary(width, op) => {
                return unless_trapped(self.on_two(&Instr::Binary(*width, *op)));
            }
            Instr::Float => unreachable!(),
        }
        Effect::Stays
    }
}
