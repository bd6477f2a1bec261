//! Copies and fills of the memory.
ghost use Rattle.std.specs.Prelude.{◌≡◌, ℕ, List, Option};
ghost use Rattle.wasm_values.specs.declared.outcome.Val.{Val as AVal};
ghost use Rattle.wasm_types.specs.declared.instr.Instr.TheVariants as instr;
ghost use Rattle.wasm_types.specs.Tree.{ModuleTree};
ghost use Rattle.wasm_spec.specs.Execution.{Terms};
ghost use Rattle.machine_steps.specs.StackLayout.{KeepsRoom};
ghost use Rattle.linear_memory.specs.Bytes.{IsMemory};
ghost use Rattle.machine_steps.specs.Lent.{store_of};
ghost use Rattle.machine_steps.specs.PlainSteps.{CanExecute, Executes, trap_unless};
ghost use Rattle.machine_steps.specs.WrittenParts.{MarksWritten};

use crate::machine::Machine;
use linear_memory::Memory;
use wasm_values::TrapKind;

// The trap of an access, unless it was within the memory.
fn unless_within(within: bool) -> Option<TrapKind>
    ensures { result ≡ trap_unless within }
{
    if within { None } else { Some(TrapKind::Memory) }
}

impl Machine {
    // Copies bytes: the topmost three operands are how many, from where, and to where.
    pub(crate) fn memory_copy(&mut self, memory: &mut Memory) -> Option<TrapKind>
        requires can { CanExecute instr.MemoryCopy self.old }
        requires memory { (most : ℕ) × IsMemory most memory.old }
        ensures does { (m : ModuleTree) (limits : Terms) (table : List (Option ℕ)) (globals : List AVal) (answer : List ℕ)
            → Executes m limits instr.MemoryCopy self.old (store_of memory.old table globals answer) result self.new
            (store_of memory.new table globals answer) }
        ensures room { KeepsRoom self.old self.new }
        ensures memory { (most : ℕ) → IsMemory most memory.old → IsMemory most memory.new }
        ensures marks { MarksWritten instr.MemoryCopy self.old result memory.old memory.new }
    {
        let count = self.pop32();
        let from = self.pop32();
        let to = self.pop32();
        unless_within(memory.copy(to as u64, from as u64, count as u64))
    }

    // Fills bytes: the topmost three operands are how many, with what, and to where.
    pub(crate) fn memory_fill(&mut self, memory: &mut Memory) -> Option<TrapKind>
        requires can { CanExecute instr.MemoryFill self.old }
        requires memory { (most : ℕ) × IsMemory most memory.old }
        ensures does { (m : ModuleTree) (limits : Terms) (table : List (Option ℕ)) (globals : List AVal) (answer : List ℕ)
            → Executes m limits instr.MemoryFill self.old (store_of memory.old table globals answer) result self.new
            (store_of memory.new table globals answer) }
        ensures room { KeepsRoom self.old self.new }
        ensures memory { (most : ℕ) → IsMemory most memory.old → IsMemory most memory.new }
        ensures marks { MarksWritten instr.MemoryFill self.old result memory.old memory.new }
    {
        let count = self.pop32();
        let value = self.pop32();
        let to = self.pop32();
        unless_within(memory.fill(to as u64, (value % 0x100) as u8, count as u64))
    }
}
