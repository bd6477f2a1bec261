//! Loads, stores and the memory's size.
ghost use Rattle.std.specs.Prelude.{◌≡◌, ◌≢◌, ℕ, ◌+◌, ◌<◌, ◌≤◌, ◌^◌, List, Option, None, Some, IfSome, if◌then◌else◌, nat_lt, not, length, vec_len, vec_capacity};
ghost use Rattle.std.specs.Int.{byte_len, to_le_bytes};
ghost use Rattle.wasm_values.specs.declared.outcome.Val.{Val as AVal};
ghost use Rattle.wasm_types.specs.declared.instr.Instr.TheVariants as instr;
ghost use Rattle.wasm_spec.specs.Execution.{Terms};
ghost use Rattle.wasm_types.specs.Tree.{ModuleTree};
ghost use Rattle.wasm_spec.specs.Typing.{number};
ghost use Rattle.wasm_spec.specs.Execution.{extended, value};
ghost use Rattle.wasm_spec.specs.Execution as execution;
ghost use Rattle.wasm_spec.specs.Operators.{bit_width, extend_s, int_width, wrap, pack_bits, pack_width};
ghost use Rattle.machine_steps.specs.StackLayout.{KeepsRoom};
ghost use Rattle.machine_steps.specs.InstructionKinds.{IsLoad, IsStoring, access_width, gives_width, loaded_as, address_offset, stored_as, takes_width};
ghost use Rattle.linear_memory.specs.Bytes.{IsMemory, shown};
ghost use Rattle.linear_memory.specs.Marks.{MarksPart};
ghost use Rattle.machine_steps.specs.Lent.{store_of};
ghost use Rattle.machine_steps.specs.Accesses.{loaded_at, written_where};
ghost use Rattle.machine_steps.specs.PlainSteps.{CanExecute, Executes};
ghost use Rattle.machine_steps.specs.WrittenParts.{MarksWritten};

use crate::cells::Cell;
use crate::machine::Machine;
use linear_memory::Memory;
use wasm_numeric::i64_extend_i32_s;
use wasm_types::{Instr, PackSize, Sign, Width};
use wasm_values::TrapKind;

// Signed numbers of 8, 16 and 32 bits in more.
fn i32_extend8_s(n: u8) -> u32
    ensures { result ≡ extend_s 8 32 n }
{
    i32::from(n.cast_signed()).cast_unsigned()
}

fn i32_extend16_s(n: u16) -> u32
    ensures { result ≡ extend_s 16 32 n }
{
    i32::from(n.cast_signed()).cast_unsigned()
}

fn i64_extend8_s(n: u8) -> u64
    ensures { result ≡ extend_s 8 64 n }
{
    i64::from(n.cast_signed()).cast_unsigned()
}

fn i64_extend16_s(n: u16) -> u64
    ensures { result ≡ extend_s 16 64 n }
{
    i64::from(n.cast_signed()).cast_unsigned()
}

// A signed number of so many bits in 32 bits.
fn extended32(size: PackSize, n: u32) -> u32
    requires { n < 2 ^ pack_bits size }
    ensures { result ≡ extend_s (pack_bits size) 32 n }
{
    match size {
        PackSize::Pack8 => i32_extend8_s(n as u8),
        PackSize::Pack16 => i32_extend16_s(n as u16),
        PackSize::Pack32 => n,
    }
}

// And in 64 bits.
fn extended64(size: PackSize, n: u32) -> u64
    requires { n < 2 ^ pack_bits size }
    ensures { result ≡ extend_s (pack_bits size) 64 n }
{
    match size {
        PackSize::Pack8 => i64_extend8_s(n as u8),
        PackSize::Pack16 => i64_extend16_s(n as u16),
        PackSize::Pack32 => i64_extend_i32_s(n),
    }
}

// A narrow number in a type.
fn widened(width: Width, size: PackSize, sign: Sign, n: u32) -> Cell
    requires { n < 2 ^ pack_bits size }
    ensures { result ≡ value width (extended (pack_bits size) (bit_width width) sign n) }
{
    match sign {
        Sign::Signed => match width {
            Width::W32 => Cell::of32(extended32(size, n)),
            Width::W64 => Cell::of64(extended64(size, n)),
        },
        Sign::Unsigned => match width {
            Width::W32 => Cell::of32(n),
            Width::W64 => Cell::of64(n as u64),
        },
    }
}

// The narrow number at an address, if its bytes lie in the memory.
fn narrow(memory: &Memory, size: PackSize, at: u64) -> Option<u32>
    requires { (most : ℕ) × IsMemory most memory.now }
    ensures is { result ≡ loaded_at (pack_width size) (λ n. n) (shown memory.now) at }
    ensures short { IfSome result (λ n. n < 2 ^ pack_bits size) }
{
    match size {
        PackSize::Pack8 => Some(memory.read8(at)? as u32),
        PackSize::Pack16 => Some(memory.read16(at)? as u32),
        PackSize::Pack32 => memory.read32(at),
    }
}

// The number at an address, if its bytes lie in the memory.
fn read_number(memory: &Memory, width: Width, at: u64) -> Option<Cell>
    requires { (most : ℕ) × IsMemory most memory.now }
    ensures { result ≡ loaded_at (int_width width) (value width) (shown memory.now) at }
{
    match width {
        Width::W32 => Some(Cell::of32(memory.read32(at)?)),
        Width::W64 => Some(Cell::of64(memory.read64(at)?)),
    }
}

// What a load gives, if its bytes lie in the memory.
fn load_value(memory: &Memory, instr: &Instr, at: u64) -> Option<Cell>
    requires kind { IsLoad instr.now }
    requires memory { (most : ℕ) × IsMemory most memory.now }
    ensures { result ≡ loaded_at (access_width instr.now) (λ n. value (gives_width instr.now) (loaded_as instr.now n)) (shown memory.now) at }
{
    match instr {
        Instr::Load(width, _) => read_number(memory, *width, at),
        Instr::LoadPacked(width, size, sign, _) => {
            Some(widened(*width, *size, *sign, narrow(memory, *size, at)?))
        }
        _ => unreachable!(),
    }
}

// Writes a number to an address, if its bytes fit the memory. Says whether they do.
fn write_number(memory: &mut Memory, width: Width, at: u64, v: Cell) -> bool
    requires number { number width v ≢ None }
    requires memory { (most : ℕ) × IsMemory most memory.old }
    ensures fits { result ≡ not (nat_lt (length (shown memory.old)) (at + byte_len (int_width width))) }
    ensures after { (n : ℕ) → number width v ≡ Some n
        → shown memory.new ≡ written_where result (shown memory.old) at (to_le_bytes (int_width width) n) }
    ensures memory { (most : ℕ) → IsMemory most memory.old → IsMemory most memory.new }
    ensures marks { MarksPart memory.old memory.new at (if result then byte_len (int_width width) else 0) }
{
    match width {
        Width::W32 => memory.write(at, &v.number32().to_le_bytes()),
        Width::W64 => memory.write(at, &v.number64().to_le_bytes()),
    }
}

// Writes the lowest bits of a number.
fn write_narrow(memory: &mut Memory, size: PackSize, at: u64, n: u64) -> bool
    requires { (most : ℕ) × IsMemory most memory.old }
    ensures fits { result ≡ not (nat_lt (length (shown memory.old)) (at + byte_len (pack_width size))) }
    ensures after { shown memory.new ≡ written_where result (shown memory.old) at (to_le_bytes (pack_width size) (wrap (pack_bits size) n)) }
    ensures memory { (most : ℕ) → IsMemory most memory.old → IsMemory most memory.new }
    ensures marks { MarksPart memory.old memory.new at (if result then byte_len (pack_width size) else 0) }
{
    match size {
        PackSize::Pack8 => memory.write(at, &((n % 0x100) as u8).to_le_bytes()),
        PackSize::Pack16 => memory.write(at, &((n % 0x1_0000) as u16).to_le_bytes()),
        PackSize::Pack32 => memory.write(at, &((n % 0x1_0000_0000) as u32).to_le_bytes()),
    }
}

// What a store writes, if its bytes fit the memory. Says whether they do.
fn store_value(memory: &mut Memory, instr: &Instr, at: u64, v: Cell) -> bool
    requires kind { IsStoring instr.now }
    requires number { number (takes_width instr.now) v ≢ None }
    requires memory { (most : ℕ) × IsMemory most memory.old }
    ensures fits { result ≡ not (nat_lt (length (shown memory.old)) (at + byte_len (access_width instr.now))) }
    ensures after { (n : ℕ) → number (takes_width instr.now) v ≡ Some n
        → shown memory.new ≡ written_where result (shown memory.old) at (to_le_bytes (access_width instr.now) (stored_as instr.now n)) }
    ensures memory { (most : ℕ) → IsMemory most memory.old → IsMemory most memory.new }
    ensures marks { MarksPart memory.old memory.new at (if result then byte_len (access_width instr.now) else 0) }
{
    match instr {
        Instr::Store(width, _) => write_number(memory, *width, at, v),
        Instr::StorePacked(_, size, _) => write_narrow(memory, *size, at, v.number()),
        _ => unreachable!(),
    }
}

impl Machine {
    // A load from the topmost operand and this offset.
    pub(crate) fn load(&mut self, memory: &Memory, instr: &Instr, offset: u32) -> Option<TrapKind>
        requires kind { IsLoad instr.now }
        requires offset { offset ≡ address_offset instr.now }
        requires can { CanExecute instr.now self.old }
        requires memory { (most : ℕ) × IsMemory most memory.now }
        ensures does { (m : ModuleTree) (limits : Terms) (table : List (Option ℕ)) (globals : List AVal) (answer : List ℕ)
            → Executes m limits instr.now self.old (store_of memory.now table globals answer) result self.new (store_of memory.now table globals answer) }
        ensures room { KeepsRoom self.old self.new }
    {
        let base = self.last32();
        match load_value(memory, instr, base as u64 + offset as u64) {
            Some(v) => {
                self.replace(v);
                None
            }
            None => Some(TrapKind::Memory),
        }
    }

    // A store of the topmost operand to the one under it and this offset.
    pub(crate) fn store(
        &mut self,
        memory: &mut Memory,
        instr: &Instr,
        offset: u32,
    ) -> Option<TrapKind>
        requires kind { IsStoring instr.now }
        requires offset { offset ≡ address_offset instr.now }
        requires can { CanExecute instr.now self.old }
        requires memory { (most : ℕ) × IsMemory most memory.old }
        ensures does { (m : ModuleTree) (limits : Terms) (table : List (Option ℕ)) (globals : List AVal) (answer : List ℕ)
            → Executes m limits instr.now self.old (store_of memory.old table globals answer) result self.new (store_of memory.new table globals answer) }
        ensures room { KeepsRoom self.old self.new }
        ensures memory { (most : ℕ) → IsMemory most memory.old → IsMemory most memory.new }
        ensures marks { MarksWritten instr.now self.old result memory.old memory.new }
    {
        let value = self.pop();
        let base = self.pop32();
        if store_value(memory, instr, base as u64 + offset as u64, value) {
            None
        } else {
            Some(TrapKind::Memory)
        }
    }

    // Puts the memory's size in pages on the top.
    pub(crate) fn memory_size(&mut self, memory: &Memory)
        requires free { length self.old.values.items < self.old.values.room }
        requires memory { (most : ℕ) × IsMemory most memory.now }
        ensures does { (m : ModuleTree) (limits : Terms) (table : List (Option ℕ)) (globals : List AVal) (answer : List ℕ)
            → Executes m limits instr.MemorySize self.old (store_of memory.now table globals answer) None self.new (store_of memory.now table globals answer) }
        ensures room { KeepsRoom self.old self.new }
    {
        self.push32(memory.pages);
    }

    // Grows the memory by as many pages as the topmost operand says, if there are then at most `most`.
    pub(crate) fn memory_grow(&mut self, memory: &mut Memory, most: u32)
        requires can { CanExecute instr.MemoryGrow self.old }
        requires memory { (limit : ℕ) × IsMemory limit memory.old × (most ≤ limit) }
        ensures does { (m : ModuleTree) (limits : Terms) (table : List (Option ℕ)) (globals : List AVal) (answer : List ℕ)
            → most ≡ execution.most_pages m.memories limits.pages
            → Executes m limits instr.MemoryGrow self.old (store_of memory.old table globals answer) None self.new (store_of memory.new table globals answer) }
        ensures room { KeepsRoom self.old self.new }
        ensures memory { (limit : ℕ) → most ≤ limit → IsMemory limit memory.old → IsMemory limit memory.new }
        ensures marks { MarksPart memory.old memory.new 0 0 }
    {
        let pages = self.pop32();
        let before = memory.grow(most, pages).unwrap_or(u32::MAX);
        self.push32(before);
    }
}
