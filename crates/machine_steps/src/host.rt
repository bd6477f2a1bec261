//! The functions of the host.
ghost use Rattle.std.specs.Prelude.{◌≡◌, ℕ, ◌+◌, ◌-◌, ◌<◌, ◌++◌, ◌^◌, List, Option, Some, None, length, nat_le, nat_lt, unwrap_or, vec_len, vec_capacity, if◌then◌else◌};
ghost use Rattle.wasm_values.specs.declared.outcome.Val.{Val as AVal};
ghost use Rattle.wasm_types.specs.declared.host.HostFunction.TheVariants as host;
ghost use Rattle.wasm_spec.specs.Store.{Store};
ghost use Rattle.wasm_spec.specs.Execution.{most_answer, part};
ghost use Rattle.linear_memory.specs.Bytes.{IsMemory, shown};
ghost use Rattle.linear_memory.specs.Marks.{MarksPart};
ghost use Rattle.machine_steps.specs.Lent.{store_of};
ghost use Rattle.machine_steps.specs.Accesses.{written_where};
ghost use Rattle.machine_steps.specs.HostSteps.{CallsHost, CanCallHost, IsHostReady};
ghost use Rattle.machine_steps.specs.StackLayout.{KeepsRoom};
ghost use Rattle.machine_steps.specs.WrittenParts.{MarksRead};

use crate::machine::Machine;
use call_payload::{AnswerBuf, read_part};
use linear_memory::Memory;
use wasm_types::HostFunction;
use wasm_values::TrapKind;

/// Bytes of a request to an address, and how many, if the whole of what is asked for lies in the memory.
pub fn copy_request(
    memory: &mut Memory,
    request: &[u8],
    to: u32,
    from: u32,
    count: u32,
) -> Option<u32>
    requires memory { (most : ℕ) × IsMemory most memory.old }
    requires short { length request.now < 2 ^ 32 }
    ensures count { result ≡ (if nat_le (to + count) (length (shown memory.old)) then Some (length (part request.now from count)) else None) }
    ensures after { shown memory.new ≡ written_where (nat_le (to + count) (length (shown memory.old))) (shown memory.old) to (part request.now from count) }
    ensures memory { (most : ℕ) → IsMemory most memory.old → IsMemory most memory.new }
    ensures marks { MarksPart memory.old memory.new to (unwrap_or result 0) }
{
    if !memory.holds(to as u64, count as u64) {
        return None;
    }
    let piece = read_part(request, from, count);
    memory.place(to as u64, piece);
    Some(piece.len() as u32)
}

/// So many bytes of memory onto an answer, if they lie in it: its length then, or -1 where it would be too long.
pub fn append_memory(memory: &Memory, answer: &mut AnswerBuf, from: u32, count: u32) -> Option<u32>
    requires { (most : ℕ) × IsMemory most memory.now }
    ensures count { result ≡ (if nat_le (from + count) (length (shown memory.now))
        then Some (if nat_lt most_answer (length answer.old + count) then 2 ^ 32 - 1 else length answer.old + count) else None) }
    ensures after { answer.new ≡ (if nat_le (from + count) (length (shown memory.now))
        then (if nat_lt most_answer (length answer.old + count) then answer.old else answer.old ++ part (shown memory.now) from count) else answer.old) }
{
    if !memory.holds(from as u64, count as u64) {
        return None;
    }
    match answer.append(memory.part(from as u64, count as u64)) {
        Ok(length) => Some(length),
        Err(_) => Some(u32::MAX),
    }
}

impl Machine {
    // Puts the length of the request on the top.
    fn request_len(&mut self, request: &[u8])
        requires free { length self.old.values.items < self.old.values.room }
        requires short { length request.now < 2 ^ 32 }
        ensures does { (store : Store) → CallsHost request.now host.Len self.old store None self.new store }
        ensures room { KeepsRoom self.old self.new }
    {
        self.push32(request.len() as u32);
    }

    // Bytes of the request into memory, where the three topmost operands say.
    fn read_request(&mut self, request: &[u8], memory: &mut Memory) -> Option<TrapKind>
        requires can { CanCallHost request.now host.Read self.old }
        requires memory { (most : ℕ) × IsMemory most memory.old }
        requires short { length request.now < 2 ^ 32 }
        ensures does { (table : List (Option ℕ)) (globals : List AVal) (answer : List ℕ)
            → CallsHost request.now host.Read self.old (store_of memory.old table globals answer) result self.new (store_of memory.new table globals answer) }
        ensures room { KeepsRoom self.old self.new }
        ensures memory { (most : ℕ) → IsMemory most memory.old → IsMemory most memory.new }
        ensures marks { MarksRead request.now host.Read self.old result memory.old memory.new }
    {
        let count = self.pop32();
        let from = self.pop32();
        let to = self.pop32();
        match copy_request(memory, request, to, from, count) {
            Some(n) => {
                self.push32(n);
                None
            }
            None => Some(TrapKind::Memory),
        }
    }

    // Bytes of memory onto the answer, as the two topmost operands say.
    fn write_answer(&mut self, memory: &Memory, answer: &mut AnswerBuf) -> Option<TrapKind>
        requires can { (request : List ℕ) × CanCallHost request host.Write self.old }
        requires memory { (most : ℕ) × IsMemory most memory.now }
        ensures does { (request : List ℕ) (table : List (Option ℕ)) (globals : List AVal)
            → CallsHost request host.Write self.old (store_of memory.now table globals answer.old) result self.new
            (store_of memory.now table globals answer.new) }
        ensures room { KeepsRoom self.old self.new }
    {
        let count = self.pop32();
        let from = self.pop32();
        match append_memory(memory, answer, from, count) {
            Some(n) => {
                self.push32(n);
                None
            }
            None => Some(TrapKind::Memory),
        }
    }

    /// A function of the host, in place of a body. Says why it traps, if it does.
    pub fn host(
        &mut self,
        function: HostFunction,
        request: &[u8],
        memory: &mut Memory,
        answer: &mut AnswerBuf,
    ) -> Option<TrapKind>
        requires can { CanCallHost request.now function self.old }
        requires ready { IsHostReady function self.old }
        requires memory { (most : ℕ) × IsMemory most memory.old }
        requires short { length request.now < 2 ^ 32 }
        ensures does { (table : List (Option ℕ)) (globals : List AVal)
            → CallsHost request.now function self.old (store_of memory.old table globals answer.old) result self.new
            (store_of memory.new table globals answer.new) }
        ensures room { KeepsRoom self.old self.new }
        ensures memory { (most : ℕ) → IsMemory most memory.old → IsMemory most memory.new }
        ensures marks { MarksRead request.now function self.old result memory.old memory.new }
    {
        match function {
            HostFunction::Len => {
                self.request_len(request);
                None
            }
            HostFunction::Read => self.read_request(request, memory),
            HostFunction::Write => self.write_answer(memory, answer),
        }
    }
}
