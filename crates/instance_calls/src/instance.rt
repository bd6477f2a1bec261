//! Instances of modules, in the slots that they were taken from.
ghost use Rattle.std.specs.Prelude.{◌≡◌, ◌+◌, ◌≤◌, ℕ, List, [], Some, length};
ghost use Rattle.pool_model.specs.declared.kinds.Kind.{Kind};
ghost use Rattle.paused_call.specs.Fuel.{LeavesFuel, fuel_left, left_in};
ghost use Rattle.paused_call.specs.Standing.{upto};
ghost use Rattle.instance_calls.specs.CallWords.{EndsAs, HasSliced, MayCall, comes_of, gives_of, kept_after};
ghost use Rattle.instance_calls.specs.Instances.{IsFreshInstance, KeepsSlots, instance_contents};
ghost use Rattle.instance_calls.specs.Paused.{IsPausedOn, WentOn};

use crate::parts::{begin_call, entries_of, limits_of, resume_with_memory, resume_without_memory};
use call_payload::{AnswerBuf, Call};
use instance_slots::Ticket;
use memory_slots::MemSlot;
use module_store::{LoadedModule, Naming};
use paused_call::{PausedCall, SliceEnd};
use slot_words::Lease;
use table_slots::TableSlot;
use wasm_machine::{RunEnd, RunInputs};
use wasm_values::Outcome;

/// What a call runs on: a ticket, and a memory and a table where its module has them. Each is a slot that was taken, and is given
/// back; one that is dropped stays held.
#[derive(Drop)]
pub struct Instance<N: Naming> {
    pub ticket: Lease<Ticket<N>>,
    pub memory: Option<Lease<MemSlot<N>>>,
    pub table: Option<Lease<TableSlot<N>>>,
}

// An answer is kept while the call goes on, and where it is done.
fn keep(turned: SliceEnd, answer: &mut AnswerBuf)
    ensures { answer.new ≡ kept_after turned answer.old }
{
    match turned {
        SliceEnd::Again | SliceEnd::Done(Outcome::Done(_)) => {}
        SliceEnd::Done(_) => answer.clear(),
    }
}

impl<N: Naming> Instance<N> {
    /// Makes a call of a function of the module on this instance of it, which is fresh: first the start function runs, if there is
    /// one, and if that ended well the function, on the call's fuel in all. Both read its request, and append to one answer, which has
    /// bytes afterwards only where the call is done. What is left of the fuel it tells as the machine's run does. It keeps its slots.
    /// Takes no memory.
    pub fn run(
        &mut self,
        loaded: &LoadedModule<'_, N>,
        function: u32,
        call: &Call<'_>,
        answer: &mut AnswerBuf,
    ) -> RunEnd
        requires call { MayCall loaded.now.module.now.tree call.now.export.now function call.now.args.now }
        requires fresh { IsFreshInstance N.config loaded.now.module.now.tree self.old }
        ensures went { WentOn N.config.pages loaded.now.module.now.tree (gives_of N.config loaded.now.module.now.tree function call.now) 0 call.now.fuel
            (instance_contents self.old) (instance_contents self.new) }
        ensures ends { EndsAs (gives_of N.config loaded.now.module.now.tree function call.now) call.now.fuel result.outcome answer.new }
        ensures left { left_in (gives_of N.config loaded.now.module.now.tree function call.now call.now.fuel) ≡ Some result.left }
        ensures slots { KeepsSlots self.old self.new }
    {
        answer.clear();
        let mut paused = self.begin(loaded, function, call);
        match self.resume(&mut paused, loaded, call.fuel, call.request, answer) {
            SliceEnd::Again => unreachable!(),
            SliceEnd::Done(outcome) => RunEnd {
                outcome,
                left: paused.left(),
            },
        }
    }

    /// A call of a function of the module on this instance of it, which is fresh, that has not begun. The ticket keeps the arguments.
    /// It keeps its slots. Takes no memory.
    pub fn begin(
        &mut self,
        loaded: &LoadedModule<'_, N>,
        function: u32,
        call: &Call<'_>,
    ) -> PausedCall
        requires call { MayCall loaded.now.module.now.tree call.now.export.now function call.now.args.now }
        requires fresh { IsFreshInstance N.config loaded.now.module.now.tree self.old }
        ensures paused { (request : List ℕ) → IsPausedOn N.config loaded.now.module.now request result [] self.new }
        ensures function { result.function ≡ function }
        ensures fuel { result.fuel ≡ call.now.fuel }
        ensures turns { result.turns ≡ 0 }
        ensures args { self.new.ticket.value.args ≡ call.now.args.now }
        ensures contents { (k : Kind) → instance_contents self.new k ≡ instance_contents self.old k }
        ensures slots { KeepsSlots self.old self.new }
    {
        let ticket = &mut self.ticket.value;
        begin_call(ticket, loaded.valid(), function, call)
    }

    /// Makes at most so many turns more of a call of the module that is paused on this instance. It reads the request that it was sent
    /// each time, and appends to one answer, which has bytes at its end only where it is done. It keeps its slots. Takes no memory.
    pub fn resume(
        &mut self,
        call: &mut PausedCall,
        loaded: &LoadedModule<'_, N>,
        slice: u64,
        request: &[u8],
        answer: &mut AnswerBuf,
    ) -> SliceEnd
        requires paused { IsPausedOn N.config loaded.now.module.now request.now call.old answer.old self.old }
        requires request { length request.now ≤ 65536 }
        ensures sliced { HasSliced
            (comes_of N.config loaded.now.module.now.tree request.now call.old.function self.old.ticket.value.args)
            call.old.fuel (call.old.turns + slice) result answer.new }
        ensures paused { result ≡ SliceEnd.Again → IsPausedOn N.config loaded.now.module.now request.now call.new answer.new self.new }
        ensures went { WentOn N.config.pages loaded.now.module.now.tree
            (comes_of N.config loaded.now.module.now.tree request.now call.old.function self.old.ticket.value.args)
            call.old.turns (upto call.old slice) (instance_contents self.old) (instance_contents self.new) }
        ensures left { LeavesFuel
            (comes_of N.config loaded.now.module.now.tree request.now call.old.function self.old.ticket.value.args)
            call.old.fuel result (fuel_left call.new) }
        ensures args { self.new.ticket.value.args ≡ self.old.ticket.value.args }
        ensures same { (call.new.function ≡ call.old.function) × (call.new.fuel ≡ call.old.fuel) }
        ensures turns { result ≡ SliceEnd.Again → call.new.turns ≡ call.old.turns + slice }
        ensures slots { KeepsSlots self.old self.new }
    {
        let limits = limits_of(loaded.store);
        let valid = loaded.valid();
        let table = entries_of(&self.table);
        let inputs = RunInputs {
            valid,
            limits,
            request,
            table,
        };
        let ticket = &mut self.ticket.value;
        match &mut self.memory {
            Some(memory) => {
                let memory = &mut memory.value;
                let turned = resume_with_memory(ticket, memory, &inputs, call, slice, answer);
                keep(turned, answer);
                turned
            }
            None => {
                let turned = resume_without_memory(ticket, &inputs, call, slice, answer);
                keep(turned, answer);
                turned
            }
        }
    }
}
