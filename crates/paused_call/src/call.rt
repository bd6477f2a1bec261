//! A call in slices.
ghost use Rattle.std.specs.Prelude.{◌≡◌, ℕ, ◌+◌, ◌-◌, ◌*◌, ◌<◌, ◌≤◌, true, List, Some, length};
ghost use Rattle.wasm_values.specs.declared.outcome.Val.{Val as AVal};
ghost use Rattle.wasm_spec.specs.Execution.{Terms};
ghost use Rattle.wasm_spec.specs.Instances.{room_for};
ghost use Rattle.wasm_spec.specs.Result.{CallResult};
ghost use Rattle.wasm_spec.specs.Store.{Store};
ghost use Rattle.linear_memory.specs.Bytes.{IsMemory};
ghost use Rattle.memory_blocks.specs.Blocks.{KeepsUnmarked};
ghost use Rattle.wasm_machine.specs.Calls.{FitsFrame, IsCall, IsDone};
ghost use Rattle.wasm_machine.specs.Lent.{MarksWithin, others, run_store, run_terms};
ghost use Rattle.wasm_machine.specs.Resuming.{IsOutOfFuel};
ghost use Rattle.wasm_machine.specs.Room.{StacksView};
ghost use Rattle.wasm_machine.specs.TypedConfiguration.{IsTypedStore};
ghost use Rattle.paused_call.specs.Fuel.{LeavesFuel, fuel_left};
ghost use Rattle.paused_call.specs.Standing.{CanResume, HasTurned, Ran, Stands, Went, upto, whole};

use call_payload::AnswerBuf;
use wasm_machine::{Memory, RunEnd, RunInputs, Stacks};
use wasm_validate::Valid;
use wasm_values::{Outcome, Val};

/// How a slice of a call ended.
#[derive(Clone, Copy, Debug, PartialEq, Eq)]
pub enum SliceEnd {
    /// The call has more turns to make.
    Again,
    /// It is over, and ended so.
    Done(Outcome),
}

/// A call that is made in slices: the function that is called, the fuel of the call, and how many turns it has made. Its stacks,
/// memory, table, globals and answer are lent to each slice, and so are its arguments and its request.
#[derive(Clone, Copy, Debug, PartialEq, Eq)]
pub struct PausedCall {
    pub(crate) function: u32,
    pub(crate) fuel: u64,
    pub(crate) turns: u64,
    // Whether it is the start function that is at work, or is to be first.
    pub(crate) starts: bool,
    // Whether that function has begun, so that it stands in the stacks.
    pub(crate) entered: bool,
}

impl PausedCall {
    /// A call of a function of a valid module on so much fuel, which has not begun. Where the module has a start function, that runs
    /// first. Takes no memory.
    pub fn begin(valid: &Valid, function: u32, fuel: u64) -> PausedCall
        ensures stands { (limits : Terms) (args : List AVal) (stacks : StacksView) (store : Store) → IsCall valid.now function args
            → 0 < limits.depth → limits.depth ≤ stacks.room.depth → IsTypedStore valid.now store → Stands valid.now limits store args result stacks store }
        ensures function { result.function ≡ function }
        ensures fuel { result.fuel ≡ fuel }
        ensures turns { result.turns ≡ 0 }
    {
        PausedCall {
            function,
            fuel,
            turns: 0,
            starts: valid.module().start.is_some(),
            entered: false,
        }
    }

    /// The fuel that the turns so far have left. Of a call that is over it is what the call left. Takes no memory.
    pub fn left(&self) -> u64
        ensures { result ≡ fuel_left self.now }
    {
        self.fuel.saturating_sub(self.turns)
    }

    // Goes on with the function that is at work, on so much fuel, or begins the first. An import that is called makes no turn, so that
    // it has its effect here.
    fn advance(
        &self,
        args: &[Val],
        inputs: &RunInputs<'_>,
        fuel: u64,
        memory: &mut Memory,
        globals: &mut [Val],
        stacks: &mut Stacks,
        answer: &mut AnswerBuf,
    ) -> RunEnd
        requires stands { CanResume inputs.now.valid.now (run_terms inputs.now) args.now self.now stacks.old
            (run_store inputs.now memory.old globals.old answer.old) }
        requires frame { FitsFrame inputs.now.valid.now stacks.old.room.frame }
        requires memory { IsMemory (room_for inputs.now.valid.now.memories inputs.now.limits.pages) memory.old }
        ensures ran { (begun : Store)
            → Stands inputs.now.valid.now (run_terms inputs.now) begun args.now self.now stacks.old (run_store inputs.now memory.old globals.old answer.old)
            → Ran inputs.now.valid.now (run_terms inputs.now) begun args.now self.now fuel memory.old memory.new stacks.new
            (record { outcome = result.outcome; store = run_store inputs.now memory.new globals.new answer.new; fuel = result.left }) }
        ensures left { result.left ≤ fuel }
        ensures store { IsDone result.outcome → IsTypedStore inputs.now.valid.now (run_store inputs.now memory.new globals.new answer.new) }
        ensures still { IsOutOfFuel result.outcome → result.left ≡ fuel → memory.new.marks.items ≡ memory.old.marks.items }
        ensures start_still { self.now.starts ≡ true → result.left ≡ fuel → memory.new.marks.items ≡ memory.old.marks.items }
        ensures marks { MarksWithin inputs.now.valid.now memory.old memory.new (2 * (fuel - result.left)) }
        ensures memory { IsMemory (room_for inputs.now.valid.now.memories inputs.now.limits.pages) memory.new }
        ensures globals { length globals.new ≡ length globals.old }
        ensures others { others inputs.now.valid.now globals.new ≡ others inputs.now.valid.now globals.old }
        ensures stacks { stacks.new.room ≡ stacks.old.room }
    {
        if self.entered {
            return stacks.advance(inputs, fuel, memory, globals, answer);
        }
        match inputs.valid.module().start {
            Some(start) => stacks.invoke(inputs, start, &[], fuel, memory, globals, answer),
            None => stacks.invoke(inputs, self.function, args, fuel, memory, globals, answer),
        }
    }

    // Goes on, on so much of the fuel that is left. Where the start function ends well the export follows.
    fn go_on(
        &mut self,
        args: &[Val],
        inputs: &RunInputs<'_>,
        fuel: u64,
        memory: &mut Memory,
        globals: &mut [Val],
        stacks: &mut Stacks,
        answer: &mut AnswerBuf,
    ) -> RunEnd
        requires stands { CanResume inputs.now.valid.now (run_terms inputs.now) args.now self.old stacks.old
            (run_store inputs.now memory.old globals.old answer.old) }
        requires fuel { self.old.turns + fuel ≤ self.old.fuel }
        requires frame { FitsFrame inputs.now.valid.now stacks.old.room.frame }
        requires memory { IsMemory (room_for inputs.now.valid.now.memories inputs.now.limits.pages) memory.old }
        ensures result { (begun : Store)
            → Stands inputs.now.valid.now (run_terms inputs.now) begun args.now self.old stacks.old (run_store inputs.now memory.old globals.old answer.old)
            → whole inputs.now.valid.now (run_terms inputs.now) self.old args.now begun (self.old.turns + fuel)
            ≡ Some (record { outcome = result.outcome; store = run_store inputs.now memory.new globals.new answer.new; fuel = result.left }) }
        ensures left { result.left ≤ fuel }
        ensures stands { IsOutOfFuel result.outcome → (begun : Store)
            → Stands inputs.now.valid.now (run_terms inputs.now) begun args.now self.old stacks.old (run_store inputs.now memory.old globals.old answer.old)
            → Stands inputs.now.valid.now (run_terms inputs.now) begun args.now (record self.new { turns = self.old.turns + fuel }) stacks.new
            (run_store inputs.now memory.new globals.new answer.new) }
        ensures marked { (begun : Store)
            → Stands inputs.now.valid.now (run_terms inputs.now) begun args.now self.old stacks.old (run_store inputs.now memory.old globals.old answer.old)
            → (turns : ℕ) (x : CallResult) → self.old.turns ≤ turns → turns ≤ self.old.turns + fuel
            → whole inputs.now.valid.now (run_terms inputs.now) self.old args.now begun turns ≡ Some x
            → KeepsUnmarked memory.old.bytes.items x.store.memory memory.old.marks.items memory.new.marks.items }
        ensures still { IsOutOfFuel result.outcome → fuel ≡ 0 → memory.new.marks.items ≡ memory.old.marks.items }
        ensures marks { MarksWithin inputs.now.valid.now memory.old memory.new (2 * (fuel - result.left)) }
        ensures call { self.new ≡ record self.old { starts = self.new.starts; entered = self.new.entered } }
        ensures memory { IsMemory (room_for inputs.now.valid.now.memories inputs.now.limits.pages) memory.new }
        ensures globals { length globals.new ≡ length globals.old }
        ensures others { others inputs.now.valid.now globals.new ≡ others inputs.now.valid.now globals.old }
        ensures stacks { stacks.new.room ≡ stacks.old.room }
    {
        let end = self.advance(args, inputs, fuel, memory, globals, stacks, answer);
        self.entered = true;
        if !self.starts {
            return end;
        }
        let Outcome::Done(_) = end.outcome else {
            return end;
        };
        self.starts = false;
        stacks.invoke(
            inputs,
            self.function,
            args,
            end.left,
            memory,
            globals,
            answer,
        )
    }

    /// Makes at most `slice` turns more, over parts that are lent as to [`wasm_machine::run`]: those that the call left, and the request
    /// that it has been given each time. So in whatever slices it is made, it is answered as if it ran at once. Takes no memory.
    ///
    /// It is to be resumed again exactly where it still has turns to make after so many more, and fuel for one. A call of an import
    /// makes none: it is over after its first slice, of whatever length.
    pub fn resume(
        &mut self,
        args: &[Val],
        inputs: &RunInputs<'_>,
        slice: u64,
        memory: &mut Memory,
        globals: &mut [Val],
        stacks: &mut Stacks,
        answer: &mut AnswerBuf,
    ) -> SliceEnd
        requires stands { CanResume inputs.now.valid.now (run_terms inputs.now) args.now self.old stacks.old
            (run_store inputs.now memory.old globals.old answer.old) }
        requires frame { FitsFrame inputs.now.valid.now stacks.old.room.frame }
        requires memory { IsMemory (room_for inputs.now.valid.now.memories inputs.now.limits.pages) memory.old }
        ensures turned { (begun : Store)
            → Stands inputs.now.valid.now (run_terms inputs.now) begun args.now self.old stacks.old (run_store inputs.now memory.old globals.old answer.old)
            → HasTurned (whole inputs.now.valid.now (run_terms inputs.now) self.old args.now begun) self.old slice
            (run_store inputs.now memory.new globals.new answer.new) result }
        ensures stands { result ≡ SliceEnd.Again → (begun : Store)
            → Stands inputs.now.valid.now (run_terms inputs.now) begun args.now self.old stacks.old (run_store inputs.now memory.old globals.old answer.old)
            → Stands inputs.now.valid.now (run_terms inputs.now) begun args.now self.new stacks.new
            (run_store inputs.now memory.new globals.new answer.new) }
        ensures went { (begun : Store)
            → Stands inputs.now.valid.now (run_terms inputs.now) begun args.now self.old stacks.old (run_store inputs.now memory.old globals.old answer.old)
            → Went inputs.now.valid.now (whole inputs.now.valid.now (run_terms inputs.now) self.old args.now begun) self.old.turns (upto self.old slice)
            memory.old memory.new (run_store inputs.now memory.new globals.new answer.new) }
        ensures left { (begun : Store)
            → Stands inputs.now.valid.now (run_terms inputs.now) begun args.now self.old stacks.old (run_store inputs.now memory.old globals.old answer.old)
            → LeavesFuel (whole inputs.now.valid.now (run_terms inputs.now) self.old args.now begun) self.old.fuel result (fuel_left self.new) }
        ensures same { (self.new.function ≡ self.old.function) × (self.new.fuel ≡ self.old.fuel) }
        ensures turns { result ≡ SliceEnd.Again → self.new.turns ≡ self.old.turns + slice }
        ensures memory { IsMemory (room_for inputs.now.valid.now.memories inputs.now.limits.pages) memory.new }
        ensures globals { length globals.new ≡ length globals.old }
        ensures others { others inputs.now.valid.now globals.new ≡ others inputs.now.valid.now globals.old }
        ensures stacks { stacks.new.room ≡ stacks.old.room }
    {
        let most = self.fuel - self.turns;
        if slice < most {
            let end = self.go_on(args, inputs, slice, memory, globals, stacks, answer);
            match end.outcome {
                Outcome::Fuel => {
                    self.turns += slice;
                    SliceEnd::Again
                }
                _ => {
                    self.turns += slice - end.left;
                    SliceEnd::Done(end.outcome)
                }
            }
        } else {
            let end = self.go_on(args, inputs, most, memory, globals, stacks, answer);
            self.turns += most - end.left;
            SliceEnd::Done(end.outcome)
        }
    }
}
