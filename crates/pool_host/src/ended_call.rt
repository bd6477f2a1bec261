//! Calls that have made their last slice, and what they leave in their slots.
ghost use Rattle.std.specs.Prelude.{◌≡◌, [], Some};
ghost use Rattle.pool_model.specs.Contents.{Named};
ghost use Rattle.pool_model.specs.declared.kinds.Kind.{Kind};
ghost use Rattle.paused_call.specs.Fuel.{fuel_left, left_in};
ghost use Rattle.instance_calls.specs.CallWords.{EndsAs, MayCall, gives_of};
ghost use Rattle.instance_calls.specs.Instances.{IsFreshInstance, KeepsSlots, instance_contents, left_by};
ghost use Rattle.instance_calls.specs.Paused.{WentOn};
ghost use Rattle.instance_calls.specs.PausedViews.{contents_in};
ghost use Rattle.instance_calls.specs.Resumed.{HasResumed, HasSlotsOf, SlotsBelong};
ghost use Rattle.pool_host.specs.Counting.{KeepsCounts};
ghost use Rattle.pool_host.specs.Ending.{resumed_of};
ghost use Rattle.pool_host.specs.Hosts.{AreIdle, ArePassesOf, AreSamePasses};
ghost use Rattle.pool_host.specs.Taking.{GaveSlots, HaveSlots};

use crate::host::Host;
use crate::passes::Passes;
use crate::slots::{give_memory, give_table, give_ticket};
use call_payload::{AnswerBuf, Call};
use instance_calls::{Instance, LeftInstance, PausedInstance, Resumed};
use module_store::{LoadedModule, ModuleStore, Naming};
use wasm_machine::RunEnd;

// The slots of a call that is over, as it left them. What lies in them is had by nobody else, and they can only be given back.
#[derive(Drop)]
pub(crate) struct EndedCall<N: Naming> {
    instance: LeftInstance<N>,
}

// What a slice of a call came to.
#[derive(Drop)]
pub(crate) enum Sliced<N: Naming> {
    // The call has more turns to make, and fuel for one.
    Again(PausedInstance<N>),
    // It is over, ended so, and left so much of its fuel.
    Done(RunEnd, EndedCall<N>, AnswerBuf),
}

impl<N: Naming> EndedCall<N> {
    // Makes a call of a function of the module on a fresh instance of it.
    pub(crate) fn run(
        mut instance: Instance<N>,
        loaded: &LoadedModule<'_, N>,
        function: u32,
        call: &Call<'_>,
        said: &mut AnswerBuf,
    ) -> (RunEnd, EndedCall<N>)
        requires call { MayCall loaded.now.module.now.tree call.now.export.now function call.now.args.now }
        requires fresh { IsFreshInstance N.config loaded.now.module.now.tree instance }
        ensures went { WentOn N.config.pages loaded.now.module.now.tree (gives_of N.config loaded.now.module.now.tree function call.now)
            0 call.now.fuel (instance_contents instance) (instance_contents (left_by result.1.instance)) }
        ensures ends { EndsAs (gives_of N.config loaded.now.module.now.tree function call.now) call.now.fuel result.0.outcome said.new }
        ensures left { left_in (gives_of N.config loaded.now.module.now.tree function call.now call.now.fuel) ≡ Some result.0.left }
        ensures slots { KeepsSlots instance (left_by result.1.instance) }
    {
        let end = instance.run(loaded, function, call, said);
        let instance = LeftInstance::of(instance);
        (end, EndedCall { instance })
    }

    // Makes at most so many turns more of a call.
    pub(crate) fn resume(
        running: PausedInstance<N>,
        store: &ModuleStore<N>,
        slice: u64,
    ) -> Sliced<N>
        ensures { HasResumed N.config running slice (resumed_of result) }
    {
        match running.resume(store, slice) {
            Resumed::Again(running) => Sliced::Again(running),
            Resumed::Done(end, instance, answer) => {
                let instance = LeftInstance::of(instance);
                Sliced::Done(end, EndedCall { instance }, answer)
            }
        }
    }

    // Gives a call up, where its last slice left it, and tells what its turns so far have left of its fuel.
    pub(crate) fn give_up(running: PausedInstance<N>) -> (EndedCall<N>, AnswerBuf, u64)
        ensures slots { HasSlotsOf (left_by result.0.instance) running }
        ensures belongs { SlotsBelong running }
        ensures contents { (k : Kind) → instance_contents (left_by result.0.instance) k ≡ contents_in running k }
        ensures answer { result.1 ≡ [] }
        ensures left { result.2 ≡ fuel_left running.call }
    {
        let left = running.left();
        let (instance, answer) = running.give_up();
        let instance = LeftInstance::of(instance);
        (EndedCall { instance }, answer, left)
    }

    // Gives the slots back, as they are, in the reverse order of their takes.
    pub(crate) fn give(self, host: &Host<N>, passes: &mut Passes<N>, store: &ModuleStore<N>)
        requires own { ArePassesOf host.now passes.old }
        requires have { (m : Named) × HaveSlots host.now m passes.old (left_by self.instance) }
        ensures same { AreSamePasses passes.old passes.new }
        ensures idle { AreIdle passes.new }
        ensures gave { (m : Named) → HaveSlots host.now m passes.old (left_by self.instance)
            → GaveSlots N.config host.now m passes.old passes.new (left_by self.instance) }
        ensures counted { KeepsCounts N.config.batch passes.old passes.new }
    {
        let EndedCall {
            instance: LeftInstance {
                ticket,
                memory,
                table,
            },
        } = self;
        give_table(host, passes, store, table);
        give_memory(host, passes, store, memory);
        give_ticket(host, passes, store, ticket);
    }
}
