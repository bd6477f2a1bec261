//! A call that is paused on an instance, with its module.
ghost use Rattle.std.specs.Prelude.{◌≡◌, []};
ghost use Rattle.pool_model.specs.declared.kinds.Kind.{Kind};
ghost use Rattle.paused_call.specs.Fuel.{fuel_left};
ghost use Rattle.instance_calls.specs.CallWords.{MayCall};
ghost use Rattle.instance_calls.specs.Instances.{IsFreshInstance, instance_contents};
ghost use Rattle.instance_calls.specs.Parts.{BelongsTo, memory_slot, table_slot};
ghost use Rattle.instance_calls.specs.PausedViews.{contents_in};
ghost use Rattle.instance_calls.specs.Resumed.{HasResumed, HasSlotsOf, IsBegun, SlotsBelong};

use crate::instance::Instance;
use call_payload::{AnswerBuf, Call};
use module_store::{LoadedModule, ModuleRef, ModuleStore, Naming};
use paused_call::{PausedCall, SliceEnd};
use std::marker::Model;
use wasm_machine::RunEnd;

/// A call of a module that is paused on an instance of it, with what it has answered so far. It was sent no bytes. Its slots and that
/// answer show what a fresh instance has after as many turns, by its type.
#[derive(Drop)]
pub struct PausedInstance<N: Naming> {
    instance: Instance<N>,
    module: ModuleRef<N>,
    call: PausedCall,
    answer: AnswerBuf,
}

impl<N: Naming> Model for PausedInstance<N> {
    ghost use Rattle.instance_calls.specs.PausedViews.{PausedView, coded_paused};

    ghost Value = { PausedView };

    ghost coded = { coded_paused };

    ghost use Rattle.instance_calls.specs.PausedInstances.{IsPausedInstance, paused_view};

    ghost view = { λ p. paused_view p.instance p.module p.call p.answer };

    ghost invariant = { λ p. IsPausedInstance N.config p.instance p.module p.call p.answer };
}

/// What a slice of a call came to.
#[derive(Drop)]
pub enum Resumed<N: Naming> {
    /// The call has more turns to make, and fuel for one.
    Again(PausedInstance<N>),
    /// It is over, ended so, and left so much of its fuel. The answer has bytes only where the call is done.
    Done(RunEnd, Instance<N>, AnswerBuf),
}

impl<N: Naming> PausedInstance<N> {
    /// A call of a function of the module on an instance of it, which is fresh, that has not begun. Takes no memory.
    pub fn begin(
        mut instance: Instance<N>,
        loaded: &LoadedModule<'_, N>,
        function: u32,
        call: &Call<'_>,
        answer: AnswerBuf,
    ) -> PausedInstance<N>
        requires call { MayCall loaded.now.module.now.tree call.now.export.now function call.now.args.now }
        requires unsent { call.now.request.now ≡ [] }
        requires fresh { IsFreshInstance N.config loaded.now.module.now.tree instance }
        requires memory { BelongsTo loaded.now.module.now (memory_slot instance.memory) }
        requires table { BelongsTo loaded.now.module.now (table_slot instance.table) }
        requires none { answer ≡ [] }
        ensures begun { IsBegun loaded.now.module.now function call.now.args.now call.now.fuel result }
        ensures belongs { SlotsBelong result }
        ensures slots { HasSlotsOf instance result }
        ensures contents { (k : Kind) → contents_in result k ≡ instance_contents instance k }
    {
        let call = instance.begin(loaded, function, call);
        PausedInstance {
            instance,
            module: loaded.module.again(),
            call,
            answer,
        }
    }

    /// Makes at most so many turns more. Takes no memory.
    pub fn resume(self, store: &ModuleStore<N>, slice: u64) -> Resumed<N>
        ensures { HasResumed N.config self slice result }
    {
        let PausedInstance {
            mut instance,
            module,
            mut call,
            mut answer,
        } = self;
        let turned = {
            let found = store.find(&module);
            let loaded = LoadedModule {
                store,
                module: &module,
                found,
            };
            instance.resume(&mut call, &loaded, slice, &[], &mut answer)
        };
        match turned {
            SliceEnd::Again => Resumed::Again(PausedInstance {
                instance,
                module,
                call,
                answer,
            }),
            SliceEnd::Done(outcome) => {
                let end = RunEnd {
                    outcome,
                    left: call.left(),
                };
                Resumed::Done(end, instance, answer)
            }
        }
    }

    /// The fuel that its turns so far have left. Takes no memory.
    pub fn left(&self) -> u64
        ensures { result ≡ fuel_left self.now.call }
    {
        self.call.left()
    }

    /// Gives the call up: the instance as it is, and an answer without bytes. Takes no memory.
    pub fn give_up(self) -> (Instance<N>, AnswerBuf)
        ensures slots { HasSlotsOf result.0 self }
        ensures belongs { SlotsBelong self }
        ensures contents { (k : Kind) → instance_contents result.0 k ≡ contents_in self k }
        ensures answer { result.1 ≡ [] }
    {
        let PausedInstance {
            instance,
            module: _,
            call: _,
            mut answer,
        } = self;
        answer.clear();
        (instance, answer)
    }
}
