//! Calls that are paused.
ghost use Rattle.std.specs.Prelude.{◌≡◌, Some};
ghost use Rattle.slot_words.specs.Passes.{share_of};
ghost use Rattle.retired_tags.specs.Passes as tags;
ghost use Rattle.memory_counts.specs.Counted.{IsCounted};
ghost use Rattle.pool_host.specs.Outs.{HasOut};

use crate::answers::Turned;
use crate::ended_call::{EndedCall, Sliced};
use crate::host::Host;
use crate::passes::{HostPass, Passes};
use host_edge::Gate;
use instance_calls::PausedInstance;
use module_store::{ModuleStore, Naming};
use retired_tags::TagPass;

/// A call that has its slots and waits for its next turn. It may go to another thread, or lie in a queue. One that is dropped leaves its
/// slots held.
#[derive(Drop)]
pub struct Paused<N: Naming> {
    pub(crate) passes: Passes<N>,
    pub(crate) retired: TagPass,
    pub(crate) running: PausedInstance<N>,
    pub(crate) number: u64,
    ghost has_ticket: { HasOut passes.ticket (Some running.ticket) },
    ghost has_memory: { HasOut passes.memory running.memory },
    ghost has_table: { HasOut passes.table running.table },
    ghost one_ticket: { share_of passes.ticket ≡ 1 },
    ghost one_memory: { share_of passes.memory ≡ 1 },
    ghost one_table: { share_of passes.table ≡ 1 },
    ghost one_retired: { tags.share_of retired ≡ 1 },
    ghost counted: { IsCounted N.config.batch passes.memory passes.tally },
}

impl<N: Naming> Paused<N> {
    ghost use Rattle.std.specs.Prelude.{◌≡◌};
    ghost use Rattle.pool_host.specs.Pausing.{HasTurnedTo, IsGivenUp, IsOfHost};

    /// The call's number.
    pub fn number(&self) -> u64
        ensures { result ≡ self.now.number }
    {
        self.number
    }

    /// Makes at most so many turns more, on the host and the store with which it began. In whatever slices and on whatever threads it
    /// is made, it ends as if it ran at once, also where its module is retired meanwhile. A call of an import makes no turn: its effect
    /// comes with the first slice, which is its last. It takes no memory. The gate is told when it is answered.
    pub fn resume<G: Gate>(
        self,
        host: &Host<N>,
        store: &ModuleStore<N>,
        slice: u64,
        gate: &G,
    ) -> Turned<N>
        requires own { IsOfHost host.now self }
        ensures { HasTurnedTo N.config host.now self slice result }
    {
        let Paused {
            mut passes,
            retired,
            running,
            number,
        } = self;
        match EndedCall::resume(running, store, slice) {
            Sliced::Again(running) => Turned::Again(Paused {
                passes,
                retired,
                running,
                number,
            }),
            Sliced::Done(end, ended, answer) => {
                ended.give(host, &mut passes, store);
                gate.answered(number);
                let pass = HostPass {
                    passes,
                    retired,
                    answer,
                    left: end.left,
                };
                Turned::Done(end.outcome, pass)
            }
        }
    }

    /// Gives the call up, without an answer of its own: all that it has is given back. The pass keeps what its turns have left of its
    /// fuel. It takes no memory. The gate is told.
    pub fn cancel<G: Gate>(self, host: &Host<N>, store: &ModuleStore<N>, gate: &G) -> HostPass<N>
        requires own { IsOfHost host.now self }
        ensures { IsGivenUp N.config host.now self result }
    {
        let Paused {
            mut passes,
            retired,
            running,
            number,
        } = self;
        let (ended, answer, left) = EndedCall::give_up(running);
        ended.give(host, &mut passes, store);
        gate.answered(number);
        HostPass {
            passes,
            retired,
            answer,
            left,
        }
    }
}
