//! A caller's passes.
ghost use Rattle.std.specs.Prelude.{◌≡◌};
ghost use Rattle.slot_words.specs.Passes.{share_of};
ghost use Rattle.retired_tags.specs.Passes as tags;
ghost use Rattle.memory_counts.specs.Counted.{AreTakes, IsCounted};
ghost use Rattle.pool_host.specs.Idle.{Rests};

use call_payload::AnswerBuf;
use instance_slots::Ticket;
use memory_counts::{MemoryTally, TakeCounts};
use memory_slots::MemSlot;
use module_store::Naming;
use retired_tags::TagPass;
use slot_words::Pass;
use table_slots::TableSlot;

// One pass of each kind, and what that of the memories did.
#[derive(Drop)]
pub(crate) struct Passes<N: Naming> {
    pub ticket: Pass<Ticket<N>>,
    pub memory: Pass<MemSlot<N>>,
    pub table: Pass<TableSlot<N>>,
    pub tally: MemoryTally,
}

/// The leave to make calls on one host, one at a time. Between two calls it holds nothing but the bytes that the last one
/// answered, and what that left of its fuel.
#[derive(Drop)]
pub struct HostPass<N: Naming> {
    pub(crate) passes: Passes<N>,
    pub(crate) retired: TagPass,
    pub(crate) answer: AnswerBuf,
    pub(crate) left: u64,
    ghost rests_ticket: { Rests passes.ticket },
    ghost rests_memory: { Rests passes.memory },
    ghost rests_table: { Rests passes.table },
    ghost one_ticket: { share_of passes.ticket ≡ 1 },
    ghost one_memory: { share_of passes.memory ≡ 1 },
    ghost one_table: { share_of passes.table ≡ 1 },
    ghost one_retired: { tags.share_of retired ≡ 1 },
    ghost counted: { IsCounted N.config.batch passes.memory passes.tally },
}

impl<N: Naming> HostPass<N> {
    /// The bytes that the last call answered: none unless it was done. Takes no memory.
    pub fn answer(&self) -> &[u8]
        ensures { result.now ≡ self.now.answer }
    {
        self.answer.bytes()
    }

    /// What the last call left of its fuel: all of it where it was not made. It is 0 before the first. Takes no memory.
    pub fn left(&self) -> u64
        ensures { result ≡ self.now.left }
    {
        self.left
    }

    /// What this pass's takes of memories came to since it was handed out, by its trail. A call in slices counts once it is over or
    /// given up. Takes no memory.
    pub fn takes(&self) -> TakeCounts
        ensures { AreTakes N.config.batch self.now.passes.memory result }
    {
        self.passes.tally.counts()
    }
}
