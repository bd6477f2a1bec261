//! The passes of the pools of each kind are put together.
ghost use Rattle.std.specs.Prelude.{◌≡◌, IfOk, length};
ghost use Rattle.std.specs.List.{All};
ghost use Rattle.slot_words.specs.Owned.{IsNewPassOf};
ghost use Rattle.retired_tags.specs.Passes.{IsNewTagPass};
ghost use Rattle.pool_host.specs.Hosts.{IsNewHostPass};

use crate::host::Host;
use crate::passes::{HostPass, Passes};
use call_payload::AnswerBuf;
use instance_slots::Ticket;
use memory_counts::MemoryTally;
use memory_slots::MemSlot;
use module_store::Naming;
use retired_tags::TagPass;
use slot_words::Pass;
use std::alloc::Global;
use table_slots::TableSlot;
use wasm_values::NoMemory;

// Puts the passes of each kind together. There are as many of each.
pub(crate) fn deal<N: Naming>(
    alloc: Global,
    host: &Host<N>,
    mut tickets: Vec<Pass<Ticket<N>>>,
    mut memories: Vec<Pass<MemSlot<N>>>,
    mut tables: Vec<Pass<TableSlot<N>>>,
    mut tags: Vec<TagPass>,
) -> Result<Vec<HostPass<N>>, NoMemory>
    requires tickets { All (IsNewPassOf host.now.tickets) tickets.items }
    requires memories { (length memories.items ≡ length tickets.items) × All (IsNewPassOf host.now.memories) memories.items }
    requires tables { (length tables.items ≡ length tickets.items) × All (IsNewPassOf host.now.tables) tables.items }
    requires tags { (length tags.items ≡ length tickets.items) × All (IsNewTagPass host.now.retired.tags) tags.items }
    ensures count { IfOk result (λ all. length all.items ≡ length tickets.items) }
    ensures passes { IfOk result (λ all. All (IsNewHostPass host.now) all.items) }
{
    let mut all = Vec::with_capacity(alloc, tickets.len()).map_err(|_| NoMemory)?;
    for _ in 0..tickets.len() {
        let passes = Passes {
            ticket: tickets.pop().unwrap(),
            memory: memories.pop().unwrap(),
            table: tables.pop().unwrap(),
            tally: MemoryTally::NEW,
        };
        let retired = tags.pop().unwrap();
        let answer = AnswerBuf::open(alloc)?;
        all.push_reserved(HostPass {
            passes,
            retired,
            answer,
            left: 0,
        });
    }
    Ok(all)
}
