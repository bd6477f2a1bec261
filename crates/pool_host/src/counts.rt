//! How a host is closed.
ghost use Rattle.std.specs.Prelude.{◌≡◌, ◌+◌, ◌≤◌, ◌++◌, length};
ghost use Rattle.std.specs.List.{All};
ghost use Rattle.slot_words.specs.Passes.{share_of, trails};
ghost use Rattle.pool_host.specs.Closing.{HaveJoined, HaveShares, memory_trails, table_trails, ticket_trails};
ghost use Rattle.pool_host.specs.Hosts.{AreIdle, ArePassesOf, IsHostPass};

use crate::host::Host;
use crate::passes::{HostPass, Passes};
use module_store::Naming;
use slot_words::KindCounts;

/// How many slots of each kind there are in each state.
#[derive(Clone, Copy, Debug, PartialEq, Eq)]
pub struct PoolCounts {
    pub instance: KindCounts,
    pub memory: KindCounts,
    pub table: KindCounts,
}

// Joins the passes into the last one.
pub(crate) fn join_all<N: Naming>(host: &Host<N>, mut passes: Vec<HostPass<N>>) -> Passes<N>
    requires some { 1 ≤ length passes.items }
    requires own { All (IsHostPass host.now) passes.items }
    ensures own { ArePassesOf host.now result }
    ensures idle { AreIdle result }
    ensures shares { HaveShares (length passes.items) result }
    ensures ticket { trails result.ticket ≡ ticket_trails passes.items }
    ensures memory { trails result.memory ≡ memory_trails passes.items }
    ensures table { trails result.table ≡ table_trails passes.items }
{
    let HostPass {
        passes: mut joined,
        ..
    } = passes.pop().unwrap();
    while let Some(other) = passes.pop() {
        join(host, &mut joined, other);
    }
    joined
}

// Joins a pass into others.
fn join<N: Naming>(host: &Host<N>, joined: &mut Passes<N>, other: HostPass<N>)
    requires own { ArePassesOf host.now joined.old }
    requires idle { AreIdle joined.old }
    requires other { IsHostPass host.now other }
    ensures own { ArePassesOf host.now joined.new }
    ensures idle { AreIdle joined.new }
    ensures joined { HaveJoined joined.old other.passes joined.new }
{
    let HostPass { passes, .. } = other;
    let Passes {
        ticket,
        memory,
        table,
        tally: _,
    } = passes;
    host.tickets.join_pass(&mut joined.ticket, ticket);
    host.memories.join_pass(&mut joined.memory, memory);
    host.tables.join_pass(&mut joined.table, table);
}
