//! The slots of a host are counted while calls go on.
ghost use Rattle.std.specs.Prelude.{◌≡◌};
ghost use Rattle.pool_host.specs.Counting.{HasLooked, KeepsCounts};
ghost use Rattle.pool_host.specs.Hosts.{AreIdle, ArePassesOf, AreSamePasses, IsHostPass, IsSameHostPass};

use crate::counts::PoolCounts;
use crate::host::Host;
use crate::passes::{HostPass, Passes};
use module_store::Naming;

impl<N: Naming> Host<N> {
    // Counts the slots of each kind by what its pass reads.
    fn count(&self, passes: &mut Passes<N>) -> PoolCounts
        requires own { ArePassesOf self.now passes.old }
        requires idle { AreIdle passes.old }
        ensures same { AreSamePasses passes.old passes.new }
        ensures idle { AreIdle passes.new }
        ensures looked { HasLooked self.now passes.old passes.new result }
        ensures counted { KeepsCounts N.config.batch passes.old passes.new }
    {
        let instance = self.tickets.words().look(&mut passes.ticket);
        let memory = self.memories.words().look(&mut passes.memory);
        let table = self.tables.words().look(&mut passes.table);
        PoolCounts {
            instance,
            memory,
            table,
        }
    }

    /// Counts the slots as they are seen: this pass reads the word of each once. Other calls may take and give slots meanwhile. It
    /// takes no memory.
    pub fn look(&self, pass: &mut HostPass<N>) -> PoolCounts
        requires { IsHostPass self.now pass.old }
        ensures own { IsHostPass self.now pass.new }
        ensures same { IsSameHostPass pass.old pass.new }
        ensures bytes { pass.new.answer ≡ pass.old.answer }
        ensures left { pass.new.left ≡ pass.old.left }
        ensures tags { pass.new.retired ≡ pass.old.retired }
        ensures counted { HasLooked self.now pass.old.passes pass.new.passes result }
    {
        self.count(&mut pass.passes)
    }
}
