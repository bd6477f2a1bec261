//! Calls over pools that threads share.
ghost use Rattle.std.specs.Prelude.{[], ◌≡◌, ◌≤◌, IfOk, length};
ghost use Rattle.std.specs.List.{All};
ghost use Rattle.instance_calls.specs.CallWords.{run_limits};
ghost use Rattle.pool_host.specs.CallWords.{IfFull, IsAnswerTo, IsFuelLeft, IsHostAnswer, IsLeftTo};
ghost use Rattle.pool_host.specs.Closing.{ArePoolCounts};
ghost use Rattle.pool_host.specs.Counting.{KeepsCounts};
ghost use Rattle.pool_host.specs.Hosts.{AreIdle, ArePassesOf, AreSamePasses, HandedOut, HasShare, IsHostPass, IsNewHostPass, IsSameHostPass, IsShare};
ghost use Rattle.pool_host.specs.Looks.{begun_look, look_of, Looked, SetsBit};
ghost use Rattle.pool_host.specs.Pausing.{begun_tags, HasBegun, IsUnspent};
ghost use Rattle.pool_host.specs.Retiring.{is_already, Sweeps, SweptAll};
ghost use Rattle.pool_host.specs.Trails.{AddsTrails, HasCause};
ghost use Rattle.retired_tags.specs.Passes.{IsTagPass, steps};
ghost use Rattle.retired_tags.specs.Steps.{Knows};

use crate::answers::{Answer, Begun, Retire};
use crate::counts::{PoolCounts, join_all};
use crate::ended_call::EndedCall;
use crate::new_passes::deal;
use crate::passes::{HostPass, Passes};
use crate::paused::Paused;
use crate::refusals::start;
use crate::retired_modules::RetiredModules;
use call_payload::{AnswerBuf, Call};
use host_edge::Gate;
use instance_calls::PausedInstance;
use instance_slots::TicketPool;
use memory_slots::MemoryPool;
use module_store::{LoadedModule, ModuleRef, ModuleStore, Naming};
use pool_limits::Share;
use retired_tags::TagPass;
use slot_pools::sweep;
use std::alloc::Global;
use table_slots::TablePool;
use wasm_values::{NoMemory, Val};

/// The most passes of a host.
pub const MOST_PASSES: u32 = 32;

/// Pools of tickets, memories and tables, on which callers make calls at the same time, each with a pass of its own. A module that
/// is retired on a host is called on it no more.
pub struct Host<N: Naming> {
    pub(crate) tickets: TicketPool<N>,
    pub(crate) memories: MemoryPool<N>,
    pub(crate) tables: TablePool<N>,
    pub(crate) retired: RetiredModules<N>,
}

impl<N: Naming> Drop for Host<N> {
    fn drop(self) {
        let Host {
            tickets: _,
            memories: _,
            tables: _,
            retired: _,
        } = self;
    }
}

impl<N: Naming> Host<N> {
    /// A host with so many slots of each kind, just as many passes as are asked for, and a bit for each module that the store may
    /// have. No module is retired. At most as many memories, and as many tables, as the configuration says are warm while no call has them.
    ///
    /// # Errors
    ///
    /// `NoMemory` where memory is refused.
    pub fn open(
        alloc: Global,
        store: &ModuleStore<N>,
        share: Share,
        passes: u32,
    ) -> Result<(Host<N>, Vec<HostPass<N>>), NoMemory>
        requires share { IsShare share }
        requires passes { (1 ≤ passes) × (passes ≤ MOST_PASSES) }
        ensures share { IfOk result (λ o. HasShare N.config.warm share o.0) }
        ensures out { IfOk result (λ o. HandedOut o.0 passes) }
        ensures count { IfOk result (λ o. length o.1.items ≡ passes) }
        ensures passes { IfOk result (λ o. All (IsNewHostPass o.0) o.1.items) }
        ensures own { IfOk result (λ o. All (IsHostPass o.0) o.1.items) }
    {
        let warm = store.config().numbers().warm;
        Host::open_warm(alloc, store, share, warm, passes)
    }

    /// Opens a host as [`Host::open`] does, with another number of warm slots: of the memories, and of the tables, at most `warm` are
    /// warm while no call has them.
    ///
    /// # Errors
    ///
    /// `NoMemory` where memory is refused.
    pub fn open_warm(
        alloc: Global,
        store: &ModuleStore<N>,
        share: Share,
        warm: u32,
        passes: u32,
    ) -> Result<(Host<N>, Vec<HostPass<N>>), NoMemory>
        requires share { IsShare share }
        requires passes { (1 ≤ passes) × (passes ≤ MOST_PASSES) }
        ensures share { IfOk result (λ o. HasShare warm share o.0) }
        ensures out { IfOk result (λ o. HandedOut o.0 passes) }
        ensures count { IfOk result (λ o. length o.1.items ≡ passes) }
        ensures passes { IfOk result (λ o. All (IsNewHostPass o.0) o.1.items) }
        ensures own { IfOk result (λ o. All (IsHostPass o.0) o.1.items) }
    {
        let (tickets, of_tickets) = TicketPool::open(alloc, store, share.instances, warm, passes)?;
        let (memories, of_memories) = MemoryPool::open(alloc, store, share.memories, warm, passes)?;
        let (tables, of_tables) = TablePool::open(alloc, store, share.tables, warm, passes)?;
        let (retired, of_tags) = RetiredModules::open(alloc, store, passes)?;
        let host = Host {
            tickets,
            memories,
            tables,
            retired,
        };
        let all = deal(alloc, &host, of_tickets, of_memories, of_tables, of_tags)?;
        Ok((host, all))
    }

    // Makes the call. The gate is told when the function may begin. What is left of the call's fuel is written down.
    fn answer<G: Gate>(
        &self,
        passes: &mut Passes<N>,
        retired: &mut TagPass,
        loaded: &LoadedModule<'_, N>,
        call: &Call<'_>,
        number: u64,
        gate: &G,
        said: &mut AnswerBuf,
        left: &mut u64,
    ) -> Answer
        requires own { ArePassesOf self.now passes.old }
        requires tags { IsTagPass self.now.retired.tags retired.old }
        requires idle { AreIdle passes.old }
        ensures same { AreSamePasses passes.old passes.new }
        ensures idle { AreIdle passes.new }
        ensures tags { IsTagPass self.now.retired.tags retired.new }
        ensures answer { IsAnswerTo call.now loaded.now.module.now.tree (run_limits N.config) result said.new }
        ensures left { IsLeftTo call.now loaded.now.module.now.tree (run_limits N.config) result left.new }
        ensures trails { AddsTrails N.config self.now loaded.now.module.now result passes.old passes.new }
        ensures full { IfFull result (HasCause N.config self.now loaded.now.module.now passes.old passes.new) }
        ensures looked { Looked self.now.retired.tags loaded.now.module.now.tag retired.old retired.new (look_of result) }
        ensures counted { KeepsCounts N.config.batch passes.old passes.new }
    {
        match start(self, passes, retired, loaded, call, said) {
            Ok((instance, function)) => {
                gate.entered(number);
                let (end, ended) = EndedCall::run(instance, loaded, function, call, said);
                ended.give(self, passes, loaded.store);
                *left = end.left;
                Answer::Done(end.outcome)
            }
            Err(refused) => {
                *left = call.fuel;
                refused.answer()
            }
        }
    }

    /// Makes a call of a module's export on a fresh instance, whose start function runs first, on the call's fuel in all. Its memory has
    /// at most the configured pages, and its calls are at most the configured depth deep. It takes no memory of the program's. The module
    /// may read the request and append to an answer, which [`HostPass::answer`] shows afterwards where the call is done.
    ///
    /// The call takes a ticket, then a memory and a table where the module has them, and gives all back. The first kind of which
    /// other calls have every slot is its answer. Where the module is retired on this host it takes none. Whatever others do, it is
    /// otherwise answered as if it were alone. The gate is told of the call by its number: when all is taken and nothing has run, and
    /// after every answer.
    pub fn invoke<'a, G: Gate>(
        &self,
        pass: &mut HostPass<N>,
        store: &'a ModuleStore<N>,
        module: &'a ModuleRef<N>,
        call: &Call<'_>,
        number: u64,
        gate: &G,
    ) -> Answer
        requires { IsHostPass self.now pass.old }
        ensures own { IsHostPass self.now pass.new }
        ensures same { IsSameHostPass pass.old pass.new }
        ensures answer { IsAnswerTo call.now «module».now.tree (run_limits N.config) result pass.new.answer }
        // what its end left of the fuel, as the machine's run tells it; all where it was not made
        ensures left { IsLeftTo call.now «module».now.tree (run_limits N.config) result pass.new.left }

        // to each pass of the kinds that it asked: one take and its give, or a take that won nothing
        ensures trails { AddsTrails N.config self.now «module».now result pass.old.passes pass.new.passes }
        ensures full { IfFull result (HasCause N.config self.now «module».now pass.old.passes pass.new.passes) }
        // one look at the retired tags, after the checks and before any slot: retired is exactly what it read
        ensures looked { Looked self.now.retired.tags «module».now.tag pass.old.retired pass.new.retired (look_of result) }
    {
        let found = store.find(module);
        let loaded = LoadedModule {
            store,
            module,
            found,
        };
        let answer = self.answer(
            &mut pass.passes,
            &mut pass.retired,
            &loaded,
            call,
            number,
            gate,
            &mut pass.answer,
            &mut pass.left,
        );
        gate.answered(number);
        answer
    }

    /// Makes a call as [`Host::invoke`] does.
    pub fn send<G: Gate>(
        &self,
        pass: &mut HostPass<N>,
        store: &ModuleStore<N>,
        module: &ModuleRef<N>,
        export: &[u8],
        args: &[Val],
        request: &[u8],
        fuel: u64,
        number: u64,
        gate: &G,
    ) -> Answer
        requires pass { IsHostPass self.now pass.old }
        requires request { length request.now ≤ 65536 }
        ensures own { IsHostPass self.now pass.new }
        ensures same { IsSameHostPass pass.old pass.new }
        ensures answer { IsHostAnswer «module».now.tree (run_limits N.config) export.now args.now request.now fuel result pass.new.answer }
        ensures left { IsFuelLeft «module».now.tree (run_limits N.config) export.now args.now request.now fuel result pass.new.left }
        ensures trails { AddsTrails N.config self.now «module».now result pass.old.passes pass.new.passes }
        ensures full { IfFull result (HasCause N.config self.now «module».now pass.old.passes pass.new.passes) }
        ensures looked { Looked self.now.retired.tags «module».now.tag pass.old.retired pass.new.retired (look_of result) }
    {
        let call = Call {
            export,
            args,
            request,
            fuel,
        };
        self.invoke(pass, store, module, &call, number, gate)
    }

    /// Makes a call as [`Host::invoke`] does, with a request of no bytes.
    pub fn call<G: Gate>(
        &self,
        pass: &mut HostPass<N>,
        store: &ModuleStore<N>,
        module: &ModuleRef<N>,
        export: &[u8],
        args: &[Val],
        fuel: u64,
        number: u64,
        gate: &G,
    ) -> Answer
        requires pass { IsHostPass self.now pass.old }
        ensures own { IsHostPass self.now pass.new }
        ensures same { IsSameHostPass pass.old pass.new }
        ensures answer { IsHostAnswer «module».now.tree (run_limits N.config) export.now args.now [] fuel result pass.new.answer }
        ensures left { IsFuelLeft «module».now.tree (run_limits N.config) export.now args.now [] fuel result pass.new.left }
        ensures trails { AddsTrails N.config self.now «module».now result pass.old.passes pass.new.passes }
        ensures full { IfFull result (HasCause N.config self.now «module».now pass.old.passes pass.new.passes) }
        ensures looked { Looked self.now.retired.tags «module».now.tag pass.old.retired pass.new.retired (look_of result) }
    {
        self.send(pass, store, module, export, args, &[], fuel, number, gate)
    }

    /// Begins a call that is sent no bytes, as [`Host::invoke`] does: the slots are taken, and no instruction has run. It takes no memory.
    ///
    /// The gate is told of the call by its number: when all is taken, and after a refusal.
    pub fn begin_call<'a, G: Gate>(
        &self,
        pass: HostPass<N>,
        store: &'a ModuleStore<N>,
        module: &'a ModuleRef<N>,
        call: &Call<'_>,
        number: u64,
        gate: &G,
    ) -> Begun<N>
        requires own { IsHostPass self.now pass }
        requires unsent { call.now.request.now ≡ [] }
        ensures begun { HasBegun N.config self.now «module».now call.now.export.now call.now.args.now call.now.fuel number pass.passes result }
        ensures left { IsUnspent call.now.fuel result }

        // one look at the retired tags, after the checks and before any slot: retired is exactly what it read
        ensures looked { Looked self.now.retired.tags «module».now.tag pass.retired (begun_tags result) (begun_look result) }
    {
        let found = store.find(module);
        let loaded = LoadedModule {
            store,
            module,
            found,
        };
        let HostPass {
            mut passes,
            mut retired,
            mut answer,
            left: _,
        } = pass;
        match start(self, &mut passes, &mut retired, &loaded, call, &mut answer) {
            Ok((instance, function)) => {
                let running = PausedInstance::begin(instance, &loaded, function, call, answer);
                gate.entered(number);
                Begun::Ready(Paused {
                    passes,
                    retired,
                    running,
                    number,
                })
            }
            Err(refused) => {
                gate.answered(number);
                refused.begun(HostPass {
                    passes,
                    retired,
                    answer,
                    left: call.fuel,
                })
            }
        }
    }

    /// Begins a call of no bytes as [`Host::begin_call`] does, with its pass. It takes no memory.
    pub fn begin<G: Gate>(
        &self,
        pass: HostPass<N>,
        store: &ModuleStore<N>,
        module: &ModuleRef<N>,
        export: &[u8],
        args: &[Val],
        fuel: u64,
        number: u64,
        gate: &G,
    ) -> Begun<N>
        requires own { IsHostPass self.now pass }
        ensures begun { HasBegun N.config self.now «module».now export.now args.now fuel number pass.passes result }
        ensures left { IsUnspent fuel result }
        ensures looked { Looked self.now.retired.tags «module».now.tag pass.retired (begun_tags result) (begun_look result) }
    {
        let call = Call {
            export,
            args,
            request: &[],
            fuel,
        };
        self.begin_call(pass, store, module, &call, number, gate)
    }

    // Makes the memories and the tables of a module cold that no call has, and tells how many there were.
    fn sweep(&self, passes: &mut Passes<N>, module: &ModuleRef<N>) -> u32
        requires own { ArePassesOf self.now passes.old }
        requires idle { AreIdle passes.old }
        ensures same { AreSamePasses passes.old passes.new }
        ensures idle { AreIdle passes.new }
        ensures swept { SweptAll self.now «module».now result passes.old passes.new }
        ensures counted { KeepsCounts N.config.batch passes.old passes.new }
    {
        let memories = sweep(self.memories.words(), &mut passes.memory, module.tag());
        let tables = sweep(self.tables.words(), &mut passes.table, module.tag());
        memories + tables
    }

    /// Retires a module on this host: no later call of it is made with this pass, nor with any other that read it retired, and those
    /// that have begun are finished. The first time, each memory and table of the host that is still the module's while no call has it
    /// is made cold; one that a call has is not. The store is not read. It takes no memory.
    pub fn retire(
        &self,
        pass: &mut HostPass<N>,
        _store: &ModuleStore<N>,
        module: &ModuleRef<N>,
    ) -> Retire
        requires { IsHostPass self.now pass.old }
        ensures own { IsHostPass self.now pass.new }
        ensures same { IsSameHostPass pass.old pass.new }
        ensures bytes { pass.new.answer ≡ pass.old.answer }
        ensures left { pass.new.left ≡ pass.old.left }

        // one step at the retired tags, which the answer is by: after it the pass knows that the module is retired
        ensures bit { SetsBit self.now.retired.tags «module».now.tag pass.old.retired pass.new.retired (is_already result) }
        ensures known { Knows «module».now.tag (steps pass.new.retired) }
        ensures before { Knows «module».now.tag (steps pass.old.retired) → result ≡ Retire.Already }

        // the first time a sweep of the memories and one of the tables, else nothing
        ensures sweeps { Sweeps self.now «module».now result pass.old.passes pass.new.passes }
    {
        if self.retired.retire(&mut pass.retired, module) {
            return Retire::Already;
        }
        let cleaned = self.sweep(&mut pass.passes, module);
        Retire::First { cleaned }
    }

    /// Ends all passes and counts the slots as they stand. With all passes in the list, none is held.
    pub fn close(self, passes: Vec<HostPass<N>>) -> PoolCounts
        requires some { 1 ≤ length passes.items }
        requires own { All (IsHostPass self) passes.items }
        ensures { ArePoolCounts self passes.items result }
    {
        let Passes {
            ticket,
            memory,
            table,
            tally: _,
        } = join_all(&self, passes);
        let Host {
            tickets,
            memories,
            tables,
            retired: _,
        } = self;
        let instance = tickets.close(ticket);
        let memory = memories.close(memory);
        let table = tables.close(table);
        PoolCounts {
            instance,
            memory,
            table,
        }
    }
}
