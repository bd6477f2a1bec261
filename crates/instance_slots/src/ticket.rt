//! Tickets.
ghost use Rattle.std.specs.Prelude.{◌≡◌, ◌≤◌, ◌++◌, IfOk, length, drop, replicate, take, vec_capacity};
ghost use Rattle.wasm_values.specs.declared.outcome.Val.TheVariants.{I32};
ghost use Rattle.wasm_spec.specs.Store.{fresh_store};
ghost use Rattle.pool_model.specs.declared.kinds.Kind.TheVariants as kind;
ghost use Rattle.pool_model.specs.Contents.{prepared, Matches};
ghost use Rattle.pool_model.specs.OwnTags.{own_tag, fits-own_tag};

use module_store::{LoadedModule, ModuleStore, Naming};
use pool_limits::MOST_GLOBALS;
use slot_pools::OpenSlot;
use slot_words::{NoMemory as Refused, Pooled};
use std::alloc::Global;
use std::marker::{Model, PhantomData};
use wasm_machine::{Memory, Stacks};
use wasm_values::{NoMemory, Val};

/// The leave for one instance: globals, of which a call's module has the first, stacks for the configured depth of the
/// configured frames, a place for the arguments of a call that is paused, and a memory without bytes for modules that have none.
/// Contracts see its globals, those arguments and its stacks.
pub struct Ticket<N: Naming> {
    /// As many values as a module may have globals.
    pub globals: Vec<Val>,
    /// Room for as many values as a frame has entries, or for three, which are the most that an import takes.
    pub args: Vec<Val>,
    pub stacks: Stacks,
    /// A memory of no bytes.
    pub memory: Memory,
    of: PhantomData<N>,
}

impl<N: Naming> Model for Ticket<N> {
    ghost use Rattle.std.specs.Prelude.{vec_capacity};
    ghost use Rattle.instance_slots.specs.Tickets.{IsTicket, TicketView};

    ghost Value = { TicketView };

    ghost view = { λ t. record { globals = t.globals.items; args = t.args.items; stacks = t.stacks } };

    ghost invariant = { λ t. IsTicket N.config t.globals.items (vec_capacity t.args) t.stacks t.memory };
}

impl<N: Naming> Drop for Ticket<N> {
    fn drop(self) {
        let Ticket {
            globals: _,
            args: _,
            stacks: _,
            memory: _,
            of: _,
        } = self;
    }
}

// As many values as a module may have globals.
fn zeros(alloc: Global) -> Result<Vec<Val>, NoMemory>
    ensures { IfOk result (λ globals. globals.items ≡ replicate MOST_GLOBALS (I32 0)) }
{
    match vec![in alloc; Val::I32(0); MOST_GLOBALS as usize] {
        Ok(globals) => Ok(globals),
        Err(_) => Err(NoMemory),
    }
}

// How many arguments a call may have: those of an own function that fits such a frame, or of an import.
fn most_args(frame: u32) -> u32
    ensures own { frame ≤ result }
    ensures imports { 3 ≤ result }
{
    if frame < 3 { 3 } else { frame }
}

// Room for so many arguments.
fn place_for_args(alloc: Global, count: u32) -> Result<Vec<Val>, NoMemory>
    ensures { IfOk result (λ args. count ≤ vec_capacity args) }
{
    match Vec::with_capacity(alloc, count as usize) {
        Ok(args) => Ok(args),
        Err(_) => Err(NoMemory),
    }
}

// Writes these values over the first.
fn put(globals: &mut [Val], first: &[Val])
    requires { length first.now ≤ length globals.old }
    ensures { globals.new ≡ first.now ++ drop (length first.now) globals.old }
{
    globals[..first.len()].copy_from_slice(first);
}

impl<N: Naming> Ticket<N> {
    /// A ticket whose globals are zeros.
    ///
    /// # Errors
    ///
    /// `NoMemory` where memory is refused.
    pub fn open(alloc: Global, store: &ModuleStore<N>) -> Result<Ticket<N>, NoMemory>
        ensures { IfOk result (λ ticket. ticket.globals ≡ replicate MOST_GLOBALS (I32 0)) }
    {
        let numbers = store.config().numbers();
        let globals = zeros(alloc)?;
        let args = place_for_args(alloc, most_args(numbers.frame))?;
        let stacks = Stacks::open(alloc, numbers.depth, numbers.frame)?;
        let memory = Memory::zeroed(alloc, 0)?;
        Ok(Ticket {
            globals,
            args,
            stacks,
            memory,
            of: PhantomData,
        })
    }

    /// Writes the first values of the module's globals. Takes no memory.
    pub fn prepare(&mut self, loaded: &LoadedModule<'_, N>)
        ensures prepared { self.new.globals ≡ prepared N.config.pages loaded.now.module.now kind.Instance self.old.globals }
        ensures globals { take (length loaded.now.module.now.tree.globals) self.new.globals ≡ (fresh_store loaded.now.module.now.tree).globals }
    {
        let first = loaded.image().globals.as_slice();
        put(&mut self.globals, first);
    }
}

impl<N: Naming> Pooled for Ticket<N> {
    type Images = ModuleStore<N>;

    ghost own_tag = { λ x. own_tag kind.Instance x.globals };

    ghost fits = { λ s tag x. Matches N.config.pages kind.Instance s tag x.globals };

    // It is cold whatever it holds, since a call writes all that it reads.
    fn clear(&mut self) {}

    // No ticket is ever warm or awaiting, so this and `tag` have clauses of their own that any call can meet.
    fn restore(&mut self, _images: &ModuleStore<N>)
        ensures { self.new ≡ self.old }
    {}

    fn tag(&self) -> u32
        ensures { result ≡ 0 }
    {
        0
    }

    ghost fits_own_tag = { λ s tag x. fits-own_tag N.config.pages kind.Instance s tag x.globals };
}

impl<N: Naming> OpenSlot for Ticket<N> {
    fn open(alloc: Global, images: &ModuleStore<N>) -> Result<Ticket<N>, Refused> {
        Ticket::open(alloc, images).map_err(|_| Refused)
    }
}
