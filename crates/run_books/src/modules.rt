//! The modules of a request file.
ghost use Rattle.std.specs.Prelude.{◌≡◌, ◌<◌, IfOk, IsErrOf, Some, length, slice_get};
ghost use Rattle.run_books.specs.Entries.{AreKept, EntersModule, IsEntry, IsEntryOf, TakesTag, entry_line};
ghost use Rattle.run_books.specs.Lines.{limits_in};
ghost use Rattle.run_books.specs.Books.{HasEntered, IsSpan};

use crate::books::{Registry, Span};
use module_store::{Desk, LoadFault, ModuleRef, ModuleStore, Naming};
use report_text::ModuleLine;
use request_text::{Directive, Requests};
use std::alloc::Global;
use std::sync::Wait;
use wasm_values::{NoMemory, Profile};

/// What became of a module line: a module that may be called, or the line that tells why it is refused.
pub type Entry<N> = Result<ModuleRef<N>, ModuleLine>;

/// The line that an entry shows.
pub fn entry_line<N: Naming>(entry: &Entry<N>) -> ModuleLine
    ensures { result ≡ entry_line entry.now }
{
    match entry {
        Ok(_) => ModuleLine::Accepted,
        Err(line) => *line,
    }
}

/// The entry of a module line, by its place among the module lines.
pub fn entry_at<N: Naming>(entries: &[Entry<N>], place: u32) -> &Entry<N>
    requires { place < length entries.now }
    ensures { slice_get entries.now place ≡ Some result.now }
{
    &entries[place as usize]
}

// What became of a module whose loading went so. Memory is wanting exactly where loading wanted it.
fn entry_of<N: Naming>(loaded: Result<ModuleRef<N>, LoadFault>) -> Result<Entry<N>, NoMemory>
    requires { IsErrOf loaded LoadFault.TooMany → ⊥ }
    ensures { IsEntryOf loaded result }
{
    match loaded {
        Ok(module) => Ok(Ok(module)),
        Err(LoadFault::TooMany) => unreachable!(),
        Err(LoadFault::Malformed) => Ok(Err(ModuleLine::Malformed)),
        Err(LoadFault::Unsupported) => Ok(Err(ModuleLine::Unsupported)),
        Err(LoadFault::Invalid) => Ok(Err(ModuleLine::Invalid)),
        Err(LoadFault::OverLimit(_)) => Ok(Err(ModuleLine::Limit)),
        Err(LoadFault::Segment(_)) => Ok(Err(ModuleLine::Segment)),
        Err(LoadFault::NoMemory) => Err(NoMemory),
    }
}

// The entry of a module line. An accepted module takes the next tag.
fn register<N: Naming, R: Wait>(
    rt: &R,
    alloc: Global,
    store: &ModuleStore<N>,
    desk: &mut Desk<N>,
    profile: Profile,
    bytes: &[u8],
) -> Result<Entry<N>, NoMemory>
    requires { desk.old.registered < desk.old.most }
    ensures entry { IfOk result (λ entry. IsEntry (limits_in profile N.config) bytes.now entry) }
    ensures tag { IfOk result (TakesTag desk.old.registered desk.new.registered) }
    ensures most { desk.new.most ≡ desk.old.most }
{
    entry_of(store.register(rt, alloc, desk, profile, bytes))
}

// Enters a module line more.
pub(crate) fn enter<N: Naming, R: Wait>(
    rt: &R,
    alloc: Global,
    store: &ModuleStore<N>,
    profile: Profile,
    bytes: &[u8],
    registry: &mut Registry<N>,
) -> Result<(), NoMemory>
    requires { registry.old.desk.registered < registry.old.desk.most }
    ensures { IfOk result (λ _. EntersModule (limits_in profile N.config) bytes.now registry.old registry.new) }
{
    let Registry { entries, desk } = registry;
    entries.reserve(1).map_err(|_| NoMemory)?;
    let entry = register(rt, alloc, store, desk, profile, bytes)?;
    entries.push_reserved(entry);
    Ok(())
}

/// Enters the module lines of a round, of which no call is made yet.
///
/// # Errors
///
/// `NoMemory` where memory is refused. Some modules of the round may then be entered.
pub fn enter_round<N: Naming, R: Wait>(
    rt: &R,
    alloc: Global,
    store: &ModuleStore<N>,
    requests: &Requests,
    span: Span,
    registry: &mut Registry<N>,
) -> Result<(), NoMemory>
    requires span { IsSpan requests.now.directives span }
    requires entered { HasEntered N.config requests.now span.from registry.old }
    ensures entered { IfOk result (λ _. HasEntered N.config requests.now span.to registry.new) }
    ensures kept { IfOk result (λ _. AreKept registry.old.entries.items registry.new.entries.items) }
{
    let profile = requests.profile();
    let directives = requests.directives();
    for at in span.from..span.to {
        if let Directive::Module { bytes, .. } = &directives[at] {
            enter(rt, alloc, store, profile, bytes.as_slice(), registry)?;
        }
    }
    Ok(())
}
