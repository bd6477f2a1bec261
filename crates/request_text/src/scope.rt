//! What the lines of a request file have declared.
ghost use Rattle.std.specs.Prelude.{◌≡◌, ◌↔◌, ◌<◌, ◌≤◌, [], ◌∷◌, ◌++◌, Some, None, length, slice_get, IsTrue, IfOk, IfSome, OnErr, OnOk};
ghost use Rattle.request_words.specs.Words.{line_words, place_of};
ghost use Rattle.request_text.specs.Tenants.{for_after, tenant_after};
ghost use Rattle.request_text.specs.Text.{declared_after, declared_by, is_retired, nothing_read};
ghost use Rattle.request_text.specs.Reading.{Agrees, ArePlaces, HasRoom, IsOwnPlace, declared_with};

use crate::fault::LineFault;
use crate::request::{Directive, MOST_CALLS, MOST_MODULES, Reason};
use crate::retired_places::RetiredPlaces;
use crate::tenants::TenantScope;
use pool_limits::{PoolConfig, Want};
use std::alloc::{AllocError, Global};
use std::collections::BTreeMap;
use std::marker::Model;
use wasm_values::Items;

// The names of the modules of the lines before, the place of each and of the one that was named last, those that are retired, how
// many calls stood there, and the tenants.
#[derive(Drop)]
pub(crate) struct Scope {
    names: Vec<Items<u8>>,
    places: BTreeMap<Vec<u8>, u32>,
    recent: u32,
    retired: RetiredPlaces,
    calls: usize,
    tenants: TenantScope,
}

impl Model for Scope {
    ghost use Rattle.request_text.specs.Text.{Declared};

    ghost Value = { Declared };

    ghost view = { λ s. record { names = s.names.items; retired = s.retired; calls = s.calls; tenants = s.tenants } };

    ghost use Rattle.request_text.specs.Reading.{AreFound};

    ghost invariant = { λ s. AreFound s.places s.recent s.names.items };
}

// Whether the module at this place has this name.
fn has_name(names: &[Items<u8>], place: u32, name: &[u8]) -> bool
    ensures { IsTrue result ↔ (slice_get names.now place ≡ Some name.now) }
{
    match names.get(place as usize) {
        Some(other) => other.as_slice() == name,
        None => false,
    }
}

// Declares one more name, whose place is the next: gives that place.
fn declare(
    alloc: Global,
    names: &mut Vec<Items<u8>>,
    places: &mut BTreeMap<Vec<u8>, u32>,
    name: &[u8],
) -> Result<u32, AllocError>
    requires few { length names.old.items < MOST_MODULES }
    requires new { place_of names.old.items name.now ≡ None }
    requires places { ArePlaces places.old names.old.items }
    ensures names { OnOk result (names.new.items ≡ names.old.items ++ name.now ∷ []) }
    ensures kept { OnErr result (names.new.items ≡ names.old.items) }
    ensures places { ArePlaces places.new names.new.items }
    ensures own { IfOk result (IsOwnPlace names.new.items) }
{
    let place = names.len() as u32;
    let copy = Vec::from_slice(alloc, name)?;
    let key = Vec::from_slice(alloc, name)?;
    names.reserve(1)?;
    places.insert(key, place).map_err(|_| AllocError)?;
    names.push_reserved(Items::new(copy));
    Ok(place)
}

impl Scope {
    // Nothing is declared. Takes no memory.
    pub(crate) fn new(alloc: Global) -> Scope
        ensures { result ≡ declared_by nothing_read }
    {
        Scope {
            names: Vec::new(alloc),
            places: BTreeMap::new(alloc),
            recent: 0,
            retired: RetiredPlaces::new(alloc),
            calls: 0,
            tenants: TenantScope::new(alloc),
        }
    }

    // The place of the module of this name, from 0, by the map.
    #[inline(never)]
    fn mapped_place(&self, name: &[u8]) -> Option<u32>
        ensures place { result ≡ place_of self.now.names name.now }
        ensures within { IfSome result (λ place. place < length self.now.names) }
        ensures own { IfSome result (IsOwnPlace self.now.names) }
    {
        self.places.get(name).copied()
    }

    // The place of the module of this name, from 0. Calls of one module often stand one behind the other.
    #[inline(always)]
    pub(crate) fn place(&self, name: &[u8]) -> Option<u32>
        ensures place { result ≡ place_of self.now.names name.now }
        ensures within { IfSome result (λ place. place < length self.now.names) }
        ensures own { IfSome result (IsOwnPlace self.now.names) }
    {
        if has_name(&self.names, self.recent, name) {
            return Some(self.recent);
        }
        self.mapped_place(name)
    }

    // Whether the module at this place is retired.
    pub(crate) fn is_retired(&self, place: u32) -> bool
        ensures { result ≡ is_retired self.now.retired place }
    {
        self.retired.contains(place)
    }

    // Whether one more module may be declared.
    pub(crate) fn takes_module(&self) -> bool
        ensures { IsTrue result ↔ (length self.now.names < MOST_MODULES) }
    {
        self.names.len() < MOST_MODULES
    }

    // Whether one more call may be declared.
    pub(crate) fn takes_call(&self) -> bool
        ensures { IsTrue result ↔ (self.now.calls < MOST_CALLS) }
    {
        self.calls < MOST_CALLS
    }

    // The tenant that has the calls that follow.
    pub(crate) fn tenant(&self) -> u32
        ensures tenant { result ≡ self.now.tenants.current }
        ensures within { result ≤ length self.now.tenants.wants }
    {
        self.tenants.current()
    }

    // What tenants 1, 2, .. want.
    pub(crate) fn into_wants(self) -> Vec<Want>
        ensures { result.items ≡ self.tenants.wants }
    {
        self.tenants.into_wants()
    }

    // Declares what this directive does.
    #[inline(always)]
    pub(crate) fn add(&mut self, alloc: Global, directive: &Directive) -> Result<(), AllocError>
        requires { HasRoom self.old directive.now }
        ensures more { OnOk result (self.new ≡ declared_after self.old directive.now) }
        ensures kept { OnErr result (self.new ≡ self.old) }
    {
        match directive {
            Directive::Module { name, bytes: _ } => {
                let place = declare(alloc, &mut self.names, &mut self.places, name.as_slice())?;
                self.recent = place;
                Ok(())
            }
            Directive::Call { module, .. } => {
                self.calls += 1;
                self.recent = *module;
                Ok(())
            }
            Directive::Retire { module, name: _ } => self.retired.add(*module),
        }
    }

    // What is declared once the words after `tenant` are read too.
    pub(crate) fn after_tenant(
        self,
        alloc: Global,
        config: &PoolConfig,
        words: &[u8],
    ) -> Result<Scope, LineFault>
        ensures { Agrees result (declared_with self (tenant_after config.now self.tenants (line_words words.now))) }
    {
        let tenants = self.tenants.after_tenant(alloc, config, words)?;
        Ok(Scope { tenants, ..self })
    }

    // What is declared once the words after `for` are read too.
    pub(crate) fn after_for(self, words: &[u8]) -> Result<Scope, Reason>
        ensures { result ≡ declared_with self (for_after self.tenants (line_words words.now)) }
    {
        let tenants = self.tenants.after_for(words)?;
        Ok(Scope { tenants, ..self })
    }
}
