//! The lines `tenant` and `for`: who wants how much of the slots, and whose calls follow.
ghost use Rattle.std.specs.Prelude.{◌≡◌, ◌<◌, ◌≤◌, length, is_none, IfOk, IfSome};
ghost use Rattle.std.specs.List.{All};
ghost use Rattle.pool_limits.specs.Plans.{first_over, HasSlots};
ghost use Rattle.request_words.specs.Words.{line_words, place_of};
ghost use Rattle.request_text.specs.Tenants.{for_after, no_tenants, share_number, want_of, slots_in, tenant_after, tenant_named, tenants_with};
ghost use Rattle.request_text.specs.Reading.{Agrees};

use crate::fault::LineFault;
use crate::request::{MOST_NAME_BYTES, Reason};
use pool_limits::{MOST_TENANTS, PoolConfig, Want};
use request_words::{next_word, number_up_to};
use std::alloc::Global;
use std::marker::Model;
use wasm_values::Items;

// The most that a tenant may want of a kind of slots, and of the warm ones.
const MOST_WANTED: u64 = 1_024;

// The tenants that the lines so far have named, and the one that has the calls that follow.
#[derive(Drop)]
pub(crate) struct TenantScope {
    names: Vec<Items<u8>>,
    wants: Vec<Want>,
    current: u32,
}

impl Model for TenantScope {
    ghost use Rattle.request_text.specs.Tenants.{Tenants};

    ghost Value = { Tenants };

    ghost view = { λ t. record { names = t.names.items; wants = t.wants.items; current = t.current } };

    ghost use Rattle.request_text.specs.Reading.{AreTenants};

    ghost invariant = { λ t. AreTenants (record { names = t.names.items; wants = t.wants.items; current = t.current }) };
}

// The number that a word of a share writes.
fn share_number(word: &[u8]) -> Result<u32, Reason>
    ensures { result ≡ share_number word.now }
{
    let number = number_up_to(MOST_WANTED, word).ok_or(Reason::BadShare)?;
    Ok(number as u32)
}

// So many slots of a kind, one at least.
#[tactic(auto, unfolding(crate::specs::Tenants::slots_in))]
fn slots(word: &[u8]) -> Result<u32, Reason>
    ensures slots { result ≡ slots_in word.now }
    ensures some { IfOk result (λ slots. 1 ≤ slots) }
{
    let slots = share_number(word)?;
    if slots == 0 {
        return Err(Reason::BadShare);
    }
    Ok(slots)
}

// What four words want.
#[tactic(auto, unfolding(crate::specs::Tenants::want_of))]
fn share(instances: &[u8], memories: &[u8], tables: &[u8], warm: &[u8]) -> Result<Want, Reason>
    ensures share { result ≡ want_of instances.now memories.now tables.now warm.now }
    ensures slots { IfOk result HasSlots }
{
    Ok(Want {
        instances: slots(instances)?,
        memories: slots(memories)?,
        tables: slots(tables)?,
        warm: share_number(warm)?,
    })
}

// Whether tenants may want this together.
#[tactic(auto, using(crate::proofs::TenantLemmas::fault_is_over))]
fn may_want(config: &PoolConfig, wants: &[Want]) -> bool
    requires few { length wants.now ≤ MOST_TENANTS }
    requires slots { All HasSlots wants.now }
    ensures { result ≡ is_none (first_over config.now wants.now) }
{
    config.check_wants(wants).is_ok()
}

// The place of a name among these, from 0.
#[tactic(auto, unfolding(request_words::specs::Words::place_of))]
fn place(names: &[Items<u8>], name: &[u8]) -> Option<usize>
    ensures place { result ≡ place_of names.now name.now }
    ensures within { IfSome result (λ place. place < length names.now) }
{
    names.iter().position(|other| other.as_slice() == name)
}

impl TenantScope {
    // No tenant is named, and calls are tenant 0's. Takes no memory.
    pub(crate) fn new(alloc: Global) -> TenantScope
        ensures { result ≡ no_tenants }
    {
        TenantScope {
            names: Vec::new(alloc),
            wants: Vec::new(alloc),
            current: 0,
        }
    }

    // The tenant that has the calls that follow.
    pub(crate) fn current(&self) -> u32
        ensures current { result ≡ self.now.current }
        ensures within { result ≤ length self.now.wants }
    {
        self.current
    }

    // What tenants 1, 2, .. want.
    pub(crate) fn into_wants(self) -> Vec<Want>
        ensures { result.items ≡ self.wants }
    {
        self.wants
    }

    // The number of the tenant of this name.
    fn named(&self, name: &[u8]) -> Option<u32>
        ensures number { result ≡ tenant_named self.now name.now }
        ensures within { IfSome result (λ tenant. tenant ≤ length self.now.wants) }
    {
        let place = place(&self.names, name)?;
        Some(place as u32 + 1)
    }

    // One tenant more, of this name, that wants this.
    #[tactic(auto, unfolding(crate::specs::Tenants::tenants_with))]
    fn with(
        self,
        alloc: Global,
        config: &PoolConfig,
        name: &[u8],
        want: Want,
    ) -> Result<TenantScope, LineFault>
        requires few { length self.wants < MOST_TENANTS }
        requires slots { HasSlots want }
        ensures { Agrees result (tenants_with config.now self name.now want) }
    {
        let TenantScope {
            mut names,
            mut wants,
            current,
        } = self;
        wants.push(want).map_err(|_| LineFault::NoMemory)?;
        if !may_want(config, &wants) {
            return Err(LineFault::Refused(Reason::ShareTooLarge));
        }
        let name = Vec::from_slice(alloc, name)?;
        names
            .push(Items::new(name))
            .map_err(|_| LineFault::NoMemory)?;
        Ok(TenantScope {
            names,
            wants,
            current,
        })
    }

    // The tenants once one is named by the words after `tenant`.
    #[tactic(auto, unfolding(crate::specs::Tenants::tenant_after))]
    pub(crate) fn after_tenant(
        self,
        alloc: Global,
        config: &PoolConfig,
        words: &[u8],
    ) -> Result<TenantScope, LineFault>
        ensures { Agrees result (tenant_after config.now self (line_words words.now)) }
    {
        let (name, rest) = next_word(words).ok_or(Reason::BadWords)?;
        let (instances, rest) = next_word(rest).ok_or(Reason::BadWords)?;
        let (memories, rest) = next_word(rest).ok_or(Reason::BadWords)?;
        let (tables, rest) = next_word(rest).ok_or(Reason::BadWords)?;
        let (warm, rest) = next_word(rest).ok_or(Reason::BadWords)?;
        if next_word(rest).is_some() {
            return Err(LineFault::Refused(Reason::BadWords));
        }
        if name.len() > MOST_NAME_BYTES {
            return Err(LineFault::Refused(Reason::BadName));
        }
        let want = share(instances, memories, tables, warm)?;
        if self.named(name).is_some() {
            return Err(LineFault::Refused(Reason::NameUsedTwice));
        }
        if self.wants.len() >= MOST_TENANTS {
            return Err(LineFault::Refused(Reason::TooManyTenants));
        }
        self.with(alloc, config, name, want)
    }

    // The tenants once the words after `for` have named the one whose calls follow.
    #[tactic(auto, unfolding(crate::specs::Tenants::for_after))]
    pub(crate) fn after_for(self, words: &[u8]) -> Result<TenantScope, Reason>
        ensures { result ≡ for_after self (line_words words.now) }
    {
        let (name, rest) = next_word(words).ok_or(Reason::BadWords)?;
        if next_word(rest).is_some() {
            return Err(Reason::BadWords);
        }
        if name.len() > MOST_NAME_BYTES {
            return Err(Reason::BadName);
        }
        let current = self.named(name).ok_or(Reason::UnknownTenant)?;
        Ok(TenantScope { current, ..self })
    }
}
