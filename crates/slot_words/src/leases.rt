//! What a claim answers.
ghost use Rattle.std.specs.Prelude.{◌≡◌};
ghost use Rattle.slot_words.specs.Leases.{lease_number, lease_word};

use thiserror::Error;

/// A slot that a claim won, until `Words::release`. One that is dropped leaves its number held by the pass, as [`Lease::keep`] does.
#[derive(Drop)]
pub struct Lease<V> {
    pub value: V,
    pub(crate) number: u32,
    pub(crate) word: u64,
}

/// Another pass holds the slot.
#[derive(Debug, Drop, Error)]
#[error("another pass holds the slot")]
pub struct Held;

impl<V> Lease<V> {
    /// The slot's number.
    pub fn number(&self) -> u32
        ensures { result ≡ lease_number self.now }
    {
        self.number
    }

    /// The state word that the claim read.
    pub fn word(&self) -> u64
        ensures { result ≡ lease_word self.now }
    {
        self.word
    }

    /// Spends the lease and takes the value for good. The slot's number stays held by the pass.
    pub fn keep(self) -> V
        ensures { result ≡ self.value }
    {
        let Lease {
            value,
            number: _,
            word: _,
        } = self;
        value
    }
}
