//! What a slot can hold.
ghost use Rattle.std.specs.Prelude.{◌≡◌, ◌<◌, ℕ, false};
ghost use Rattle.pool_core.specs.declared.words.State.{State};
ghost use Rattle.pool_core.specs.declared.words.State.TheVariants.{Cold, Warm};
ghost use Rattle.pool_core.specs.StateWords.{is_cold};

use pool_core::TAG_LIMIT;

/// A value that lies in a slot, and is cleaned between two tenants.
///
/// Its realm is the type `Images`: all images of that type serve all values of this one.
pub trait Pooled {
    /// What a value is restored from.
    type Images;

    /// The tag of the module that the value belongs to.
    ghost own_tag: { Self → ℕ };

    /// When a value may lie under a state word of this state and this tag.
    ghost fits: { State → ℕ → Self → Type 0 };

    /// Makes it a value of no module.
    fn clear(&mut self)
        ensures cold { fits Cold 0 self.new };

    /// Makes it what its own module's image says.
    fn restore(&mut self, images: &Self::Images)
        requires { (s : State) × (tag : ℕ) × (is_cold s ≡ false) × fits s tag self.old }
        ensures warm { fits Warm (own_tag self.old) self.new }
        ensures tag { own_tag self.new ≡ own_tag self.old };

    /// Its own tag, which a state word can say.
    fn tag(&self) -> u32
        requires { (s : State) × (tag : ℕ) × (is_cold s ≡ false) × fits s tag self.now }
        ensures is { result ≡ own_tag self.now }
        ensures small { result < TAG_LIMIT };

    ghost fits_own_tag: { (s : State) (tag : ℕ) (x : Self) → is_cold s ≡ false → fits s tag x → own_tag x ≡ tag };
}
