//! The numbers that a load is drawn from.
ghost use Rattle.std.specs.Prelude.{◌≡◌};
ghost use Rattle.load_maker.specs.Load.{draw_of, state_after};

/// What a state is multiplied by.
pub const MULTIPLIER: u64 = 6_364_136_223_846_793_005;

/// What is added to it then.
pub const INCREMENT: u64 = 1_442_695_040_888_963_407;

// The state that follows.
pub(crate) fn state_after(state: u64) -> u64
    ensures { result ≡ state_after state }
{
    state.wrapping_mul(MULTIPLIER).wrapping_add(INCREMENT)
}

// The number that is drawn from a state.
pub(crate) fn draw_of(state: u64) -> u64
    ensures { result ≡ draw_of state }
{
    state >> 33
}
