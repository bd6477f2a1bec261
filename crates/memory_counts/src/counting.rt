//! Counts that grow by one.
ghost use Rattle.std.specs.Prelude.{◌≡◌, ◌+◌, ◌%◌, ◌^◌, ◌==◌, ◌&&◌};
ghost use Rattle.pool_core.specs.StateWords.{bit, is_warm};

use pool_core::{State, Target};

// One more modulo 2^64, or the same.
pub(crate) fn one_more(count: u64, more: bool) -> u64
    ensures { result ≡ (count + bit more) % 2 ^ 64 }
{
    if more {
        return count.wrapping_add(1);
    }
    count
}

// Whether a slot that was left like this is warm for the module of this tag.
pub(crate) fn is_own_warm(left: Target, tag: u32) -> bool
    ensures { result ≡ (is_warm left.state && (left.tag == tag)) }
{
    match left.state {
        State::Warm => left.tag == tag,
        State::Cold | State::Awaiting => false,
    }
}
