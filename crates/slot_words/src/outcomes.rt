//! What each step tells its pass. These types are for the proofs alone.
ghost use Rattle.slot_words.specs.Outcomes.{Loads, Claims, Releases, LoadsWarm, WarmsUp, WarmsDown, Stamps, AwaitsUp, AwaitsDown, LoadsAwait};

use crate::pooled::Pooled;
use crate::views::PassView;
use atomic_table::Play;

pub(crate) struct Loading;

impl<V> Play<Option<V>, PassView> for Loading {
    ghost then = { Loads };
}

pub(crate) struct Claiming;

impl<V: Pooled> Play<Option<V>, PassView> for Claiming {
    ghost then = { Claims V.fits };
}

pub(crate) struct Releasing;

impl<V> Play<Option<V>, PassView> for Releasing {
    ghost then = { Releases };
}

pub(crate) struct WarmLoading;

impl<V> Play<Option<V>, PassView> for WarmLoading {
    ghost then = { LoadsWarm };
}

pub(crate) struct WarmingUp;

impl<V> Play<Option<V>, PassView> for WarmingUp {
    ghost then = { WarmsUp };
}

pub(crate) struct WarmingDown;

impl<V> Play<Option<V>, PassView> for WarmingDown {
    ghost then = { WarmsDown };
}

pub(crate) struct Stamping;

impl<V> Play<Option<V>, PassView> for Stamping {
    ghost then = { Stamps };
}

pub(crate) struct AwaitingUp;

impl<V> Play<Option<V>, PassView> for AwaitingUp {
    ghost then = { AwaitsUp };
}

pub(crate) struct AwaitingDown;

impl<V> Play<Option<V>, PassView> for AwaitingDown {
    ghost then = { AwaitsDown };
}

pub(crate) struct AwaitLoading;

impl<V> Play<Option<V>, PassView> for AwaitLoading {
    ghost then = { LoadsAwait };
}
