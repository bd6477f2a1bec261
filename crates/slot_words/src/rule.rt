//! The rule that the words, the values and the passes keep at each moment.
ghost use Rattle.slot_words.specs.Shows.{IsKept};
ghost use Rattle.slot_words.specs.Views.{first_view};

use crate::pooled::Pooled;
use crate::views::{Bounds, PassView};
use atomic_table::TableRule;
use std::marker::PhantomData;

/// At each moment the words, the values at home and the passes show one core, that core is lawful, and one list of events from the opening, of which the passes' trails are what their seats noted, leads to it.
pub struct Ruled<V> {
    marker: PhantomData<V>,
}

impl<V: Pooled> TableRule<Option<V>, PassView, Bounds> for Ruled<V> {
    ghost holds = { λ k s. IsKept V.fits k s };

    ghost first = { λ k. first_view k };
}
