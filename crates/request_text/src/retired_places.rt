//! The modules that the lines before have retired.
ghost use Rattle.std.specs.Prelude.{◌≡◌, [], ◌∷◌, ◌++◌, OnErr, OnOk};
ghost use Rattle.request_text.specs.Text.{is_retired};

use std::alloc::{AllocError, Global};
use std::collections::BTreeSet;
use std::marker::Model;

// The modules that are retired, which contracts see as their places, in the order of the retire lines, and which are looked up in a set.
#[derive(Drop)]
pub(crate) struct RetiredPlaces {
    order: Vec<u32>,
    places: BTreeSet<u32>,
}

impl Model for RetiredPlaces {
    ghost use Rattle.std.specs.Prelude.{ℕ, List};

    ghost Value = { List ℕ };

    ghost view = { λ r. r.order.items };

    ghost use Rattle.request_text.specs.Reading.{AreRetired};

    ghost invariant = { λ r. AreRetired r.places r.order.items };
}

impl RetiredPlaces {
    // No module is retired. Takes no memory.
    pub(crate) fn new(alloc: Global) -> RetiredPlaces
        ensures { result ≡ [] }
    {
        RetiredPlaces {
            order: Vec::new(alloc),
            places: BTreeSet::new(alloc),
        }
    }

    // Whether the module at this place is retired.
    pub(crate) fn contains(&self, place: u32) -> bool
        ensures { result ≡ is_retired self.now place }
    {
        self.places.contains(&place)
    }

    // Retires the module at this place too.
    pub(crate) fn add(&mut self, place: u32) -> Result<(), AllocError>
        ensures more { OnOk result (self.new ≡ self.old ++ place ∷ []) }
        ensures kept { OnErr result (self.new ≡ self.old) }
    {
        self.order.reserve(1)?;
        self.places.insert(place).map_err(|_| AllocError)?;
        self.order.push_reserved(place);
        Ok(())
    }
}
