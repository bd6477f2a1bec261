//! What each step tells its pass. These types are for the proofs alone.
ghost use Rattle.retired_tags.specs.Outcomes.{Retires, Looks};

use crate::views::TagView;
use atomic_table::Play;

pub(crate) struct Retiring;

impl Play<(), TagView> for Retiring {
    ghost then = { Retires };
}

pub(crate) struct Looking;

impl Play<(), TagView> for Looking {
    ghost then = { Looks };
}
