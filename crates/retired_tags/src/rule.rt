//! The rule that the words and the passes keep at each moment.
ghost use Rattle.retired_tags.specs.Rule.{Kept};
ghost use Rattle.retired_tags.specs.Views.{first_view};

use crate::setup::Setup;
use crate::views::TagView;
use atomic_table::TableRule;

/// At each moment the bits that are set are those that the passes set, and each pass knows nothing else of them.
pub struct Ruled;

impl TableRule<(), TagView, Setup> for Ruled {
    ghost holds = { λ k s. Kept k s };

    ghost first = { λ k. first_view k.passes };
}
