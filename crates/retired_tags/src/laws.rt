//! What holds of the definitions alone. Each function does nothing: its contract is the law.
ghost use Rattle.std.specs.Prelude.{ℕ, List, ◌++◌};
ghost use Rattle.retired_tags.specs.declared.views.TagStep.{TagStep};
ghost use Rattle.retired_tags.specs.Rule.{SetByOne, SetForGood};
ghost use Rattle.retired_tags.specs.Steps.{Knows};

/// What a pass knows to be set, it knows after whatever it does.
pub fn what_is_known_stays_known()
    ensures { (n : ℕ) (done more : List TagStep) → Knows n done → Knows n (done ++ more) }
{}

/// What the rule says of each moment, for all passes together: the bits that are set are those that some pass set, and a bit that some pass knows to be set is set.
pub fn a_set_bit_stays_set()
    ensures { SetForGood }
{}

/// What the rule says of each moment, for any two passes: of all their steps, no more than one read the bit of a tag not set and set it.
pub fn one_step_sets_a_bit_first()
    ensures { SetByOne }
{}
