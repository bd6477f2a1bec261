//! What holds of every core, as the proofs of the steps take it.
ghost use Rattle.slot_words.specs.CoreLaws.{CoresAreLawful};

use pool_core::laws::{
    each_event_keeps_a_core_lawful, held_words_have_one_seat, seats_live_until_joined_or_closed,
    the_lowest_bit_says_held, the_opening_is_lawful, values_out_change_nothing_else,
    words_are_read_back,
};

// This does nothing: its contract is what the core's laws say.
pub(crate) fn core_laws()
    ensures { CoresAreLawful }
{
    the_opening_is_lawful();
    each_event_keeps_a_core_lawful();
    seats_live_until_joined_or_closed();
    held_words_have_one_seat();
    values_out_change_nothing_else();
    words_are_read_back();
    the_lowest_bit_says_held();
}
