//! The words that threads share.
ghost use Rattle.std.specs.Prelude.{◌≡◌, ◌+◌, ◌≤◌};
ghost use Rattle.pool_core.specs.declared.limits.TheConstants.{MOST_SLOTS};

use crate::pooled::Pooled;
use crate::rule::Ruled;
use crate::views::{Bounds, PassView};
use atomic_table::Table;
use std::alloc::Global;

/// The state words, the count words and the values of the slots, shared by `&`.
///
/// All words stand in one table: word n is slot n's, and then come the warm word, the await word and the clock word.
#[derive(Drop)]
pub struct Words<V: Pooled> {
    pub(crate) table: Table<Option<V>, PassView, Bounds, Ruled<V>, Global>,
    pub(crate) slots: usize,
    pub(crate) limit: u64,
    ghost words_are: { table.shared.table_id.words ≡ slots + 3 },
    ghost slots_are: { table.shared.table_id.slots ≡ slots },
    ghost limit_is: { table.shared.key.limit ≡ limit },
    ghost some_slots: { 1 ≤ slots },
    ghost few_slots: { slots ≤ MOST_SLOTS },
}
