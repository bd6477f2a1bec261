//! The bits that threads share.
ghost use Rattle.std.specs.Prelude.{◌≡◌, ◌≤◌};

use crate::rule::Ruled;
use crate::setup::Setup;
use crate::views::TagView;
use atomic_table::Table;
use std::alloc::Global;

/// One bit for each tag, shared by `&`: whether the module of that tag is retired.
pub struct RetiredTags {
    pub(crate) table: Table<(), TagView, Setup, Ruled, Global>,
    ghost tags_are: { table.shared.table_id.words ≡ table.shared.key.tags },
    ghost some_tags: { 1 ≤ table.shared.key.tags },
}

impl Drop for RetiredTags {
    fn drop(self) {
        let RetiredTags { table: _ } = self;
    }
}
