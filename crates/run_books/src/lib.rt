//! The books of a run: the entries of a file's modules, the calls that are put to a queue, and the board of their lines.
#![tactic(auto)]

mod books;
mod call_lines;
mod counts;
mod due_list;
mod modules;
mod putter;

pub use books::{Books, Registry, Span};
pub use call_lines::{answer_line, collect, collect_all};
pub use counts::{calls_in, count_modules};
pub use due_list::dues;
pub use modules::{Entry, enter_round, entry_at, entry_line};
pub use putter::{Put, Putter, put_all};
