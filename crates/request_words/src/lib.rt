//! The lines of a request file, the words of a line, and the numbers, arguments and bytes that they stand for.
#![tactic(auto)]

mod digits;
mod numbers;
mod words;

pub use digits::hex_bytes;
pub use numbers::{fuel, leading_argument, leading_fuel, number_up_to};
pub use words::{
    from_word, has_printable_lines, is_comment, is_printable, next_line, next_word, strip_word,
};
