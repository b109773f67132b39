//! Lines, words, comma fields and digits: what every file and script that Kolasieve reads is made of.
#![tactic(auto)]

mod digits;
mod fields;
mod lines;
mod word;
mod words;

pub use digits::{is_number, value_at_most};
pub use fields::Fields;
pub use lines::{line_feed_at, next_line, without_return};
pub use word::Word;
pub use words::{Words, blanks_len, word_len};
