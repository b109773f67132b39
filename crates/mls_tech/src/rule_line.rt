//! The lines of the section `drc`.
use crate::Rule;
use mls_text::Word;

/// A line that states a rule.
#[derive(Drop)]
pub struct RuleLine {
    /// The line's number in the file, from 1.
    pub line: usize,
    pub rule: Rule,
    /// Why the rule is there, in the words of the line.
    pub why: Word,
}

/// A line that was skipped, since its keyword or its adjacency isn't known.
#[derive(Drop)]
pub struct Skipped {
    /// The line's number in the file, from 1.
    pub line: usize,
    /// The line's first word.
    pub keyword: Word,
}
