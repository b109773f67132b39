//! The tests, and what they share.
mod checks;
mod dice;
mod fields;
mod lattices;
mod layouts;
mod random_checks;
mod rule_files;
mod words;
