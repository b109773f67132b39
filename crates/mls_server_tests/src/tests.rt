//! The tests, and what they share.
mod findings;
mod servers;
mod words;
