//! Tests of a server under a lock: what threads do there, and what no clause says.
#![tactic(auto)]

#[cfg(test)]
mod tests;
