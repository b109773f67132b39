//! Tests of a server: findings that come back late, and scripts from inputs and to outputs that misbehave.
#![tactic(auto)]

#[cfg(test)]
mod tests;
