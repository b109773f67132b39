//! Tests of the layers from rectangles to sessions and checks.
#![tactic(auto)]

#[cfg(test)]
mod tests;
