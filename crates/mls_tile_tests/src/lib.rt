//! Tests of pools, stitched planes, replacement and painting.
#![tactic(auto)]

#[cfg(test)]
mod tests;
