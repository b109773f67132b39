//! Check steps one after another.
use mls_errorplane::Stepped;

/// How many check steps were done one after another, and how they ended.
#[derive(Clone, Copy)]
pub struct StepRun {
    /// How many steps were done.
    pub done: u64,
    /// [`Stepped::Done`] where as many were done as were asked for, and else how the first one ended that wasn't done.
    pub ended: Stepped,
}
