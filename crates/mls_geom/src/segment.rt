//! Pieces on slots.
use crate::part::Span;
use mls_kinds::Kind;

/// A piece on slots: those that it lies on, the line at which it ends, and its kind.
#[derive(Clone, Copy)]
pub(crate) struct Segment {
    pub(crate) span: Span,
    pub(crate) end: u32,
    pub(crate) kind: Kind,
}
