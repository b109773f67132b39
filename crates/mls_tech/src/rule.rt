//! The rule lines of a technology file, as they are written.
use mls_kinds::{KindSet, PlaneNumber};

/// Whether types may touch that are spaced apart otherwise.
#[derive(Clone, Copy)]
pub enum Adjacency {
    TouchingOk,
    TouchingIllegal,
}

/// An `edge` or `edge4way` line. Distances are in squares.
#[derive(Clone, Copy)]
pub struct Edge {
    pub types1: KindSet,
    pub types2: KindSet,
    pub distance: u8,
    pub ok_types: KindSet,
    pub corner_types: KindSet,
    pub corner_distance: u8,
    /// The plane that is checked, if the line names one.
    pub plane: Option<PlaneNumber>,
}

/// A rule line. Distances are in squares.
#[derive(Clone, Copy)]
pub enum Rule {
    Width(KindSet, u8),
    Spacing(KindSet, KindSet, u8, Adjacency),
    Edge(Edge),
    Edge4Way(Edge),
}
