//! The nodes of a segment tree, and what their slots show.
ghost use Rattle.std.specs.Prelude.{◌≡◌, ℕ, ◌<◌, ◌≤◌, max, false, IfSome, None, List, length};
ghost use Rattle.mls_geom.specs.declared.segment.Segment.{Segment};
ghost use Rattle.mls_geom.specs.declared.node.Shown.TheVariants.{Nothing};
ghost use Rattle.mls_geom.specs.Sweep.Trees.{Agrees, Bounds, kind_shown};

use crate::segment::Segment;
use mls_kinds::Kind;

/// What the covered ones of some slots show.
#[derive(Clone, Copy, PartialEq, Eq)]
pub(crate) enum Shown {
    Nothing,
    One(Kind),
    Several,
}

impl Shown {
    /// Returns what two parts show together.
    pub(crate) fn with(self, other: Shown) -> Shown
        ensures first { (rank : ℕ) (segments : List Segment) → Agrees segments self rank → Agrees segments result rank }
        ensures second { (rank : ℕ) (segments : List Segment) → Agrees segments other rank → Agrees segments result rank }
    {
        if self == other || other == Shown::Nothing {
            self
        } else if self == Shown::Nothing {
            other
        } else {
            Shown::Several
        }
    }
}

/// A node of a segment tree. A rank is the index of a piece and 1, and 0 where there is none.
#[derive(Clone, Copy)]
pub(crate) struct Node {
    /// The first entry of its chain.
    pub(crate) head: Option<u32>,
    /// The rank of the topmost of the present pieces that have the node.
    pub(crate) top: u32,
    /// The least and the greatest rank that its slots show, of the pieces of this node and of those below.
    pub(crate) least: u32,
    pub(crate) most: u32,
    pub(crate) shown: Shown,
}

/// Returns the kind that the piece of a rank shows.
pub(crate) fn kind_shown(segments: &[Segment], rank: u32) -> Option<Kind>
    requires { rank ≤ length segments.now }
    ensures { result ≡ kind_shown segments.now rank }
{
    if rank == 0 {
        return None;
    }
    Some(segments[(rank - 1) as usize].kind)
}

impl Node {
    /// Returns a node that no piece has.
    pub(crate) fn empty() -> Node
        ensures { result ≡ record { head = None; top = 0; least = 0; most = 0; shown = Nothing } }
    {
        Node {
            head: None,
            top: 0,
            least: 0,
            most: 0,
            shown: Shown::Nothing,
        }
    }

    /// Returns what its covered slots show under the piece of a rank.
    pub(crate) fn under(&self, segments: &[Segment], above: u32) -> Shown
        requires { above ≤ length segments.now }
        ensures { (rank : ℕ) → Bounds segments.now self.now rank → Agrees segments.now result (max above rank) }
    {
        if above <= self.least {
            return self.shown;
        }
        let Some(kind) = kind_shown(segments, above) else {
            return self.shown;
        };
        if self.most <= above || self.shown == Shown::One(kind) {
            Shown::One(kind)
        } else {
            Shown::Several
        }
    }

    /// Returns the kind that all its slots show under the piece of a rank, or `None` where that isn't known.
    pub(crate) fn decided(&self, segments: &[Segment], above: u32) -> Option<Option<Kind>>
        requires { above ≤ length segments.now }
        ensures { IfSome result (λ kind. (rank : ℕ) → Bounds segments.now self.now rank
            → kind ≡ kind_shown segments.now (max above rank)) }
    {
        match self.under(segments, above) {
            Shown::Nothing => Some(None),
            Shown::One(kind) if above > 0 || self.least > 0 => Some(Some(kind)),
            _ => None,
        }
    }

    /// Returns whether the piece of a rank may lie on top in its slots, under the piece of another rank, or `None` where
    /// the slots differ.
    pub(crate) fn may_show(&self, above: u32, rank: u32, kind: Kind) -> Option<bool>
        ensures { IfSome result (λ shows. shows ≡ false → (slot : ℕ) → self.now.least ≤ slot → rank < max above slot) }
    {
        if rank < above || rank < self.least {
            return Some(false);
        }
        (self.most <= rank || self.shown == Shown::One(kind)).then_some(true)
    }
}
