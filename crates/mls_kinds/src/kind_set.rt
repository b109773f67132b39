//! Sets of kinds, a bit for each.
ghost use Rattle.std.specs.Iterator.{YieldsFirstBy, item_count};
ghost use Rattle.std.specs.Prelude.{◌≡◌, ◌<◌, ◌==◌, ◌↔◌, not, length, [], ◌∷◌, IfSome, IsTrue, MatchOption};
ghost use Rattle.mls_kinds.specs.KindSets.{has_bit, set_of, union, intersection, difference, members, with_kind};

use crate::Kind;
use std::marker::Model;

/// A set of kinds, 0 to 63.
///
/// Contracts see the number whose bit k is 1 for each kind k in the set.
#[derive(Clone, Copy, Debug, PartialEq, Eq)]
pub struct KindSet {
    bits: u64,
}

impl Model for KindSet {
    ghost use Rattle.std.specs.Prelude.{ℕ};

    ghost Value = { ℕ };

    ghost view = { λ set. set.bits };

    ghost inverse = { λ bits. record { bits = bits } };
}

impl KindSet {
    /// The set without kinds.
    pub const fn empty() -> Self
        ensures { result ≡ 0 }
    {
        KindSet { bits: 0 }
    }

    /// The set of one kind.
    #[tactic(auto, using(crate::proofs::KindSetLemmas::single_is))]
    pub fn single(kind: Kind) -> Self
        requires { kind < 64 }
        ensures { result ≡ set_of (λ other. other == kind) }
    {
        KindSet {
            bits: 1 << kind.number(),
        }
    }

    /// The number whose bit k is 1 for each kind k in the set.
    pub const fn bits(self) -> u64
        ensures { result ≡ self }
    {
        self.bits
    }

    /// Adds a kind, and returns whether the set was without it. Kinds from 64 on aren't added.
    pub fn insert(&mut self, kind: Kind) -> bool
        ensures set { self.new ≡ with_kind self.old kind }
        ensures new { result ≡ not (has_bit self.old kind) }
    {
        let is_new = !self.contains(kind);
        let added = if kind.number() < 64 {
            KindSet::single(kind)
        } else {
            KindSet::empty()
        };
        *self = self.union(added);
        is_new
    }

    /// Whether the kind is in the set. No kind from 64 on is.
    #[tactic(auto, using(crate::proofs::KindSetLemmas::has_bit_from_64))]
    pub fn contains(self, kind: Kind) -> bool
        ensures { result ≡ has_bit self kind }
    {
        kind.number() < 64 && (self.bits >> kind.number()) & 1 == 1
    }

    /// The kinds of either set.
    #[tactic(auto, using(crate::proofs::KindSetLemmas::union_is))]
    pub fn union(self, other: Self) -> Self
        ensures { result ≡ union self other }
    {
        KindSet {
            bits: self.bits | other.bits,
        }
    }

    /// The kinds of both sets.
    #[tactic(auto, using(crate::proofs::KindSetLemmas::intersection_is))]
    pub fn intersection(self, other: Self) -> Self
        ensures { result ≡ intersection self other }
    {
        KindSet {
            bits: self.bits & other.bits,
        }
    }

    /// The kinds of the set that aren't in the other one.
    #[tactic(auto, using(crate::proofs::KindSetLemmas::difference_is))]
    pub fn difference(self, other: Self) -> Self
        ensures { result ≡ difference self other }
    {
        KindSet {
            bits: self.bits & !other.bits,
        }
    }

    /// Whether the set has no kinds.
    #[tactic(auto, using(crate::proofs::KindSetLemmas::empty_is))]
    pub fn is_empty(self) -> bool
        ensures value { result ≡ (self == 0) }
        ensures members { IsTrue result ↔ (members self ≡ []) }
    {
        self.bits == 0
    }

    /// The number of kinds in the set.
    #[tactic(auto, using(crate::proofs::KindSetLemmas::len_is))]
    pub fn len(self) -> usize
        ensures { result ≡ length (members self) }
    {
        self.bits.count_ones() as usize
    }

    /// The kinds, in ascending order.
    pub fn iter(self) -> Iter
        ensures { result ≡ members self }
    {
        Iter { left: self }
    }

    /// The lowest kind.
    #[tactic(auto, using(crate::proofs::KindSetLemmas::first_is))]
    fn first(self) -> Option<Kind>
        ensures kind { IfSome result (λ kind. kind < 64) }
        ensures first { MatchOption result (members self ≡ [])
            (λ kind. members self ≡ kind ∷ members (difference self (set_of (λ other. other == kind)))) }
    {
        if self.bits == 0 {
            return None;
        }
        Some(Kind::new(self.bits.trailing_zeros() as u8))
    }
}

/// The kinds of a set that are left, in ascending order.
#[derive(Clone, Debug, Drop)]
pub struct Iter {
    left: KindSet,
}

impl Model for Iter {
    ghost use Rattle.std.specs.Prelude.{ℕ, List};
    ghost use Rattle.mls_kinds.specs.KindSets.{members};

    ghost Value = { List ℕ };

    ghost view = { λ kinds. members kinds.left };
}

impl Iterator for Iter {
    type Item = Kind;

    ghost next_gives = { YieldsFirstBy (λ kind. kind) (λ kinds. kinds) };

    ghost remaining = { item_count (λ kinds. kinds) };

    fn next(&mut self) -> Option<Kind> {
        let kind = self.left.first()?;
        self.left = self.left.difference(KindSet::single(kind));
        Some(kind)
    }
}
