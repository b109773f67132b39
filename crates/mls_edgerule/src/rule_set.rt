//! Sets of rules, a bit for each.
ghost use Rattle.std.specs.Iterator.{YieldsFirstBy, item_count};
ghost use Rattle.std.specs.Prelude.{◌≡◌, ℕ, ◌==◌, ◌≤◌, ◌↔◌, List, length, [], ◌∷◌, IfSome, IsTrue, MatchOption};
ghost use Rattle.mls_edgerule.specs.RuleLists.{rule_limit};
ghost use Rattle.mls_edgerule.specs.RuleSets.{rules_in, union, with_rule, without_rule};

use std::marker::Model;

/// A set of rules by their numbers, 1 to 128.
///
/// Contracts see the number whose bit n - 1 is 1 for each rule n in the set.
#[derive(Clone, Copy, Debug, PartialEq, Eq)]
pub struct RuleSet {
    bits: u128,
}

impl Model for RuleSet {
    ghost Value = { ℕ };

    ghost view = { λ set. set.bits };

    ghost inverse = { λ bits. record { bits = bits } };
}

impl RuleSet {
    /// The set without rules.
    pub const fn empty() -> Self
        ensures { result ≡ 0 }
    {
        RuleSet { bits: 0 }
    }

    /// The number whose bit n - 1 is 1 for each rule n in the set.
    pub const fn bits(self) -> u128
        ensures { result ≡ self }
    {
        self.bits
    }

    /// Adds rule `n`.
    #[tactic(auto, using(crate::proofs::RuleSetLemmas::with_rule_is))]
    pub fn insert(&mut self, n: usize)
        requires first { 1 ≤ n }
        requires last { n ≤ rule_limit }
        ensures { self.new ≡ with_rule self.old n }
    {
        self.bits |= 1 << (n - 1);
    }

    /// The rules of either set.
    #[tactic(auto, using(crate::proofs::RuleSetLemmas::union_is))]
    pub fn union(self, other: Self) -> Self
        ensures { result ≡ union self other }
    {
        RuleSet {
            bits: self.bits | other.bits,
        }
    }

    /// Whether the set has no rules.
    #[tactic(auto, using(crate::proofs::RuleSetLemmas::empty_is))]
    pub fn is_empty(self) -> bool
        ensures value { result ≡ (self == 0) }
        ensures rules { IsTrue result ↔ (rules_in self ≡ []) }
    {
        self.bits == 0
    }

    /// The number of rules in the set.
    #[tactic(auto, using(crate::proofs::RuleSetLemmas::len_is))]
    pub fn len(self) -> usize
        ensures { result ≡ length (rules_in self) }
    {
        self.bits.count_ones() as usize
    }

    /// The numbers of the rules, in rising order.
    pub fn iter(self) -> RuleNumbers
        ensures { result ≡ rules_in self }
    {
        RuleNumbers { left: self }
    }

    /// The lowest number.
    #[tactic(auto, using(crate::proofs::RuleSetLemmas::first_is))]
    fn first(self) -> Option<usize>
        ensures within { IfSome result (λ n. (1 ≤ n) × (n ≤ rule_limit)) }
        ensures first { MatchOption result (rules_in self ≡ [])
            (λ n. rules_in self ≡ n ∷ rules_in (without_rule self n)) }
    {
        if self.bits == 0 {
            return None;
        }
        Some(self.bits.trailing_zeros() as usize + 1)
    }

    /// The set without rule `n`.
    #[tactic(auto, using(crate::proofs::RuleSetLemmas::without_rule_is))]
    fn without(self, n: usize) -> Self
        requires first { 1 ≤ n }
        requires last { n ≤ rule_limit }
        ensures { result ≡ without_rule self n }
    {
        RuleSet {
            bits: self.bits & !(1 << (n - 1)),
        }
    }
}

/// The numbers of the rules of a set that are left, in rising order.
#[derive(Clone, Drop)]
pub struct RuleNumbers {
    left: RuleSet,
}

impl Model for RuleNumbers {
    ghost Value = { List ℕ };

    ghost view = { λ numbers. rules_in numbers.left };
}

impl Iterator for RuleNumbers {
    type Item = usize;

    ghost next_gives = { YieldsFirstBy (λ n. n) (λ numbers. numbers) };

    ghost remaining = { item_count (λ numbers. numbers) };

    fn next(&mut self) -> Option<usize> {
        let n = self.left.first()?;
        self.left = self.left.without(n);
        Some(n)
    }
}
