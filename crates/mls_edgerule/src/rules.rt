//! Lists of compiled rules.
ghost use Rattle.std.specs.Prelude.{◌≡◌, ◌≤◌, [], length, ◌<◌, ◌++◌, ◌∷◌, nat_le};
ghost use Rattle.mls_edgerule.specs.Halos.{halo_of};
ghost use Rattle.mls_edgerule.specs.RuleLists as spec;

use crate::{Directions, EdgeRule};
use mls_kinds::{KindSet, PlaneNumber};
use std::marker::Model;

/// The most rules that a technology may have.
const RULE_LIMIT: usize = 128;

/// Compiled rules, at most 128, numbered from 1.
#[derive(Clone, Copy)]
pub struct Rules {
    rules: [EdgeRule; RULE_LIMIT],
    len: usize,
}

impl Model for Rules {
    ghost use Rattle.std.specs.Prelude.{List, length, take};
    ghost use Rattle.mls_edgerule.specs.RuleLists.{KeepsRules, padded};
    ghost use Rattle.mls_edgerule.specs.declared.edge_rule.EdgeRule.{EdgeRule};

    ghost Value = { List EdgeRule };

    ghost view = { λ kept. take kept.len kept.rules };

    ghost invariant = { λ kept. KeepsRules kept.rules kept.len };

    ghost inverse = { λ rules. record { rules = padded rules; len = length rules } };

    ghost inverse_ok = { λ value kept i. record { rules = kept.rest i; len = kept.taken i } };
}

/// The content of a place without a rule.
fn no_rule() -> EdgeRule
    ensures { result ≡ spec.no_rule }
{
    EdgeRule {
        types1: KindSet::empty(),
        types2: KindSet::empty(),
        ok_types: KindSet::empty(),
        corner_types: KindSet::empty(),
        distance: 1,
        corner_distance: 0,
        directions: Directions::RightAndUp,
        trigger_plane: PlaneNumber::new(0),
        check_plane: PlaneNumber::new(0),
    }
}

impl Rules {
    /// No rules.
    pub fn new() -> Rules
        ensures { result ≡ [] }
    {
        Rules {
            rules: [no_rule(); RULE_LIMIT],
            len: 0,
        }
    }

    /// The rules in order.
    pub fn as_slice(&self) -> &[EdgeRule]
        ensures value { result.now ≡ self.now }
        ensures limit { length self.now ≤ spec.rule_limit }
    {
        &self.rules[..self.len]
    }

    /// Whether the list is as long as it may be.
    pub(crate) fn is_full(&self) -> bool
        ensures { result ≡ nat_le spec.rule_limit (length self.now) }
    {
        self.len >= RULE_LIMIT
    }

    /// Appends a rule.
    pub(crate) fn push(&mut self, rule: EdgeRule)
        requires { length self.old < spec.rule_limit }
        ensures { self.new ≡ self.old ++ rule ∷ [] }
    {
        self.rules[self.len] = rule;
        self.len += 1;
    }

    /// Returns rule `n`, from 1.
    pub fn get(&self, n: usize) -> Option<EdgeRule>
        ensures { result ≡ spec.rule_numbered self.now n }
    {
        self.as_slice().get(n.checked_sub(1)?).copied()
    }

    /// How far the rules reach, in squares: one more than the greatest distance or corner distance, and 1
    /// where there are no rules.
    pub fn halo(&self) -> u32
        ensures value { result ≡ halo_of self.now }
        ensures bounded { result ≤ 256 }
    {
        let mut reach = 1;
        for rule in &self.rules[..self.len] {
            reach = reach.max(1 + u32::from(rule.distance.max(rule.corner_distance)));
        }
        reach
    }
}
