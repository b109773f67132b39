//! A rule, and what it forbids in a rectangle.
ghost use Rattle.std.specs.Prelude.{◌≡◌};

use mls_geom::Rect;
use std::marker::Model;

/// A rule, and the maximal strips of the squares of a rectangle that it forbids.
#[derive(Drop)]
pub struct Violation {
    pub(crate) rule: usize,
    pub(crate) strips: Vec<Rect>,
}

impl Model for Violation {
    ghost use Rattle.mls_errorplane.specs.Violations.{Violation};

    ghost Value = { Violation };

    ghost view = { λ v. record { rule = v.rule; strips = v.strips.items } };
}

impl Violation {
    /// Returns the rule's number, counted from 1.
    pub fn rule(&self) -> usize
        ensures { result ≡ self.now.rule }
    {
        self.rule
    }

    /// Returns the strips, by bottom and then left.
    pub fn strips(&self) -> &[Rect]
        ensures { result.now ≡ self.now.strips }
    {
        &self.strips
    }
}
