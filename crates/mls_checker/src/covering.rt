//! Rules that others cover.
ghost use Rattle.std.specs.Prelude.{◌≡◌, ℕ, true, false, IsTrue};
ghost use Rattle.mls_checker.specs.Copies.{copied_layout};
ghost use Rattle.mls_checker.specs.Forbids.{forbids};
ghost use Rattle.mls_checker.specs.Maps.{forbidden_by_any, square};
ghost use Rattle.mls_geom.specs.Layouts.{Layout};
ghost use Rattle.mls_geom.specs.Rects.{Point as SpecPoint};

use crate::Snapshot;
use crate::idle::is_idle;
use mls_edgerule::EdgeRule;

/// Whether the rule differs from another one at most in distances, and reaches as far.
fn covers(rule: &EdgeRule, other: &EdgeRule) -> bool
    ensures { IsTrue result → (layout : Layout) (p : SpecPoint) → forbids other.now layout p ≡ true
        → forbids rule.now layout p ≡ true }
{
    if rule.distance < other.distance || rule.corner_distance < other.corner_distance {
        return false;
    }
    let reaching = EdgeRule {
        distance: rule.distance,
        corner_distance: rule.corner_distance,
        ..*other
    };
    *rule == reaching
}

/// Whether the rule may forbid what none of the other rules does.
pub(crate) fn is_needed(rule: &EdgeRule, others: &[EdgeRule], snapshot: &Snapshot) -> bool
    ensures { result ≡ false → (x y : ℕ) → forbids rule.now (copied_layout snapshot.now) (square x y) ≡ true
        → forbidden_by_any others.now (copied_layout snapshot.now) x y ≡ true }
{
    !is_idle(rule, snapshot) && !others.iter().any(|other| covers(other, rule))
}
