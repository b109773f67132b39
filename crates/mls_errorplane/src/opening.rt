//! How checking begins, where nothing is painted yet.
ghost use Rattle.std.specs.Prelude.{◌≡◌, IfOk};
ghost use Rattle.mls_geom.specs.Pictures.{empty_picture};
ghost use Rattle.mls_errorplane.specs.Checkings.{forbids_any, opening_checking};
ghost use Rattle.mls_errorplane.specs.EmptyLayouts.{forbids_space};

use crate::Dirty;
use mls_edgerule::{EdgeRule, Rules};
use mls_geom::Rect;
use mls_kinds::Kind;
use std::alloc::{AllocError, Global};

/// Creates the areas of an empty layout that await checking: the whole world where the rules forbid some square of
/// it, and otherwise none.
pub fn opening_areas(alloc: Global, rules: &Rules) -> Result<Dirty, AllocError>
    ensures { IfOk result (λ dirty. dirty ≡ (opening_checking rules.now).dirty) }
{
    let mut dirty = Dirty::new(alloc)?;
    if forbid_empty_layout(rules) {
        dirty.add(Rect::world(), 0);
    }
    Ok(dirty)
}

/// Returns whether the rules forbid some square of the world in an empty layout.
fn forbid_empty_layout(rules: &Rules) -> bool
    ensures { result ≡ forbids_any rules.now (λ plane. empty_picture) }
{
    rules.as_slice().iter().any(|rule| forbids_space(rule))
}

/// Returns whether the rule forbids the squares of an empty layout. It forbids each or none of them.
fn forbids_space(rule: &EdgeRule) -> bool
    ensures { result ≡ forbids_space rule.now }
{
    rule.types1.contains(Kind::SPACE)
        && rule.types2.contains(Kind::SPACE)
        && !rule.ok_types.contains(Kind::SPACE)
        && (rule.distance > 0
            || (rule.corner_distance > 0 && rule.corner_types.contains(Kind::SPACE)))
}
