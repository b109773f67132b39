//! What rules forbid in a rectangle of a layout, whatever its size, rule by rule.
ghost use Rattle.std.specs.Prelude.{◌≡◌, ◌<◌, ◌≤◌, ◌++◌, ◌∷◌, [], None, length, map, IfErr, IfOk, IfSome, OnOk};
ghost use Rattle.mls_errorplane.specs.Common.{GainSomeViolations, GainViolations, HasLayout, IfTooMany, flat_layout, rules_in};
ghost use Rattle.mls_errorplane.specs.Halves.{AreHalves};
ghost use Rattle.mls_errorplane.specs.Violations.{listed_violation, strip_count, violations_in};

use crate::CheckContext;
use crate::halving::{halves, longer_halves};
use crate::set_strips::find_strips;
use crate::violated::why;
use crate::violation::Violation;
use mls_checker::Violations;
use mls_edgerule::RuleSet;
use mls_geom::Rect;
use mls_layout::{Unlisted, Workspace};
use mls_stitch::Plane;
use std::alloc::{AllocError, Global};

/// Returns each rule that forbids some square of the rectangle in the layout on these planes with the uses, by rising
/// number, with the maximal strips of the squares that it forbids there.
///
/// First [`why`] finds these rules; then the rectangle is read once more for what they forbid. Fails if they have more
/// than `limit` strips together, or memory runs out.
pub fn violations(
    alloc: Global,
    planes: &[Plane],
    context: &CheckContext<'_>,
    rect: Rect,
    limit: usize,
    workspace: &mut Workspace,
) -> Result<Vec<Violation>, Unlisted>
    requires layout { HasLayout workspace.old.pool planes.now context.now.uses.library.now }
    ensures value { IfOk result (λ list. list.items ≡ violations_in context.now.rules.now rect
        (flat_layout workspace.old.pool context.now.uses planes.now)) }
    ensures within { OnOk result (strip_count (violations_in context.now.rules.now rect
        (flat_layout workspace.old.pool context.now.uses planes.now)) ≤ limit) }
    ensures too_many { IfErr result (λ fault. IfTooMany fault (limit < strip_count (violations_in context.now.rules.now
        rect (flat_layout workspace.old.pool context.now.uses planes.now)))) }
    ensures pool { workspace.new.pool ≡ workspace.old.pool }
{
    let violated = why(alloc, planes, context, rect, workspace)?;
    if violated.is_empty() {
        return Ok(Vec::new(alloc));
    }
    let mut found = Violations::new(alloc, context.rules)?;
    gather(
        alloc, planes, context, violated, rect, &mut found, workspace,
    )?;
    list_violations(alloc, violated, &found, rect, limit)
}

/// Gathers areas of the squares of the rectangle that the rules of the set forbid.
fn gather(
    alloc: Global,
    planes: &[Plane],
    context: &CheckContext<'_>,
    of: RuleSet,
    rect: Rect,
    found: &mut Violations,
    workspace: &mut Workspace,
) -> Result<(), AllocError>
    requires layout { HasLayout workspace.old.pool planes.now context.now.uses.library.now }
    requires as_many { length found.old ≡ length context.now.rules.now }
    ensures gathered { OnOk result (GainViolations context.now.rules.now of rect
        (flat_layout workspace.old.pool context.now.uses planes.now) found.old found.new) }
    ensures pool { workspace.new.pool ≡ workspace.old.pool }
{
    let cut = gather_or_cut(alloc, planes, context, of, rect, found, workspace)?;
    let Some(parts) = cut else {
        return Ok(());
    };
    gather(alloc, planes, context, of, parts.0, found, workspace)?;
    gather(alloc, planes, context, of, parts.1, found, workspace)
}

/// Gathers areas of the squares of the rectangle that the rules of the set forbid, or returns its halves, where many
/// tiles or many areas lie in a large rectangle. Some areas may have been added then.
fn gather_or_cut(
    alloc: Global,
    planes: &[Plane],
    context: &CheckContext<'_>,
    of: RuleSet,
    rect: Rect,
    found: &mut Violations,
    workspace: &mut Workspace,
) -> Result<Option<(Rect, Rect)>, AllocError>
    requires layout { HasLayout workspace.old.pool planes.now context.now.uses.library.now }
    requires as_many { length found.old ≡ length context.now.rules.now }
    ensures gathered { IfOk result (λ parts. parts ≡ None → GainViolations context.now.rules.now of rect
        (flat_layout workspace.old.pool context.now.uses planes.now) found.old found.new) }
    ensures some { IfOk result (λ parts. IfSome parts (λ halves. GainSomeViolations context.now.rules.now of rect
        (flat_layout workspace.old.pool context.now.uses planes.now) found.old found.new)) }
    ensures halves { IfOk result (λ parts. IfSome parts (λ halves. AreHalves rect halves.0 halves.1)) }
    ensures pool { workspace.new.pool ≡ workspace.old.pool }
{
    if let Some(parts) = halves(planes, &context.uses, rect, workspace) {
        return Ok(Some(parts));
    }
    let is_gathered = {
        let snapshot = context.copy_round(alloc, planes, rect, workspace)?;
        found.find(alloc, context.rules, of, &snapshot, rect)?
    };
    if is_gathered {
        return Ok(None);
    }
    Ok(Some(longer_halves(rect)))
}

/// Lists for each rule of the set the maximal strips of what its areas have of the rectangle.
///
/// Fails if there are more than `limit` strips together, or memory runs out.
fn list_violations(
    alloc: Global,
    of: RuleSet,
    found: &Violations,
    rect: Rect,
    limit: usize,
) -> Result<Vec<Violation>, Unlisted>
    ensures value { IfOk result (λ list. list.items ≡ map (listed_violation rect found.now) (rules_in of)) }
    ensures within { OnOk result (strip_count (map (listed_violation rect found.now) (rules_in of)) ≤ limit) }
    ensures too_many { IfErr result (λ fault. IfTooMany fault
        (limit < strip_count (map (listed_violation rect found.now) (rules_in of)))) }
{
    let mut list = Vec::new(alloc);
    let mut left = limit;
    for rule in of.iter() {
        let strips = find_strips(alloc, rect, found.areas(rule.saturating_sub(1)), left)?;
        left -= strips.len();
        push_violation(rule, strips, &mut list)?;
    }
    Ok(list)
}

/// Adds a rule and the strips of what it forbids.
fn push_violation(
    rule: usize,
    strips: Vec<Rect>,
    list: &mut Vec<Violation>,
) -> Result<(), AllocError>
    ensures { OnOk result (list.new.items ≡ list.old.items ++ record { rule = rule; strips = strips.items } ∷ []) }
{
    list.push(Violation { rule, strips })?;
    Ok(())
}
