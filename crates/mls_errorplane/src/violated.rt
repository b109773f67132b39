//! Which rules forbid some square of a rectangle of a layout, whatever its size.
ghost use Rattle.std.specs.Prelude.{◌≡◌, IfOk};
ghost use Rattle.mls_errorplane.specs.Common.{HasLayout, flat_layout, violated_rules};

use crate::CheckContext;
use crate::halving::halves;
use mls_edgerule::RuleSet;
use mls_geom::Rect;
use mls_layout::Workspace;
use mls_stitch::Plane;
use std::alloc::{AllocError, Global};

/// Returns the rules that forbid some square of the rectangle in the layout on these planes with the uses.
///
/// The layout is read in parts, one after another, each with what lies round it within the rules' halo. A rectangle in
/// which many tiles lie is cut in halves, each of these again, and so on: so little is read more than once, and a
/// search along a tile passes few others. Fails only if memory runs out.
pub fn why(
    alloc: Global,
    planes: &[Plane],
    context: &CheckContext<'_>,
    rect: Rect,
    workspace: &mut Workspace,
) -> Result<RuleSet, AllocError>
    requires layout { HasLayout workspace.old.pool planes.now context.now.uses.library.now }
    ensures value { IfOk result (λ violated. violated ≡ violated_rules context.now.rules.now rect
        (flat_layout workspace.old.pool context.now.uses planes.now)) }
    ensures pool { workspace.new.pool ≡ workspace.old.pool }
{
    if let Some(parts) = halves(planes, &context.uses, rect, workspace) {
        let violated = why(alloc, planes, context, parts.0, workspace)?;
        let more = why(alloc, planes, context, parts.1, workspace)?;
        return Ok(violated.union(more));
    }
    let snapshot = context.copy_round(alloc, planes, rect, workspace)?;
    Ok(mls_checker::why(context.rules, &snapshot, rect))
}
