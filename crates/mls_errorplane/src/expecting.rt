//! How many pieces of an area are expected to be alike. It is a guess, and nothing is promised of it.
ghost use Rattle.std.specs.Prelude.{◌≡◌};
ghost use Rattle.mls_layout.specs.Uses.{HasLayout};

use crate::CheckContext;
use crate::checked::Checked;
use crate::dirty::{PIECE_SIDE, piece_of};
use mls_geom::Rect;
use mls_layout::{Onward, Workspace, goes_on_to};
use mls_stitch::Plane;

/// Returns how many pieces of the rest of an area, or rows of them, if it is higher than a piece, are expected to be
/// alike: as many as the tiles span that begin it, and none where there is no rest, or it begins in a block of checked
/// pieces.
pub(crate) fn expected_alike(
    planes: &[Plane],
    context: &CheckContext<'_>,
    checked: &Checked,
    rest: Option<Rect>,
    workspace: &mut Workspace,
) -> u32
    requires { HasLayout workspace.old.pool planes.now context.now.uses.library.now }
    ensures { workspace.new.pool ≡ workspace.old.pool }
{
    let area = match rest {
        Some(area) if !checked.encloses(piece_of(area)) => area,
        _ => return 0,
    };
    let halo = context.rules.halo();
    let lines = area.area();
    let zone = area.grow(halo).area();
    if lines.top - lines.bottom <= PIECE_SIDE {
        let column = Rect::between(lines.left, zone.bottom, lines.left + 1, zone.top);
        let end = goes_on_to(planes, &context.uses, column, Onward::Right, workspace);
        pieces_up_to(lines.left, lines.right, end.saturating_sub(halo))
    } else {
        let row = Rect::between(zone.left, lines.bottom, zone.right, lines.bottom + 1);
        let end = goes_on_to(planes, &context.uses, row, Onward::Up, workspace);
        pieces_up_to(lines.bottom, lines.top, end.saturating_sub(halo))
    }
}

/// Returns how many pieces between two lines, one after another, end at a third one or before it.
fn pieces_up_to(first: u32, last: u32, end: u32) -> u32 {
    if end < last {
        end.saturating_sub(first) / PIECE_SIDE
    } else {
        last.saturating_sub(first).div_ceil(PIECE_SIDE)
    }
}
