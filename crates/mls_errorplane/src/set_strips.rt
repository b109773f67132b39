//! The maximal strips of the squares that areas have.
ghost use Rattle.std.specs.Prelude.{◌≡◌, ◌&&◌, ◌<◌, ◌≤◌, ℕ, if◌then◌else◌, length, map, IfErr, IfOk, OnOk};
ghost use Rattle.mls_errorplane.specs.Common.{IfTooMany, holds, laid};
ghost use Rattle.mls_errorplane.specs.Violations.{Covers, set_strips, squares_within};

use crate::dirty::lies_in_world;
use crate::mark_pieces::MARKED;
use mls_geom::{Area, Piece, Rect, Scratch, fresh_strips};
use mls_kinds::Kind;
use mls_layout::Unlisted;
use std::alloc::{AllocError, Global};

/// Returns the maximal strips of the squares that areas have of a rectangle, by bottom and then left.
///
/// Fails if there are more than `limit` strips, or memory runs out.
pub(crate) fn find_strips(
    alloc: Global,
    rect: Rect,
    areas: &[Area],
    limit: usize,
) -> Result<Vec<Rect>, Unlisted>
    ensures strips { IfOk result (λ strips. strips.items ≡ set_strips (squares_within rect areas.now)) }
    ensures within { IfOk result (λ strips. length strips.items ≤ limit) }
    ensures too_many { IfErr result (λ fault. IfTooMany fault
        (limit < length (set_strips (squares_within rect areas.now)))) }
{
    let pieces = pieces_in(alloc, rect, areas)?;
    let mut scratch = Scratch::new(alloc, pieces.len().max(limit))?;
    fresh_strips(&pieces, limit, &mut scratch)?;
    let strips = rects_of(alloc, scratch.strips())?;
    Ok(strips)
}

/// Returns pieces with the squares that areas have of a rectangle.
fn pieces_in(alloc: Global, rect: Rect, areas: &[Area]) -> Result<Vec<Piece>, AllocError>
    ensures { IfOk result (λ pieces. Covers (laid pieces.items) (squares_within rect areas.now)) }
{
    let mut pieces = Vec::new(alloc);
    for area in areas {
        push_piece(rect, *area, &mut pieces)?;
    }
    Ok(pieces)
}

/// Adds a piece for the squares that an area has of the rectangle, if there are any.
fn push_piece(rect: Rect, area: Area, pieces: &mut Vec<Piece>) -> Result<(), AllocError>
    ensures { OnOk result ((x y : ℕ) → laid pieces.new.items x y
        ≡ (if holds rect x y && holds area x y then 1 else laid pieces.old.items x y)) }
{
    // What the area has of the rectangle lies in the world, too.
    lies_in_world(rect);
    let common = area.common(rect.area());
    if !common.has_squares() {
        return Ok(());
    }
    let rect = Rect::between(common.left, common.bottom, common.right, common.top);
    pieces.push(Piece {
        rect,
        kind: Kind::new(MARKED),
    })?;
    Ok(())
}

/// Returns the rectangles of pieces.
fn rects_of(alloc: Global, pieces: &[Piece]) -> Result<Vec<Rect>, AllocError>
    ensures { IfOk result (λ rects. rects.items ≡ map (λ piece. piece.rect) pieces.now) }
{
    let mut rects = Vec::with_capacity(alloc, pieces.len())?;
    for piece in pieces {
        rects.push(piece.rect)?;
    }
    Ok(rects)
}
