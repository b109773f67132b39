//! The strips of a cell's planes.
ghost use Rattle.std.specs.Prelude.{◌≡◌, ◌≤◌, [], true, All, IfOk, IfErr, OnOk, length, map, nat_lt, vec_capacity};
ghost use Rattle.std.specs.List.{list_any};
ghost use Rattle.mls_library.specs.CellFiles.{pieces_on};
ghost use Rattle.mls_library.specs.Faults.{UnlessMemory};
ghost use Rattle.mls_library.specs.Inner.{AreLayoutStrips};
ghost use Rattle.mls_library.specs.declared.fault.CellFaultKind.TheVariants.{TooManyTiles};
ghost use Rattle.mls_library.specs.Libraries.{most_tiles, tile_counts, total};

use crate::cell_rect::CellRect;
use crate::{CellFault, CellTiles};
use mls_geom::{Piece, Scratch as Sweep, strips};
use mls_kinds::PlaneNumber;
use std::alloc::{AllocError, Global};

/// Fills `pieces` with those that are painted on a plane, in order.
fn list_pieces(
    rects: &[CellRect],
    plane: PlaneNumber,
    pieces: &mut Vec<Piece>,
) -> Result<(), AllocError>
    ensures items { OnOk result (pieces.new.items ≡ pieces_on plane rects.now) }
    ensures few { OnOk result (length pieces.new.items ≤ length rects.now) }
{
    pieces.clear();
    for rect in rects {
        if rect.plane == plane {
            pieces.push(rect.piece)?;
        }
    }
    Ok(())
}

/// Returns how many tiles the planes have together.
pub(crate) fn count_tiles(planes: &[Vec<Piece>]) -> usize
    requires few { length planes.now ≤ 4 }
    requires limit { All (λ strips. length strips.items ≤ most_tiles) planes.now }
    ensures { result ≡ total (map (λ strips. length strips.items) planes.now) }
{
    let mut count = 0;
    for strips in planes {
        count += strips.len();
    }
    count
}

/// Creates a sweep for this many pieces, and for the strips of a plane of this limit.
fn sweep_for(alloc: Global, pieces: usize, limit: CellTiles) -> Result<Sweep, AllocError>
    ensures pieces { IfOk result (λ sweep. pieces ≤ sweep.room) }
    ensures strips { IfOk result (λ sweep. limit ≤ sweep.room) }
{
    Sweep::new(alloc, pieces.max(limit.get() as usize))
}

/// Finds the strips of each plane of a layout.
///
/// Fails if a plane has more than the limit.
pub(crate) fn find_plane_strips(
    alloc: Global,
    planes: u8,
    rects: &[CellRect],
    limit: CellTiles,
) -> Result<Vec<Vec<Piece>>, CellFault>
    requires { planes ≤ 4 }
    ensures strips { IfOk result (λ found. AreLayoutStrips limit rects.now (map (λ list. list.items) found.items)) }
    ensures count { IfOk result (λ found. length found.items ≡ planes) }
    ensures fault { IfErr result (λ fault. UnlessMemory fault.kind fault.line
        ((fault ≡ record { line = 0; kind = TooManyTiles })
        × (list_any (λ count. nat_lt limit count) (tile_counts planes rects.now) ≡ true))) }
{
    let mut found = Vec::with_capacity(alloc, usize::from(planes))?;
    let mut sweep = sweep_for(alloc, rects.len(), limit)?;
    list_plane_strips(alloc, planes, rects, limit, &mut sweep, &mut found)?;
    Ok(found)
}

/// Fills `found` with the strips of each plane of a layout.
///
/// Fails if a plane has more than the limit.
fn list_plane_strips(
    alloc: Global,
    planes: u8,
    rects: &[CellRect],
    limit: CellTiles,
    sweep: &mut Sweep,
    found: &mut Vec<Vec<Piece>>,
) -> Result<(), CellFault>
    requires planes { planes ≤ 4 }
    requires pieces_fit { length rects.now ≤ sweep.old.room }
    requires strips_fit { limit ≤ sweep.old.room }
    requires none { found.old.items ≡ [] }
    requires reserved { planes ≤ vec_capacity found.old }
    ensures strips { OnOk result (AreLayoutStrips limit rects.now (map (λ list. list.items) found.new.items)) }
    ensures count { OnOk result (length found.new.items ≡ planes) }
    ensures fault { IfErr result (λ fault. UnlessMemory fault.kind fault.line
        ((fault ≡ record { line = 0; kind = TooManyTiles })
        × (list_any (λ count. nat_lt limit count) (tile_counts planes rects.now) ≡ true))) }
{
    let mut pieces = Vec::new(alloc);
    for number in 0..planes {
        list_pieces(rects, PlaneNumber::new(number), &mut pieces)?;
        strips(&[], &pieces, limit.get() as usize, sweep)?;
        found.push_reserved(Vec::from_slice(alloc, sweep.strips())?);
    }
    Ok(())
}
