//! The marks of a rectangle, and the areas that await checking there.
ghost use Rattle.std.specs.Prelude.{◌≡◌, ◌∷◌, ◌<◌, ◌≤◌, IfOk, IfSome, List, length, vec_capacity, filter_map};
ghost use Rattle.mls_errorplane.specs.Common.{AreCoveredStrips, FitsWorkspace, HasPlane, HasRoomFor, KeepsRoom, Piece, laid, picture_in, room_of, strips_of, world};
ghost use Rattle.mls_errorplane.specs.ErrorPlanes.{ShowsMarks, checking_of, marks_picture};
ghost use Rattle.mls_errorplane.specs.ErrorsIn as spec;
ghost use Rattle.mls_errorplane.specs.ErrorsIn.{areas_in, squares_in};
ghost use Rattle.mls_errorplane.specs.MarkPlanes.{is_marked};

use crate::ErrorPlane;
use crate::mark_pieces::MARKED;
use mls_geom::{Piece, Rect};
use mls_kinds::Kind;
use mls_layout::Workspace;
use mls_paint::{Scratch, find_area, push_covered};
use mls_stitch::{LaidTile, Plane};
use mls_tilepool::Pool;
use std::alloc::{AllocError, Global};

impl ErrorPlane {
    /// Returns the maximal strips of the marks that lie in a rectangle, and of all other squares of the world, by
    /// bottom and then left. Marks have kind 1, other squares kind 0.
    ///
    /// Only the plane's tiles in the rectangle are looked at. Fails if memory runs out, or where there were more strips
    /// than a workspace has room for.
    pub fn marks_in(
        &self,
        alloc: Global,
        rect: Rect,
        workspace: &mut Workspace,
    ) -> Result<Vec<Piece>, AllocError>
        requires marks { ShowsMarks workspace.old.pool self.now }
        requires marks_fit { FitsWorkspace workspace.old.pool self.now.owner }
        ensures strips { IfOk result (λ strips. strips.items ≡ strips_of world
            (marks_picture (squares_in rect (checking_of workspace.old.pool self.now).marks))) }
        ensures pool { workspace.new.pool ≡ workspace.old.pool }
    {
        let Workspace {
            pool,
            scratch,
            pieces,
            ..
        } = workspace;
        list_marks(pool, &self.plane, rect, pieces, scratch);
        let mut strips = Vec::new(alloc);
        if !push_covered(pieces, scratch, &mut strips)? {
            return Err(AllocError);
        }
        Ok(strips)
    }

    /// Returns the part of each area that lies in a rectangle, in the order of the areas. An area that has no square
    /// there is left out.
    pub fn areas_in(&self, alloc: Global, rect: Rect) -> Result<Vec<Rect>, AllocError>
        ensures { IfOk result (λ areas. areas.items ≡ areas_in rect self.now.dirty) }
    {
        let areas = self.dirty.to_vec(alloc)?;
        let mut parts = Vec::new(alloc);
        for area in &areas {
            if let Some(part) = area.clip(rect) {
                parts.push(part)?;
            }
        }
        Ok(parts)
    }
}

/// Makes the list one of the world's space, and over it of what marks the squares of a rectangle that are marked on a
/// plane: their strips are those of what it covers.
fn list_marks(
    pool: &Pool,
    plane: &Plane,
    rect: Rect,
    pieces: &mut Vec<Piece>,
    scratch: &mut Scratch,
)
    requires plane { HasPlane pool.now plane.now }
    requires room { HasRoomFor pool.now plane.now scratch.old }
    requires list_fits { IfSome (room_of pool.now plane.now) (λ room. room < vec_capacity pieces.old) }
    requires sweep_fits { IfSome (room_of pool.now plane.now) (λ room. room < scratch.old.pieces) }
    ensures marks { (strips : List Piece) → AreCoveredStrips world (laid pieces.new.items) strips → strips
        ≡ strips_of world (marks_picture (squares_in rect (is_marked (picture_in pool.now plane.now)))) }
    ensures few { length pieces.new.items ≤ scratch.new.pieces }
    ensures list_room { vec_capacity pieces.new ≡ vec_capacity pieces.old }
    ensures rooms { KeepsRoom scratch.old scratch.new }
{
    // For its contract alone: no more tiles are found than the plane has.
    pool.count(plane.owner());
    find_area(pool, plane, rect, scratch);
    list_parts(scratch.tiles(), rect, pieces);
}

/// Makes the list one of the world's space, and over it of what marks the squares of tiles that lie in a rectangle.
fn list_parts(tiles: &[LaidTile], rect: Rect, pieces: &mut Vec<Piece>)
    requires room { length tiles.now < vec_capacity pieces.old }
    ensures pieces { pieces.new.items
        ≡ record { rect = world; kind = 0 } ∷ filter_map (spec.marked_part rect) tiles.now }
    ensures room { vec_capacity pieces.new ≡ vec_capacity pieces.old }
{
    pieces.clear();
    pieces.push_reserved(Piece {
        rect: Rect::world(),
        kind: Kind::SPACE,
    });
    for tile in tiles {
        if let Some(piece) = marked_part(tile, rect) {
            pieces.push_reserved(piece);
        }
    }
}

/// Returns what marks the squares of a tile that lie in a rectangle, if they are marked and there are any.
fn marked_part(tile: &LaidTile, rect: Rect) -> Option<Piece>
    ensures { result ≡ spec.marked_part rect tile.now }
{
    if tile.piece.kind == Kind::SPACE {
        return None;
    }
    let part = tile.piece.rect.clip(rect)?;
    Some(Piece {
        rect: part,
        kind: Kind::new(MARKED),
    })
}
