//! What commands change on several planes.
ghost use Rattle.std.specs.Prelude.{◌≡◌, ◌≤◌, false, max, length, vec_capacity, IfSome};
ghost use Rattle.mls_session.specs.Common.{HasRoomFor, HasStrips, IsFrozen, KeepsRoom, Picture, most_tiles, overlaid, picture_in, room_of};
ghost use Rattle.mls_session.specs.Changes.{dumped, erased, leaves_world};
ghost use Rattle.mls_session.specs.Inner.{CanChange, HasCapacityFor, changed};

use crate::moving::moved_rect;
use mls_geom::{Piece, Rect};
use mls_kinds::{Kind, KindSet};
use mls_paint::{Scratch, find_area, strips_of};
use mls_stitch::Plane;
use mls_tilepool::Pool;

/// What a command changes on several planes.
#[derive(Clone, Copy)]
pub(crate) enum Change<'a> {
    /// Erases these types in a rectangle.
    Erase {
        rect: Rect,
        kinds: KindSet,
    },
    /// Paints the squares of a cell that aren't space, moved to the right by `dx` and up by `dy`.
    Dump {
        planes: &'a [Plane],
        dx: i32,
        dy: i32,
    },
}

impl Change<'_> {
    /// Fills `pieces` with those that the change paints on a plane, of this number.
    pub fn list_pieces(
        &self,
        pool: &Pool,
        number: usize,
        plane: &Plane,
        pieces: &mut Vec<Piece>,
        scratch: &mut Scratch,
    )
        requires strips { HasStrips pool.now plane.now }
        requires room { HasRoomFor pool.now plane.now scratch.old }
        requires can_change { CanChange pool.now self.now }
        requires cell_room { most_tiles ≤ scratch.old.room }
        requires pieces_fit { HasCapacityFor pool.now plane.now (vec_capacity pieces.old) }
        requires cell_pieces_fit { most_tiles ≤ vec_capacity pieces.old }
        ensures picture { (below : Picture) → below ≡ picture_in pool.now plane.now
            → overlaid below pieces.new.items ≡ changed pool.now self.now number below }
        ensures few { IfSome (room_of pool.now plane.now) (λ room. length pieces.new.items ≤ max room most_tiles) }
        ensures pieces_room { vec_capacity pieces.new ≡ vec_capacity pieces.old }
        ensures plans { scratch.new.plans ≡ scratch.old.plans }
        ensures rooms { KeepsRoom scratch.old scratch.new }
    {
        match *self {
            Change::Erase { rect, kinds } => list_erased(pool, plane, rect, kinds, pieces, scratch),
            Change::Dump { planes, dx, dy } => match planes.get(number) {
                Some(cell) => list_dumped(pool, cell, dx, dy, pieces, scratch),
                None => pieces.clear(),
            },
        }
    }
}

/// Fills `pieces` with pieces of space in the squares of a rectangle of a plane that have one of these types.
fn list_erased(
    pool: &Pool,
    plane: &Plane,
    rect: Rect,
    kinds: KindSet,
    pieces: &mut Vec<Piece>,
    scratch: &mut Scratch,
)
    requires strips { HasStrips pool.now plane.now }
    requires room { HasRoomFor pool.now plane.now scratch.old }
    requires pieces_fit { HasCapacityFor pool.now plane.now (vec_capacity pieces.old) }
    ensures picture { overlaid (picture_in pool.now plane.now) pieces.new.items
        ≡ erased (picture_in pool.now plane.now) rect kinds }
    ensures few { IfSome (room_of pool.now plane.now) (λ room. length pieces.new.items ≤ room) }
    ensures pieces_room { vec_capacity pieces.new ≡ vec_capacity pieces.old }
    ensures plans { scratch.new.plans ≡ scratch.old.plans }
    ensures rooms { KeepsRoom scratch.old scratch.new }
{
    let count = pool.count(plane.owner()) as usize;
    prove!(count <= pieces.capacity());
    find_area(pool, plane, rect, scratch);
    pieces.clear();
    for tile in scratch.tiles() {
        if kinds.contains(tile.piece.kind) {
            let part = tile.piece.rect.clip(rect).unwrap();
            pieces.push_reserved(Piece {
                rect: part,
                kind: Kind::SPACE,
            });
        }
    }
}

/// Fills `pieces` with those of a cell's plane that aren't space, moved. None of them leaves the world.
fn list_dumped(
    pool: &Pool,
    cell: &Plane,
    dx: i32,
    dy: i32,
    pieces: &mut Vec<Piece>,
    scratch: &mut Scratch,
)
    requires cell { IsFrozen pool.now cell.now }
    requires cell_room { most_tiles ≤ scratch.old.room }
    requires cell_pieces_fit { most_tiles ≤ vec_capacity pieces.old }
    requires stays { leaves_world (picture_in pool.now cell.now) dx dy ≡ false }
    ensures picture { (below : Picture) → overlaid below pieces.new.items
        ≡ dumped below (picture_in pool.now cell.now) dx dy }
    ensures few { length pieces.new.items ≤ most_tiles }
    ensures pieces_room { vec_capacity pieces.new ≡ vec_capacity pieces.old }
    ensures plans { scratch.new.plans ≡ scratch.old.plans }
    ensures rooms { KeepsRoom scratch.old scratch.new }
{
    strips_of(pool, cell, scratch);
    pieces.clear();
    for tile in scratch.tiles() {
        if tile.piece.kind != Kind::SPACE {
            let rect = moved_rect(tile.piece.rect, dx, dy).unwrap();
            pieces.push_reserved(Piece {
                rect,
                kind: tile.piece.kind,
            });
        }
    }
}
