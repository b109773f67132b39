//! What calls borrow to work in.
ghost use Rattle.std.specs.Prelude.{◌≡◌, ◌≤◌, [], IfOk, IfSome, length, map, vec_capacity};
ghost use Rattle.mls_geom.specs.StripLists.{strips_of};
ghost use Rattle.mls_geom.specs.World.{world};
ghost use Rattle.mls_layout.specs.Workspaces.{FitsWorkspace, HasRooms};
ghost use Rattle.mls_paint.specs.Planes.{HasStrips, picture_in};
ghost use Rattle.mls_tilepool.specs.Pools.{IsOwner, count_of, room_of};

use crate::KindGrid;
use mls_geom::Piece;
use mls_paint::{Scratch, strips_of};
use mls_stitch::{LaidTile, Plane};
use mls_tilepool::Pool;
use std::alloc::{AllocError, Global};

/// The most planes that a layout may have.
pub const MOST_PLANES: usize = 4;

/// The most tiles that a plane may reserve.
pub const TILE_ROOM: u32 = 16_448;

/// How many pieces can be painted at once.
pub const PIECE_ROOM: u32 = 65_536;

/// How many pieces it takes at most to mark what a check of a piece of a layout found.
pub const MARK_ROOM: usize = 32_769;

/// What a call borrows: the pool of all tiles, and the lists in which it searches and paints.
///
/// All memory is reserved when the workspace is made, so that planes of [`TILE_ROOM`] tiles can be searched,
/// [`PIECE_ROOM`] pieces painted, and [`MARK_ROOM`] listed.
pub struct Workspace {
    /// The tiles of all planes.
    pub pool: Pool,
    /// The lists in which planes are searched and painted. Searches leave there what they find.
    pub scratch: Scratch,
    /// The list in which a call makes the pieces that it paints.
    pub pieces: Vec<Piece>,
    /// The squares of a part of a layout, where cells are placed in it.
    pub grid: KindGrid,
    /// The index of the use that last wasn't alike, which is looked at first.
    pub(crate) doubtful: usize,
    ghost rooms: { HasRooms scratch (vec_capacity pieces) },
}

// Written out, so that what a workspace's end drops is proved here, and not in each crate that lets one go.
impl Drop for Workspace {
    fn drop(self) {
        let Workspace {
            pool: _pool,
            scratch: _scratch,
            pieces: _pieces,
            grid: _grid,
            doubtful: _doubtful,
        } = self;
    }
}

impl Workspace {
    /// Creates a workspace over a pool of this many tiles, none of which is reserved.
    pub fn new(alloc: Global, capacity: u32) -> Result<Workspace, AllocError>
        requires some { 1 ≤ capacity }
        requires most { capacity ≤ 8388608 }
        ensures capacity { IfOk result (λ workspace. workspace.pool.capacity ≡ capacity) }
        ensures no_owners { IfOk result (λ workspace. workspace.pool.rooms ≡ []) }
        ensures no_tiles { IfOk result (λ workspace. workspace.pool.places ≡ []) }
    {
        Ok(Workspace {
            pieces: Vec::with_capacity(alloc, MARK_ROOM)?,
            grid: KindGrid::new(alloc)?,
            doubtful: 0,
            pool: Pool::new(alloc, capacity)?,
            scratch: Scratch::new(alloc, TILE_ROOM, PIECE_ROOM)?,
        })
    }

    /// Lists the maximal strips of a plane in the list of pieces, by bottom and then left. No memory is taken.
    pub fn list_strips(&mut self, plane: &Plane)
        requires strips { HasStrips self.old.pool plane.now }
        requires plane_fits { FitsWorkspace self.old.pool plane.now }
        ensures strips { self.new.pieces.items ≡ strips_of world (picture_in self.old.pool plane.now) }
        ensures pool { self.new.pool ≡ self.old.pool }
    {
        let Workspace {
            pool,
            scratch,
            pieces,
            ..
        } = self;
        keeps_within_reserve(pool, plane);
        strips_of(pool, plane, scratch);
        list_pieces_of(scratch.tiles(), pieces);
    }
}

/// A plane has no more tiles than it reserves. Does nothing: the contract is the law.
fn keeps_within_reserve(pool: &Pool, plane: &Plane)
    requires { IsOwner pool.now plane.now }
    ensures { IfSome (room_of pool.now plane.now) (λ room. count_of pool.now plane.now ≤ room) }
{
    pool.count(plane.owner());
}

/// Lists the rectangles and kinds of tiles, in their order.
fn list_pieces_of(tiles: &[LaidTile], pieces: &mut Vec<Piece>)
    requires room { length tiles.now ≤ vec_capacity pieces.old }
    ensures pieces { pieces.new.items ≡ map (λ tile. tile.piece) tiles.now }
    ensures room { vec_capacity pieces.new ≡ vec_capacity pieces.old }
{
    pieces.clear();
    for tile in tiles {
        pieces.push_reserved(tile.piece);
    }
}
