//! A plane of tiles in a pool of its own, as the tests see it.
ghost use Rattle.std.specs.Prelude.{◌≡◌, ◌≢◌, ◌<◌, ◌≤◌, ℕ, IfOk, IsTrue, OnOk, Some};
ghost use Rattle.mls_stitch.specs.Splits.{JoinInY};
ghost use Rattle.mls_stitch.specs.Tilings.{HasPlane, block_at};
ghost use Rattle.mls_tilepool.specs.Pools.{count_of, tiles_of};

use crate::tests::pieces::{Sides, sides_of};
use mls_geom::{Piece, Point, Rect, Scratch as Sweep, strips};
use mls_kinds::Kind;
use mls_stitch::{LaidTile, Plane, Scratch};
use mls_tilepool::{Pool, Tile, TileId};
use std::alloc::Global;
use std::marker::Model;
use std::test::Fail;

/// How many tiles there is room for.
pub const ROOM: u32 = 1000;

/// A column and a row.
pub type Square = (i32, i32);

/// A tile with the lower-left squares of those to which its stitches lead: lb, bl, tr and rt.
#[derive(Clone, Copy, Debug, PartialEq, Eq)]
pub struct Row {
    pub sides: Sides,
    pub kind: Kind,
    pub stitches: [Option<Square>; 4],
}

/// Returns the coordinates of a square.
fn square_of(at: Point) -> Square {
    let user = |coordinate: u32| (i64::from(coordinate) - 4_194_304) as i32;
    (user(at.column()), user(at.row()))
}

/// Returns whether the row's bottom line runs through the piece.
fn cuts_y(piece: &Piece, y: u32) -> bool
    ensures { IsTrue result → (piece.now.rect.bottom < y) × (y < piece.now.rect.top) }
{
    let sides = piece.rect.area();
    sides.bottom < y && y < sides.top
}

/// Returns whether the second piece lies above the first, along a whole side, and has its kind.
fn join_in_y(a: &Piece, b: &Piece) -> bool
    ensures { IsTrue result → JoinInY a.now b.now }
{
    let (p, q) = (a.rect.area(), b.rect.area());
    q.bottom == p.top && q.left == p.left && q.right == p.right && b.kind == a.kind
}

/// Fails if the scratch has less room than the plane has tiles.
pub fn check_room(pool: &Pool, plane: &Plane, scratch: &Scratch) -> Result<(), Fail>
    requires { HasPlane pool.now plane.now }
    ensures { OnOk result (count_of pool.now plane.now ≤ scratch.now.room) }
{
    if pool.count(plane.owner()) as usize > scratch.room() {
        return Err(Fail::new("no room"));
    }
    Ok(())
}

/// Builds the plane that pieces show, painted in turn on space, in a pool of other planes.
fn plane_of(
    pool: &mut Pool,
    pieces: &[Piece],
    scratch: &mut Scratch,
    sweep: &mut Sweep,
) -> Result<Plane, Fail>
    ensures home { IfOk result (λ plane. HasPlane pool.new plane) }
    ensures apart { IfOk result (λ plane. (other : ℕ) → HasPlane pool.old other → other ≢ plane) }
    ensures others { (other : ℕ) → HasPlane pool.old other → HasPlane pool.new other }
{
    let limit = ROOM as usize;
    if pieces.len() > limit || !sweep.holds(limit, limit) || scratch.room() < limit {
        return Err(Fail::new("no room"));
    }
    strips(&[], pieces, limit, sweep)?;
    let owner = pool.reserve(ROOM)?;
    Ok(Plane::build(pool, owner, sweep.strips(), scratch))
}

/// Removes a plane, and gives its reserve back.
fn release(pool: &mut Pool, plane: Plane)
    requires { HasPlane pool.old plane }
    ensures { (other : ℕ) → other ≢ plane → HasPlane pool.old other → HasPlane pool.new other }
{
    pool.release(plane.into_owner());
}

/// A plane in a pool with room for another, with lists to work in.
#[derive(Drop)]
pub struct Sheet {
    pool: Pool,
    plane: Plane,
    scratch: Scratch,
    sweep: Sweep,
}

impl Model for Sheet {
    ghost use Rattle.std.specs.Prelude.{ℕ, List};
    ghost use Rattle.mls_stitch.specs.Tilings.{HasPlane};
    ghost use Rattle.mls_tilepool.specs.Pools.{tiles_of};
    ghost use Rattle.mls_tilepool.specs.declared.tile.Tile.{Tile};

    // The tiles of the plane.
    ghost Value = { List (ℕ × Tile) };

    ghost view = { λ s. tiles_of s.pool s.plane };

    ghost invariant = { λ s. HasPlane s.pool s.plane };
}

impl Sheet {
    /// Builds the plane that pieces show, painted in turn on space.
    pub fn of(alloc: Global, pieces: &[Piece]) -> Result<Sheet, Fail> {
        let mut pool = Pool::new(alloc, 2 * ROOM)?;
        let mut scratch = Scratch::new(alloc, ROOM)?;
        let mut sweep = Sweep::new(alloc, ROOM as usize)?;
        let plane = plane_of(&mut pool, pieces, &mut scratch, &mut sweep)?;
        Ok(Sheet {
            pool,
            plane,
            scratch,
            sweep,
        })
    }

    /// Builds the plane that pieces show in the same pool, and releases it.
    pub fn build_beside(&mut self, pieces: &[Piece]) -> Result<(), Fail> {
        let beside = plane_of(&mut self.pool, pieces, &mut self.scratch, &mut self.sweep)?;
        release(&mut self.pool, beside);
        Ok(())
    }

    /// Returns the lower-left square of a tile.
    fn corner(&self, id: TileId) -> Option<Square> {
        let tile = self.pool.get(self.plane.owner(), id)?;
        Some(square_of(tile.corner))
    }

    /// Returns the tile that holds a square.
    fn tile(&mut self, x: i32, y: i32) -> Result<LaidTile, Fail>
        ensures laid { IfOk result (λ tile. block_at self.old tile.id ≡ Some tile.piece) }
        ensures tiles { self.new ≡ self.old }
    {
        let square = Rect::new(x, y, x.saturating_add(1), y.saturating_add(1))?;
        check_room(&self.pool, &self.plane, &self.scratch)?;
        self.plane.area(&self.pool, square, &mut self.scratch);
        let tile = self.scratch.tiles().first().ok_or("no tile")?;
        Ok(*tile)
    }

    /// Returns the lower-left squares of the tiles of an area.
    pub fn area(&mut self, alloc: Global, sides: Sides) -> Result<Vec<Square>, Fail> {
        let (left, bottom, right, top) = sides;
        let area = Rect::new(left, bottom, right, top)?;
        check_room(&self.pool, &self.plane, &self.scratch)?;
        self.plane.area(&self.pool, area, &mut self.scratch);
        let mut corners = Vec::new(alloc);
        for tile in self.scratch.tiles() {
            corners.push(square_of(tile.piece.rect.corner()))?;
        }
        Ok(corners)
    }

    /// Returns a tile with the lower-left squares of those to which its stitches lead.
    fn row(&self, laid: &LaidTile) -> Option<Row> {
        let tile = self.pool.get(self.plane.owner(), laid.id)?;
        let corner = |stitch: Option<TileId>| self.corner(stitch?);
        Some(Row {
            sides: sides_of(laid.piece.rect),
            kind: laid.piece.kind,
            stitches: [
                corner(tile.lb),
                corner(tile.bl),
                corner(tile.tr),
                corner(tile.rt),
            ],
        })
    }

    /// Returns all tiles, by bottom and then left.
    pub fn rows(&mut self, alloc: Global) -> Result<Vec<Row>, Fail> {
        check_room(&self.pool, &self.plane, &self.scratch)?;
        self.plane.strips_of(&self.pool, &mut self.scratch);
        let sheet = &*self;
        let mut rows = Vec::new(alloc);
        for tile in sheet.scratch.tiles() {
            rows.push(sheet.row(tile).ok_or("no tile")?)?;
        }
        Ok(rows)
    }

    /// Splits the tile that holds a square at the square's bottom line.
    pub fn split(&mut self, x: i32, y: i32) -> Result<(), Fail> {
        let row = Point::new(x, y).ok_or("no square")?.row();
        let LaidTile { id, piece } = self.tile(x, y)?;
        check_room(&self.pool, &self.plane, &self.scratch)?;
        if self.scratch.room() < 2 || !cuts_y(&piece, row) {
            return Err(Fail::new("no line to split at"));
        }
        self.plane
            .split_y(&mut self.pool, id, row, &mut self.scratch)?;
        Ok(())
    }

    /// Joins the tile that holds a square with the one that holds the square below it.
    pub fn join(&mut self, x: i32, y: i32) -> Result<(), Fail> {
        let LaidTile {
            id: first,
            piece: a,
        } = self.tile(x, y.saturating_sub(1))?;
        let LaidTile {
            id: second,
            piece: b,
        } = self.tile(x, y)?;
        check_room(&self.pool, &self.plane, &self.scratch)?;
        if !join_in_y(&a, &b) {
            return Err(Fail::new("no side to join at"));
        }
        self.plane
            .join_y(&mut self.pool, first, second, &mut self.scratch);
        Ok(())
    }
}
