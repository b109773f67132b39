//! Splitting tiles and joining them.
ghost use Rattle.std.specs.Prelude.{◌≡◌, ◌<◌, ◌≤◌, ◌↔◌, Some, IfOk, IfSome, IsErr, IsSomeAnd, OnErr};
ghost use Rattle.mls_tilepool.specs.Pools.{count_of, room_of, tiles_of};
ghost use Rattle.mls_stitch.specs.Splits.{IsCutAt, JoinAlong, JoinInX, JoinInY, Joins, Splits, first_part, joined_along, joined_x, joined_y, left_part, lower_of, right_part, second_part, upper_of};
ghost use Rattle.mls_stitch.specs.Tilings.{ChangesOnly, HasPlane, block_at};

use crate::laid_tile::laid;
use crate::{Plane, Replacement, Scratch};
use mls_geom::{Piece, Rect};
use mls_tilepool::{NoRoom, Pool, TileId};

/// The axis along which two tiles lie beside each other.
#[derive(Clone, Copy)]
enum Axis {
    /// One to the left of the other.
    X,
    /// One below the other.
    Y,
}

/// Returns the parts of a piece before a line and behind it.
fn parts(whole: Piece, axis: Axis, at: u32) -> (Piece, Piece)
    requires { IsCutAt axis at whole }
    ensures { result ≡ (first_part axis at whole, second_part axis at whole) }
{
    let Piece { rect, kind } = whole;
    let area = rect.area();
    let (first, second) = match axis {
        Axis::X => (
            Rect::between(area.left, area.bottom, at, area.top),
            Rect::between(at, area.bottom, area.right, area.top),
        ),
        Axis::Y => (
            Rect::between(area.left, area.bottom, area.right, at),
            Rect::between(area.left, at, area.right, area.top),
        ),
    };
    (Piece { rect: first, kind }, Piece { rect: second, kind })
}

/// Returns a piece and the one behind it as one.
fn joined(first: Piece, second: Piece, axis: Axis) -> Piece
    requires { JoinAlong axis first second }
    ensures { result ≡ joined_along axis first second }
{
    let area = first.rect.area();
    let end = second.rect.area();
    let rect = match axis {
        Axis::X => Rect::between(area.left, area.bottom, end.right, area.top),
        Axis::Y => Rect::between(area.left, area.bottom, area.right, end.top),
    };
    Piece {
        rect,
        kind: first.kind,
    }
}

impl Plane {
    /// Splits a tile at a line across the axis.
    fn split(
        &mut self,
        pool: &mut Pool,
        tile: TileId,
        axis: Axis,
        at: u32,
        scratch: &mut Scratch,
    ) -> Result<TileId, NoRoom>
        requires plane { HasPlane pool.old self.old }
        requires inside { IsSomeAnd (block_at (tiles_of pool.old self.old) tile) (IsCutAt axis at) }
        requires tiles_fit { count_of pool.old self.old ≤ scratch.old.room }
        requires pieces_fit { 2 ≤ scratch.old.room }
        ensures no_room { IsErr result ↔ (room_of pool.old self.old ≡ Some (count_of pool.old self.old)) }
        ensures split { IfOk result (λ id. IfSome (block_at (tiles_of pool.old self.old) tile) (λ block.
            Splits (tiles_of pool.old self.old) (tiles_of pool.new self.old) tile id (first_part axis at block)
            (second_part axis at block))) }
        ensures refused { OnErr result (pool.new ≡ pool.old) }
        ensures plane { self.new ≡ self.old }
        ensures home { HasPlane pool.new self.old }
        ensures only { ChangesOnly pool.old pool.new self.old }
        ensures scratch_room { scratch.new.room ≡ scratch.old.room }
    {
        // So the call below fails only where there is no room at all.
        prove!(pool.count(&self.owner) <= pool.room(&self.owner));
        let whole = laid(pool, &self.owner, tile).unwrap().piece;
        let (first, second) = parts(whole, axis, at);
        let corner = second.rect.corner();
        self.replace(pool, &Replacement::of(&[tile], &[first, second]), scratch)?;
        Ok(self.find(pool, corner, scratch))
    }

    /// Joins a tile and the one behind it.
    fn join(
        &mut self,
        pool: &mut Pool,
        first: TileId,
        second: TileId,
        axis: Axis,
        scratch: &mut Scratch,
    )
        requires plane { HasPlane pool.old self.old }
        requires whole_side { IsSomeAnd (block_at (tiles_of pool.old self.old) first) (λ a.
            IsSomeAnd (block_at (tiles_of pool.old self.old) second) (λ b. JoinAlong axis a b)) }
        requires tiles_fit { count_of pool.old self.old ≤ scratch.old.room }
        ensures joined { IfSome (block_at (tiles_of pool.old self.old) first)
            (λ a. IfSome (block_at (tiles_of pool.old self.old) second) (λ b.
            Joins (tiles_of pool.old self.old) (tiles_of pool.new self.old) first second (joined_along axis a b))) }
        ensures plane { self.new ≡ self.old }
        ensures home { HasPlane pool.new self.old }
        ensures only { ChangesOnly pool.old pool.new self.old }
        ensures scratch_room { scratch.new.room ≡ scratch.old.room }
    {
        // So there is room for one tile in place of two.
        prove!(pool.count(&self.owner) <= pool.room(&self.owner));
        let before = laid(pool, &self.owner, first).unwrap().piece;
        let behind = laid(pool, &self.owner, second).unwrap().piece;
        let whole = joined(before, behind, axis);
        self.replace(pool, &Replacement::of(&[first, second], &[whole]), scratch)
            .unwrap();
    }

    /// Splits a tile at a column, counted as the coordinates of [`Area`](mls_geom::Area) are, and returns the name of
    /// the right part (Ousterhout 1984).
    ///
    /// The tile keeps its name for the left part. Fails if the owner has no room for one more tile, and then changes
    /// nothing.
    pub fn split_x(
        &mut self,
        pool: &mut Pool,
        tile: TileId,
        x: u32,
        scratch: &mut Scratch,
    ) -> Result<TileId, NoRoom>
        requires plane { HasPlane pool.old self.old }
        requires inside { IsSomeAnd (block_at (tiles_of pool.old self.old) tile) (λ block.
            (block.rect.left < x) × (x < block.rect.right)) }
        requires tiles_fit { count_of pool.old self.old ≤ scratch.old.room }
        requires pieces_fit { 2 ≤ scratch.old.room }
        ensures no_room { IsErr result ↔ (room_of pool.old self.old ≡ Some (count_of pool.old self.old)) }
        ensures split { IfOk result (λ id. IfSome (block_at (tiles_of pool.old self.old) tile) (λ block.
            Splits (tiles_of pool.old self.old) (tiles_of pool.new self.old) tile id (left_part x block)
            (right_part x block))) }
        ensures refused { OnErr result (pool.new ≡ pool.old) }
        ensures plane { self.new ≡ self.old }
        ensures home { HasPlane pool.new self.old }
        ensures only { ChangesOnly pool.old pool.new self.old }
        ensures scratch_room { scratch.new.room ≡ scratch.old.room }
    {
        self.split(pool, tile, Axis::X, x, scratch)
    }

    /// Splits a tile at a row, counted as the coordinates of [`Area`](mls_geom::Area) are, and returns the name of
    /// the upper part (Ousterhout 1984).
    ///
    /// The tile keeps its name for the lower part. Fails if the owner has no room for one more tile, and then changes
    /// nothing.
    pub fn split_y(
        &mut self,
        pool: &mut Pool,
        tile: TileId,
        y: u32,
        scratch: &mut Scratch,
    ) -> Result<TileId, NoRoom>
        requires plane { HasPlane pool.old self.old }
        requires inside { IsSomeAnd (block_at (tiles_of pool.old self.old) tile) (λ block.
            (block.rect.bottom < y) × (y < block.rect.top)) }
        requires tiles_fit { count_of pool.old self.old ≤ scratch.old.room }
        requires pieces_fit { 2 ≤ scratch.old.room }
        ensures no_room { IsErr result ↔ (room_of pool.old self.old ≡ Some (count_of pool.old self.old)) }
        ensures split { IfOk result (λ id. IfSome (block_at (tiles_of pool.old self.old) tile) (λ block.
            Splits (tiles_of pool.old self.old) (tiles_of pool.new self.old) tile id (lower_of y block)
            (upper_of y block))) }
        ensures refused { OnErr result (pool.new ≡ pool.old) }
        ensures plane { self.new ≡ self.old }
        ensures home { HasPlane pool.new self.old }
        ensures only { ChangesOnly pool.old pool.new self.old }
        ensures scratch_room { scratch.new.room ≡ scratch.old.room }
    {
        self.split(pool, tile, Axis::Y, y, scratch)
    }

    /// Joins a tile and the one to the right of it, which share a whole side and have one kind. The left one keeps its
    /// name for both (Ousterhout 1984).
    pub fn join_x(&mut self, pool: &mut Pool, left: TileId, right: TileId, scratch: &mut Scratch)
        requires plane { HasPlane pool.old self.old }
        requires whole_side { IsSomeAnd (block_at (tiles_of pool.old self.old) left) (λ a.
            IsSomeAnd (block_at (tiles_of pool.old self.old) right) (λ b. JoinInX a b)) }
        requires tiles_fit { count_of pool.old self.old ≤ scratch.old.room }
        ensures joined { IfSome (block_at (tiles_of pool.old self.old) left)
            (λ a. IfSome (block_at (tiles_of pool.old self.old) right) (λ b.
            Joins (tiles_of pool.old self.old) (tiles_of pool.new self.old) left right (joined_x a b))) }
        ensures plane { self.new ≡ self.old }
        ensures home { HasPlane pool.new self.old }
        ensures only { ChangesOnly pool.old pool.new self.old }
        ensures scratch_room { scratch.new.room ≡ scratch.old.room }
    {
        self.join(pool, left, right, Axis::X, scratch);
    }

    /// Joins a tile and the one above it, which share a whole side and have one kind. The lower one keeps its name
    /// for both (Ousterhout 1984).
    pub fn join_y(&mut self, pool: &mut Pool, lower: TileId, upper: TileId, scratch: &mut Scratch)
        requires plane { HasPlane pool.old self.old }
        requires whole_side { IsSomeAnd (block_at (tiles_of pool.old self.old) lower) (λ a.
            IsSomeAnd (block_at (tiles_of pool.old self.old) upper) (λ b. JoinInY a b)) }
        requires tiles_fit { count_of pool.old self.old ≤ scratch.old.room }
        ensures joined { IfSome (block_at (tiles_of pool.old self.old) lower)
            (λ a. IfSome (block_at (tiles_of pool.old self.old) upper) (λ b.
            Joins (tiles_of pool.old self.old) (tiles_of pool.new self.old) lower upper (joined_y a b))) }
        ensures plane { self.new ≡ self.old }
        ensures home { HasPlane pool.new self.old }
        ensures only { ChangesOnly pool.old pool.new self.old }
        ensures scratch_room { scratch.new.room ≡ scratch.old.room }
    {
        self.join(pool, lower, upper, Axis::Y, scratch);
    }
}
