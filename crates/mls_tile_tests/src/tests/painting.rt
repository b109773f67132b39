//! Painting over planes of stitched tiles.
ghost use Rattle.std.specs.Prelude.{◌≤◌, length};

use crate::tests::pieces::piece;
use mls_geom::Piece;
use mls_paint::{
    Scratch, TooManyTiles, fits, overlay, overlay_within, space_plane, strips_of, tile_count,
};
use mls_stitch::Plane;
use mls_tilepool::Pool;
use std::alloc::{AllocError, Global};
use std::marker::Model;
use std::process::Abort;
use std::test::Fail;

/// How many tiles there is room for.
const ROOM: u32 = 16_448;

/// How many pieces are painted at once, at most.
const PIECES: u32 = 4_000;

/// A plane in a pool of its own.
#[derive(Drop)]
struct Canvas {
    pool: Pool,
    plane: Plane,
    scratch: Scratch,
}

impl Model for Canvas {
    ghost use Rattle.std.specs.Prelude.{◌≡◌, Some};
    ghost use Rattle.mls_paint.specs.Planes.{HasStrips};
    ghost use Rattle.mls_tilepool.specs.Pools.{Pool, room_of};

    ghost Value = { Pool };

    ghost view = { λ c. c.pool };

    ghost invariant = { λ c. HasStrips c.pool c.plane × (room_of c.pool c.plane ≡ Some 16448)
        × (c.scratch.room ≡ 16448) × (c.scratch.pieces ≡ 4000) };
}

impl Canvas {
    /// Creates a plane of space.
    fn new(alloc: Global) -> Result<Canvas, Fail> {
        let mut pool = Pool::new(alloc, ROOM)?;
        let mut scratch = Scratch::new(alloc, ROOM, PIECES)?;
        let plane = space_plane(&mut pool, ROOM, &mut scratch)?;
        Ok(Canvas {
            pool,
            plane,
            scratch,
        })
    }

    /// Paints pieces, and returns whether the plane was built anew.
    fn paint(&mut self, over: &[Piece], limit: u32) -> Result<bool, TooManyTiles>
        requires pieces { length over.now ≤ 4000 }
        requires limit { limit ≤ 16448 }
    {
        let painted = overlay(
            &mut self.pool,
            &mut self.plane,
            over,
            limit,
            &mut self.scratch,
        )?;
        Ok(painted.rebuilt)
    }

    /// Paints a piece within a bound of turns, and returns whether the plane was built anew.
    fn paint_within(&mut self, piece: Piece, turns: u32) -> Result<bool, TooManyTiles> {
        let painted = overlay_within(
            &mut self.pool,
            &mut self.plane,
            &[piece],
            1024,
            turns,
            &mut self.scratch,
        )?;
        Ok(painted.rebuilt)
    }

    /// Returns whether the plane would then have at most `limit` tiles.
    fn fits(&mut self, over: &[Piece], limit: u32) -> bool
        requires pieces { length over.now ≤ 4000 }
        requires limit { limit ≤ 16448 }
    {
        fits(&self.pool, &self.plane, over, limit, &mut self.scratch)
    }

    /// Returns the number of tiles.
    fn tile_count(&self) -> u32 {
        tile_count(&self.pool, &self.plane)
    }

    /// Returns the rectangles and kinds of the tiles, by bottom and then left.
    fn pieces(&mut self, alloc: Global) -> Result<Vec<Piece>, AllocError> {
        strips_of(&self.pool, &self.plane, &mut self.scratch);
        self.scratch
            .tiles()
            .iter()
            .map(|tile| tile.piece)
            .collect(alloc)
    }
}

/// Returns squares of 2 by 2, row by row, ten in each of ten rows.
fn squares(alloc: Global, kind: u8) -> Result<Vec<Piece>, Fail> {
    let mut squares = Vec::new(alloc);
    for row in [0, 10, 20, 30, 40, 50, 60, 70, 80, 90i32] {
        for column in [0, 10, 20, 30, 40, 50, 60, 70, 80, 90i32] {
            let (right, top) = (column.saturating_add(2), row.saturating_add(2));
            squares.push(piece(kind, (column, row, right, top))?)?;
        }
    }
    Ok(squares)
}

/// Returns the same squares from the last to the first.
fn squares_from_last(alloc: Global, kind: u8) -> Result<Vec<Piece>, Fail> {
    let squares = squares(alloc, kind)?;
    Ok(squares.iter().rev().copied().collect(alloc)?)
}

/// Paints pieces one by one, and returns how often the plane was built anew.
fn paint_each(canvas: &mut Canvas, pieces: &[Piece]) -> Result<u32, TooManyTiles> {
    let mut rebuilt = 0u32;
    for piece in pieces {
        if canvas.paint(&[*piece], 1024)? {
            rebuilt = rebuilt.saturating_add(1);
        }
    }
    Ok(rebuilt)
}

/// Paints the squares one by one, and returns how often the plane was built anew.
fn paint_squares(alloc: Global, canvas: &mut Canvas) -> Result<u32, Fail> {
    let squares = squares(alloc, 1)?;
    Ok(paint_each(canvas, &squares)?)
}

/// Erases the squares one by one, and returns how often the plane was built anew.
fn erase_squares(alloc: Global, canvas: &mut Canvas) -> Result<u32, Fail> {
    let spaces = squares_from_last(alloc, 0)?;
    Ok(paint_each(canvas, &spaces)?)
}

/// Asserts that squares are painted and erased one by one with few planes built anew.
fn expect_few_rebuilt(rt: &impl Abort, alloc: Global, canvas: &mut Canvas) -> Result<(), Fail> {
    let painting = paint_squares(alloc, canvas)?;
    assert_eq!(rt; canvas.tile_count(), 221);
    let erasing = erase_squares(alloc, canvas)?;
    assert_eq!(rt; canvas.tile_count(), 1);
    assert!(rt; painting.saturating_add(erasing) <= 10);
    Ok(())
}

#[test]
fn local_updates(rt: HostRuntime) -> Result<(), Fail> {
    let mut canvas = Canvas::new(rt.alloc())?;
    expect_few_rebuilt(&rt, rt.alloc(), &mut canvas)
}

/// Paints a piece on two planes, on one of them within a bound of turns, and asserts that they have the same tiles.
fn expect_same_tiles(
    rt: &impl Abort,
    alloc: Global,
    canvas: &mut Canvas,
    hurried: &mut Canvas,
    piece: Piece,
    turns: u32,
) -> Result<(), Fail> {
    canvas.paint(&[piece], 1024)?;
    let rebuilt = hurried.paint_within(piece, turns)?;
    assert!(rt; rebuilt || turns != 0);
    let tiles = canvas.pieces(alloc)?;
    assert_eq!(rt; hurried.pieces(alloc)?.as_slice(), tiles.as_slice());
    Ok(())
}

/// Asserts the same of each piece in turn.
fn expect_same_after_each(
    rt: &impl Abort,
    alloc: Global,
    canvas: &mut Canvas,
    hurried: &mut Canvas,
    pieces: &[Piece],
    turns: u32,
) -> Result<(), Fail> {
    for piece in pieces {
        expect_same_tiles(rt, alloc, canvas, hurried, *piece, turns)?;
    }
    Ok(())
}

/// Asserts the same of squares that are painted and erased.
fn expect_same_of_squares(
    rt: &impl Abort,
    alloc: Global,
    canvas: &mut Canvas,
    hurried: &mut Canvas,
    turns: u32,
) -> Result<(), Fail> {
    let squares = squares(alloc, 1)?;
    expect_same_after_each(rt, alloc, canvas, hurried, &squares, turns)?;
    let spaces = squares_from_last(alloc, 0)?;
    expect_same_after_each(rt, alloc, canvas, hurried, &spaces, turns)
}

/// Asserts the same of a plane of space and another one.
fn expect_same_beside(
    rt: &impl Abort,
    alloc: Global,
    canvas: &mut Canvas,
    turns: u32,
) -> Result<(), Fail> {
    let mut hurried = Canvas::new(alloc)?;
    expect_same_of_squares(rt, alloc, canvas, &mut hurried, turns)
}

/// Asserts the same of two planes of space.
fn expect_same_in_turns(rt: &impl Abort, alloc: Global, turns: u32) -> Result<(), Fail> {
    let mut canvas = Canvas::new(alloc)?;
    expect_same_beside(rt, alloc, &mut canvas, turns)
}

#[test]
fn turns_change_no_tile(rt: HostRuntime) -> Result<(), Fail> {
    for turns in [0, 1, 5] {
        expect_same_in_turns(&rt, rt.alloc(), turns)?;
    }
    Ok(())
}

/// How many bars stand in the middle, and how many squares lie far to the left and to the right of them.
const FAR_PIECES: i32 = 1000;

/// Returns bars of 2 by 4,000 squares beside each other, each apart from the next.
fn bars(alloc: Global, kind: u8) -> Result<Vec<Piece>, Fail> {
    let mut bars = Vec::new(alloc);
    for index in 0..FAR_PIECES {
        let left = index.saturating_mul(4);
        bars.push(piece(kind, (left, 0, left.saturating_add(2), 4000))?)?;
    }
    Ok(bars)
}

/// Returns squares of 2 by 2, by turns far to the left and far to the right of the bars.
fn squares_far_apart(alloc: Global, kind: u8) -> Result<Vec<Piece>, Fail> {
    let mut squares = Vec::new(alloc);
    for index in 0..FAR_PIECES {
        let left = if index % 2 == 0 { -20_000 } else { 20_000i32 };
        let bottom = index.saturating_mul(4);
        let (right, top) = (left.saturating_add(2), bottom.saturating_add(2));
        squares.push(piece(kind, (left, bottom, right, top))?)?;
    }
    Ok(squares)
}

/// Asserts that pieces are painted at once without building the plane anew, and how many tiles it then has.
fn expect_not_rebuilt(
    rt: &impl Abort,
    canvas: &mut Canvas,
    pieces: &[Piece],
    tiles: u32,
) -> Result<(), Fail> {
    if pieces.len() > 4000 {
        return Err(Fail::new("too many pieces"));
    }
    assert!(rt; canvas.fits(pieces, 16_448));
    let rebuilt = canvas.paint(pieces, 16_448)?;
    assert!(rt; !rebuilt);
    assert_eq!(rt; canvas.tile_count(), tiles);
    Ok(())
}

/// Asserts that bars, then squares to both sides of them, then space over these, and last space over the bars are each
/// painted at once without building the plane anew.
fn expect_far_apart(rt: &impl Abort, alloc: Global, canvas: &mut Canvas) -> Result<(), Fail> {
    expect_not_rebuilt(rt, canvas, &bars(alloc, 1)?, 2003)?;
    // 500 squares on each side, with space to the left and to the right of each; below, between and above them there
    // are 500 strips of space on the left side, where a square stands as low as the bars, and 501 on the right.
    expect_not_rebuilt(rt, canvas, &squares_far_apart(alloc, 2)?, 6002)?;
    expect_not_rebuilt(rt, canvas, &squares_far_apart(alloc, 0)?, 2003)?;
    expect_not_rebuilt(rt, canvas, &bars(alloc, 0)?, 1)
}

#[test]
fn pieces_far_apart(rt: HostRuntime) -> Result<(), Fail> {
    let mut canvas = Canvas::new(rt.alloc())?;
    expect_far_apart(&rt, rt.alloc(), &mut canvas)
}

#[test]
fn text_of_too_many_tiles(rt: HostRuntime) -> Result<(), Fail> {
    assert_eq!(rt;
        format!(in rt.alloc(); "{TooManyTiles}")?.as_str(),
        "too many tiles"
    );
    Ok(())
}
