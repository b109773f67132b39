//! Marks on error planes.
ghost use Rattle.std.specs.Prelude.{◌≡◌, ◌+◌, ◌<◌, ◌≤◌, ◌↔◌, IfOk, IfSome, IsErr, OnErr, OnOk, vec_capacity, sum_by};
ghost use Rattle.mls_errorplane.specs.Common.{ChangesOnly, HasPlane, HasRoomFor, HasStrips, IsExact, IsRectangleIn, KeepsRoom, MeetArea, block_at, marks, picture_in, room_of, size_of, tile_count, tiles_of, world};
ghost use Rattle.mls_errorplane.specs.MarkPlanes.{marked_count, most_pieces, remarked};
ghost use Rattle.mls_errorplane.specs.PaintedMarks.{marked_part, space_size};

use crate::dirty::lies_in_world;
use crate::mark_pieces::list_pieces;
use crate::shown_marks::{differing_part, space_size};
use mls_checker::Finding;
use mls_geom::{Piece, Rect};
use mls_kinds::Kind;
use mls_paint::{Scratch, TooManyTiles, find_area, find_meeting, overlay, tile_count};
use mls_stitch::{LaidTile, Plane};
use mls_tilepool::Pool;

/// How many squares of a piece were marked before it was marked anew, and how many are now. Both are 0 where nothing
/// was painted.
#[derive(Clone, Copy)]
pub struct Recount {
    /// How many squares were marked.
    pub before: u64,
    /// How many squares are marked.
    pub after: u64,
}

/// Marks the squares of a finding's piece as the finding says, and leaves all other squares as they are.
///
/// The pieces that this takes are made in `pieces`, which like the scratch must have room for one for every second
/// square of the finding's piece, and for one more. So no memory is taken, however many areas the finding has. Where
/// the plane shows the finding's marks already, nothing is painted.
///
/// Fails if the plane would then have more than `limit` tiles, and leaves it as it was.
pub fn mark(
    pool: &mut Pool,
    plane: &mut Plane,
    finding: &Finding,
    limit: u32,
    pieces: &mut Vec<Piece>,
    scratch: &mut Scratch,
) -> Result<Recount, TooManyTiles>
    requires strips { HasStrips pool.old plane.old }
    requires limit { IfSome (room_of pool.old plane.old) (λ room. limit ≤ room) }
    requires room { HasRoomFor pool.old plane.old scratch.old }
    requires pieces_fit { most_pieces finding.now.piece ≤ scratch.old.pieces }
    requires list_fits { most_pieces finding.now.piece ≤ vec_capacity pieces.old }
    ensures marks { OnOk result (picture_in pool.new plane.old
        ≡ remarked (picture_in pool.old plane.old) finding.now.piece (marks finding.now.marks)) }
    ensures exact { IsExact finding.now.piece finding.now.snapshot finding.now.rules finding.now.marks }
    ensures too_many { IsErr result
        ↔ (limit < tile_count world (remarked (picture_in pool.old plane.old) finding.now.piece
        (marks finding.now.marks))) }
    ensures recount { IfOk result (λ recount. marked_count world (picture_in pool.new plane.old) + recount.before
        ≡ marked_count world (picture_in pool.old plane.old) + recount.after) }
    ensures few { IfOk result (λ recount. recount.before ≤ marked_count world (picture_in pool.old plane.old)) }
    ensures refused { OnErr result (pool.new ≡ pool.old) }
    ensures strips { HasStrips pool.new plane.old }
    ensures only { ChangesOnly pool.old pool.new plane.old }
    ensures plane { plane.new ≡ plane.old }
    ensures pieces_room { vec_capacity pieces.new ≡ vec_capacity pieces.old }
    ensures rooms { KeepsRoom scratch.old scratch.new }
{
    let found = finding.marks();
    let rect = found.rect();
    find_meeting(pool, plane, rect, scratch);
    let Some(part) = differing_part(scratch.tiles(), found) else {
        return keep(pool, plane, limit);
    };
    list_pieces(found, part, pieces);
    let before = count_shown(pool, plane, rect, scratch);
    overlay(pool, plane, pieces, limit, scratch)?;
    let after = found.count();
    Ok(Recount { before, after })
}

/// Counts nothing. Fails if the plane has more than `limit` tiles.
fn keep(pool: &Pool, plane: &Plane, limit: u32) -> Result<Recount, TooManyTiles>
    requires { HasStrips pool.now plane.now }
    ensures too_many { IsErr result ↔ (limit < tile_count world (picture_in pool.now plane.now)) }
    ensures same { IfOk result (λ recount. recount ≡ record { before = 0; after = 0 }) }
{
    if tile_count(pool, plane) > limit {
        return Err(TooManyTiles);
    }
    Ok(Recount {
        before: 0,
        after: 0,
    })
}

/// Returns how many squares are marked in a rectangle in which tiles were found. Searches again only where some of
/// these share a square.
fn count_shown(pool: &Pool, plane: &Plane, rect: Rect, scratch: &mut Scratch) -> u64
    requires plane { HasPlane pool.now plane.now }
    requires room { HasRoomFor pool.now plane.now scratch.old }
    requires found { MeetArea (block_at (tiles_of pool.now plane.now)) rect scratch.old.tiles }
    ensures value { result ≡ marked_count rect (picture_in pool.now plane.now) }
    ensures legal { IsRectangleIn world rect }
    ensures rooms { KeepsRoom scratch.old scratch.new }
{
    lies_in_world(rect);
    match count_tiles(scratch.tiles(), rect) {
        Some(count) => count,
        None => marked_in(pool, plane, rect, scratch),
    }
}

/// Returns how many squares of a rectangle are marked, by a search.
pub(crate) fn marked_in(pool: &Pool, plane: &Plane, rect: Rect, scratch: &mut Scratch) -> u64
    requires plane { HasPlane pool.now plane.now }
    requires room { HasRoomFor pool.now plane.now scratch.old }
    ensures value { result ≡ marked_count rect (picture_in pool.now plane.now) }
    ensures rooms { KeepsRoom scratch.old scratch.new }
{
    lies_in_world(rect);
    find_area(pool, plane, rect, scratch);
    let mut count = 0;
    for tile in scratch.tiles() {
        count += marked_part(tile, rect);
    }
    count
}

/// Returns how many marked squares of a rectangle tiles have that leave none of its squares out, or `None` where some
/// of them share a square.
fn count_tiles(tiles: &[LaidTile], rect: Rect) -> Option<u64>
    ensures marked { IfSome result (λ count. count ≡ sum_by (marked_part rect) tiles.now) }
    ensures whole { IfSome result (λ count. count + sum_by (space_size rect) tiles.now ≡ size_of rect) }
{
    let mut rest = rect.area().size();
    let mut count = 0;
    for tile in tiles {
        let marked = marked_part(tile, rect);
        let others = rest.checked_sub(space_size(tile, rect))?;
        rest = others.checked_sub(marked)?;
        count += marked;
    }
    if rest == 0 { Some(count) } else { None }
}

/// Returns how many marked squares of a rectangle a tile has.
fn marked_part(tile: &LaidTile, rect: Rect) -> u64
    ensures { result ≡ marked_part rect tile.now }
{
    if tile.piece.kind == Kind::SPACE {
        return 0;
    }
    tile.piece.rect.area().common(rect.area()).size()
}
