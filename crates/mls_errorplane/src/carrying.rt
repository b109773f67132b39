//! Carrying marks from pieces that were checked to others.
ghost use Rattle.std.specs.Prelude.{◌≡◌, ◌+◌, ◌*◌, ◌≤◌, ◌<◌, true, false, IfOk, IfSome, IsTrue, OnErr, OnOk, length, map, vec_capacity, All};
ghost use Rattle.mls_errorplane.specs.Common.{ChangesOnly, HasPlane, HasRoomFor, HasStrips, IsRectangleIn, KeepsRoom, overlaid, picture_in, room_of, tile_count, world};
ghost use Rattle.mls_errorplane.specs.DirtyLists.{piece_side};
ghost use Rattle.mls_errorplane.specs.ErrorPlanes.{HasMarks, ShowsMarks, checking_of, marks_picture};
ghost use Rattle.mls_errorplane.specs.MarkPlanes.{is_marked, marked_count};
ghost use Rattle.mls_errorplane.specs.PaintedMarks.{Paints};
ghost use Rattle.mls_errorplane.specs.Carrying as spec;
ghost use Rattle.mls_errorplane.specs.Carrying.{AreCarried, AreFew, LeavesRoom, RunsThrough, piece_like, likened};

use crate::checked::Source;
use crate::dirty::{PIECE_SIDE, lies_in_world};
use crate::error_plane::recounted;
use crate::marks::marked_in;
use crate::{ErrorPlane, Recount};
use mls_geom::{Area, Piece, Rect};
use mls_layout::{Likeness, Workspace};
use mls_paint::{Scratch, TooManyTiles, find_area, find_meeting, overlay, tile_count};
use mls_stitch::{LaidTile, Plane};
use mls_tilepool::Pool;

/// A rectangle with fewer squares than these, those of 64 pieces, is small.
const SEARCHED: u64 = 64 * 65_536;

impl ErrorPlane {
    /// Gives each square of the rectangle the mark of the source's square that shows the same, and returns whether this
    /// was done. It is only done where the plane's tiles afterwards, those before in the rows from the rectangle's
    /// bottom on, and two for each row of a piece, or two where marks go up, are together at most `limit`; otherwise
    /// nothing changes. No memory is taken.
    pub(crate) fn carry(
        &mut self,
        source: Source,
        rect: Rect,
        limit: u32,
        workspace: &mut Workspace,
    ) -> bool
        requires marks { HasMarks workspace.old.pool limit self.old }
        ensures carried { IsTrue result → AreCarried source.likeness source.rect rect
            (checking_of workspace.old.pool self.old).marks (checking_of workspace.new.pool self.new).marks }
        ensures few { IsTrue result → AreFew limit rect (checking_of workspace.old.pool self.old).marks
            (checking_of workspace.new.pool self.new).marks }
        ensures refused { result ≡ false
            → (self.new ≡ self.old) × (workspace.new.pool ≡ workspace.old.pool) }
        ensures marks { ShowsMarks workspace.new.pool self.new }
        ensures only { ChangesOnly workspace.old.pool workspace.new.pool self.old.owner }
        ensures owner { self.new.owner ≡ self.old.owner }
        ensures dirty { self.new.dirty ≡ self.old.dirty }
    {
        let Workspace {
            pool,
            scratch,
            pieces,
            ..
        } = workspace;
        let Some(most) = most_after(pool, &self.plane, source.likeness, rect, limit, scratch) else {
            return false;
        };
        list_carried(pool, &self.plane, source, rect, pieces, scratch);
        let Ok(recount) = repaint(pool, &mut self.plane, rect, pieces, most, scratch) else {
            return false;
        };
        self.marked = recounted(self.marked, recount);
        true
    }
}

/// Returns how many tiles the plane may have after marks are carried on to the rectangle, if any.
///
/// Where it has few tiles beside the limit, all are counted, and two for each row of a piece. Elsewhere those in the
/// rows from the rectangle's bottom on are counted, and only two more where marks go up; but beside a small rectangle
/// that would seldom save more time than it takes.
fn most_after(
    pool: &Pool,
    plane: &Plane,
    likeness: Likeness,
    rect: Rect,
    limit: u32,
    scratch: &mut Scratch,
) -> Option<u32>
    requires strips { HasStrips pool.now plane.now }
    requires room { HasRoomFor pool.now plane.now scratch.old }
    ensures room { IfSome result (LeavesRoom limit likeness rect (picture_in pool.now plane.now)) }
    ensures rooms { KeepsRoom scratch.old scratch.new }
{
    let lines = rect.area();
    let all = tile_count(pool, plane) as usize;
    let coarse = most_beside(limit, all, PIECE_SIDE);
    if coarse >= Some(limit / 2) {
        return coarse;
    }
    if all > (limit / 2) as usize && lines.size() < SEARCHED {
        return None;
    }
    find_meeting(pool, plane, rows_from(rect), scratch);
    let tiles = scratch.tiles();
    most_beside(limit, tiles.len(), uneven_rows(tiles, likeness, rect))
}

/// Returns how many tiles there may be beside these tiles and two for each of the rows, if any.
fn most_beside(limit: u32, tiles: usize, rows: u32) -> Option<u32>
    requires { rows ≤ piece_side }
    ensures { IfSome result (λ most. tiles + most + 2 * rows ≡ limit) }
{
    let others = (limit as usize).checked_sub(tiles)?;
    (others as u32).checked_sub(2 * rows)
}

/// Returns the squares of the world in the rectangle's rows and above them.
fn rows_from(rect: Rect) -> Rect
    ensures { result ≡ record world { bottom = rect.bottom } }
{
    lies_in_world(rect);
    let world = Rect::world().area();
    Rect::between(world.left, rect.area().bottom, world.right, world.top)
}

/// Returns how many rows of a piece in the rectangle may have other marks than the row below, before and after they are
/// carried: one where the tiles run through the rectangle's rows and marks are carried up, and else all.
fn uneven_rows(tiles: &[LaidTile], likeness: Likeness, rect: Rect) -> u32
    ensures some { 1 ≤ result }
    ensures few { result ≤ piece_side }
    ensures even { result < piece_side
        → All (λ tile. RunsThrough rect tile.piece.rect) tiles.now × (spec.carries_up likeness ≡ true) }
{
    if carries_up(likeness) && all_run_through(tiles, rect) {
        1
    } else {
        PIECE_SIDE
    }
}

/// Returns whether what is carried is one mark in each column.
fn carries_up(likeness: Likeness) -> bool
    ensures { result ≡ spec.carries_up likeness }
{
    match likeness {
        Likeness::OneKind | Likeness::Columns => true,
        Likeness::Rows => false,
    }
}

/// Returns whether each of the tiles begins above the rectangle's rows or has them all.
fn all_run_through(tiles: &[LaidTile], rect: Rect) -> bool
    ensures { IsTrue result → All (λ tile. RunsThrough rect tile.piece.rect) tiles.now }
{
    let lines = rect.area();
    for tile in tiles {
        if !runs_through(tile.piece.rect.area(), lines) {
            return false;
        }
    }
    true
}

/// Returns whether the bar begins above the rows or has them all.
fn runs_through(bar: Area, rows: Area) -> bool
    ensures { IsTrue result → RunsThrough rows bar }
{
    rows.top <= bar.bottom || (bar.bottom <= rows.bottom && rows.top <= bar.top)
}

/// Fills `pieces` with those that give each square of the rectangle the kind of the source's square that shows the
/// same.
fn list_carried(
    pool: &Pool,
    plane: &Plane,
    source: Source,
    rect: Rect,
    pieces: &mut Vec<Piece>,
    scratch: &mut Scratch,
)
    requires plane { HasPlane pool.now plane.now }
    requires room { HasRoomFor pool.now plane.now scratch.old }
    requires list_fits { IfSome (room_of pool.now plane.now) (λ room. room ≤ vec_capacity pieces.old) }
    requires kinds { picture_in pool.now plane.now ≡ marks_picture (is_marked (picture_in pool.now plane.now)) }
    ensures painted { Paints pieces.new.items rect
        (likened source.likeness source.rect (is_marked (picture_in pool.now plane.now))) }
    ensures few { IfSome (room_of pool.now plane.now) (λ room. length pieces.new.items ≤ room) }
    ensures room { vec_capacity pieces.new ≡ vec_capacity pieces.old }
    ensures rooms { KeepsRoom scratch.old scratch.new }
{
    pool.count(plane.owner());
    let likeness = source.likeness;
    find_area(pool, plane, edge_of(source, rect), scratch);
    list_parts(scratch.tiles(), likeness, rect, pieces);
}

/// Returns the squares of the source that show what those of the rectangle do: its lowest row where they show columns,
/// its leftmost column where they show rows, and its lower left square where they show one kind.
fn edge_of(source: Source, rect: Rect) -> Rect
    ensures { result ≡ spec.edge_of source.likeness source.rect rect }
{
    let from = source.rect.area();
    let lines = rect.area();
    match source.likeness {
        Likeness::OneKind => {
            Rect::between(from.left, from.bottom, from.left + 1, from.bottom + 1)
        }
        Likeness::Columns => {
            Rect::between(lines.left, from.bottom, lines.right, from.bottom + 1)
        }
        Likeness::Rows => Rect::between(from.left, lines.bottom, from.left + 1, lines.top),
    }
}

/// Fills `pieces` with those that give each tile's part of the rectangle its kind.
fn list_parts(tiles: &[LaidTile], likeness: Likeness, rect: Rect, pieces: &mut Vec<Piece>)
    requires fits { length tiles.now ≤ vec_capacity pieces.old }
    requires legal { All (λ tile. IsRectangleIn world (spec.part_like likeness tile.piece.rect rect)) tiles.now }
    ensures pieces { pieces.new.items ≡ map (piece_like likeness rect) tiles.now }
    ensures room { vec_capacity pieces.new ≡ vec_capacity pieces.old }
{
    pieces.clear();
    for tile in tiles {
        pieces.push_reserved(Piece {
            rect: part_like(tile.piece.rect, likeness, rect),
            kind: tile.piece.kind,
        });
    }
}

/// Returns the squares of the rectangle that show what a tile's squares do: those of its columns where they show
/// columns, those of its rows where they show rows, and all where they show one kind.
fn part_like(tile: Rect, likeness: Likeness, rect: Rect) -> Rect
    requires { IsRectangleIn world (spec.part_like likeness tile rect) }
    ensures { result ≡ spec.part_like likeness tile rect }
{
    let bar = tile.area();
    let lines = rect.area();
    match likeness {
        Likeness::OneKind => rect,
        Likeness::Columns => {
            let left = bar.left.max(lines.left);
            Rect::between(left, lines.bottom, bar.right.min(lines.right), lines.top)
        }
        Likeness::Rows => {
            let bottom = bar.bottom.max(lines.bottom);
            Rect::between(lines.left, bottom, lines.right, bar.top.min(lines.top))
        }
    }
}

/// Paints pieces, and returns how many squares of a rectangle were marked and how many are.
///
/// Fails if the plane would then have more than `limit` tiles, and leaves it as it was.
fn repaint(
    pool: &mut Pool,
    plane: &mut Plane,
    rect: Rect,
    pieces: &[Piece],
    limit: u32,
    scratch: &mut Scratch,
) -> Result<Recount, TooManyTiles>
    requires strips { HasStrips pool.old plane.old }
    requires limit { IfSome (room_of pool.old plane.old) (λ room. limit ≤ room) }
    requires room { HasRoomFor pool.old plane.old scratch.old }
    requires pieces_fit { length pieces.now ≤ scratch.old.pieces }
    ensures picture { OnOk result (picture_in pool.new plane.old
        ≡ overlaid (picture_in pool.old plane.old) pieces.now) }
    ensures few { OnOk result (tile_count world (picture_in pool.new plane.old) ≤ limit) }
    ensures before { IfOk result (λ recount. recount.before ≡ marked_count rect (picture_in pool.old plane.old)) }
    ensures after { IfOk result (λ recount. recount.after ≡ marked_count rect (picture_in pool.new plane.old)) }
    ensures legal { IsRectangleIn world rect }
    ensures refused { OnErr result (pool.new ≡ pool.old) }
    ensures strips { HasStrips pool.new plane.old }
    ensures only { ChangesOnly pool.old pool.new plane.old }
    ensures plane { plane.new ≡ plane.old }
    ensures rooms { KeepsRoom scratch.old scratch.new }
{
    lies_in_world(rect);
    let before = marked_in(pool, plane, rect, scratch);
    overlay(pool, plane, pieces, limit, scratch)?;
    let after = marked_in(pool, plane, rect, scratch);
    Ok(Recount { before, after })
}
