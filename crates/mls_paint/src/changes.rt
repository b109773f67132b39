//! What changes where strips take the place of tiles: a tile that is itself one of the strips stays.
ghost use Rattle.std.specs.Prelude.{◌≡◌, ◌≤◌, length, map, vec_capacity};
ghost use Rattle.mls_paint.specs.Changes.{AreInOrder, gone_of, is_among, put_of, sort_key_of};

use mls_geom::Piece;
use mls_stitch::LaidTile;
use mls_tilepool::TileId;

/// What pieces are sorted by: the bottom, and then the left.
#[derive(Clone, Copy, PartialEq, Eq, PartialOrd, Ord)]
pub(crate) struct SortKey {
    bottom: u32,
    left: u32,
}

impl SortKey {
    /// Returns by what the piece is sorted.
    pub(crate) fn of(piece: &Piece) -> SortKey
        ensures { result ≡ sort_key_of piece.now }
    {
        let area = piece.rect.area();
        SortKey {
            bottom: area.bottom,
            left: area.left,
        }
    }
}

/// Returns whether the piece is one of these, which are in order. Looks first at the index `near`, and leaves there
/// where to look for the next piece.
fn is_among(pieces: &[Piece], piece: &Piece, near: &mut usize) -> bool
    requires { AreInOrder pieces.now }
    ensures { result ≡ is_among pieces.now piece.now }
{
    if pieces.get(*near) == Some(piece) {
        *near = near.saturating_add(1);
        return true;
    }
    let before = pieces.partition_point(|other| SortKey::of(other) < SortKey::of(piece));
    *near = before.saturating_add(1);
    pieces.get(before) == Some(piece)
}

/// Fills `gone` with the tiles that are none of the strips.
pub(crate) fn list_gone(tiles: &[LaidTile], strips: &[Piece], gone: &mut Vec<LaidTile>)
    requires order { AreInOrder strips.now }
    requires room { length tiles.now ≤ vec_capacity gone.old }
    ensures items { gone.new.items ≡ gone_of tiles.now strips.now }
    ensures few { length gone.new.items ≤ length tiles.now }
    ensures room { vec_capacity gone.new ≡ vec_capacity gone.old }
{
    gone.clear();
    let mut near = 0;
    for tile in tiles {
        if !is_among(strips, &tile.piece, &mut near) {
            gone.push_reserved(*tile);
        }
    }
}

/// Fills `names` with the names of the tiles.
pub(crate) fn list_names(tiles: &[LaidTile], names: &mut Vec<TileId>)
    requires room { length tiles.now ≤ vec_capacity names.old }
    ensures items { names.new.items ≡ map (λ tile. tile.id) tiles.now }
    ensures room { vec_capacity names.new ≡ vec_capacity names.old }
{
    names.clear();
    for tile in tiles {
        names.push_reserved(tile.id);
    }
}

/// Fills `fresh` with the strips that are none of the touched pieces.
pub(crate) fn list_fresh(strips: &[Piece], touched: &[Piece], fresh: &mut Vec<Piece>)
    requires order { AreInOrder touched.now }
    requires room { length strips.now ≤ vec_capacity fresh.old }
    ensures items { fresh.new.items ≡ put_of strips.now touched.now }
    ensures room { vec_capacity fresh.new ≡ vec_capacity fresh.old }
{
    fresh.clear();
    let mut near = 0;
    for strip in strips {
        if !is_among(touched, strip, &mut near) {
            fresh.push_reserved(*strip);
        }
    }
}
