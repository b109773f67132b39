//! What is to be replaced by what.
ghost use Rattle.std.specs.Prelude.{◌≡◌, IsSomeAnd, IsTrue, None, slice_get};
ghost use Rattle.std.specs.Option.{option_map};
ghost use Rattle.mls_geom.specs.Rects.{IsWithin};

use crate::LaidTile;
use mls_geom::{Piece, Rect};
use mls_tilepool::TileId;

/// How many tiles may have been found for them to be looked through again.
const FEW: usize = 32;

/// The names of tiles, and the pieces that are to take their place. A name goes to the piece at the same index. And the
/// area that was searched, if there is one, with the tiles that were found around.
#[derive(Drop)]
pub struct Replacement<'a> {
    /// The names of the tiles that are to give way.
    pub touched: &'a [TileId],
    /// The pieces over exactly their squares.
    pub fresh: &'a [Piece],
    /// An area of which all tiles are `around`, so that none is searched there again.
    pub searched: Option<Rect>,
    /// Tiles that were found before.
    pub around: &'a [LaidTile],
}

impl<'a> Replacement<'a> {
    /// Creates the replacement of these tiles by pieces, where no area was searched.
    pub(crate) fn of(touched: &'a [TileId], fresh: &'a [Piece]) -> Replacement<'a>
        ensures touched { result.touched.now ≡ touched.now }
        ensures fresh { result.fresh.now ≡ fresh.now }
        ensures searched { result.searched ≡ None }
    {
        Replacement {
            touched,
            fresh,
            searched: None,
            around: &[],
        }
    }

    /// Returns the rectangle that the tile under the name at the index is to have, or `None` if it is to give way.
    pub(crate) fn rect_at(&self, index: usize) -> Option<Rect>
        ensures { result ≡ option_map (λ piece. piece.rect) (slice_get self.now.fresh.now index) }
    {
        let piece = self.fresh.get(index)?;
        Some(piece.rect)
    }

    /// Returns whether the rectangle lies in the area that was searched, and few tiles were found there.
    pub(crate) fn has_searched(&self, rect: Rect) -> bool
        ensures { IsTrue result → IsSomeAnd self.now.searched (λ area. IsWithin area rect) }
    {
        match self.searched {
            Some(area) => self.around.len() <= FEW && area.encloses(rect),
            None => false,
        }
    }
}
