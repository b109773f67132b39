//! Tiles from which searches start.
ghost use Rattle.std.specs.Prelude.{◌<◌};
ghost use Rattle.mls_stitch.specs.Tilings.{HasPlane};

use crate::LaidTile;
use mls_geom::Point;
use mls_tilepool::{Owner, Pool, TileId};
use std::alloc::{AllocError, Global};

/// How many tiles are kept.
const SLOTS: usize = 16_384;

/// How many parts a side of a table has, after which they repeat themselves.
const SIDE: u32 = 16;

/// How large the parts of a plane are, of each of which the tile is kept that was found last.
#[derive(Clone, Copy)]
enum Parts {
    /// Squares of 64 by 64.
    Small,
    /// Squares of 131,072 by 131,072, a sixteenth of the world's side.
    Large,
    /// All of the world.
    Whole,
}

impl Parts {
    /// Returns which slot has what is kept of the owner's part that has the square.
    fn slot(self, owner: &Owner, at: Point) -> usize
        ensures { result < 16384 }
    {
        // How many squares wide and high a part is, and where the table of these begins, of the owner's three.
        let (side, table) = match self {
            Parts::Whole => (1 << 23, 0),
            Parts::Large => (131_072, 1),
            Parts::Small => (64, 257),
        };
        let column = at.column() / side % SIDE;
        let row = at.row() / side % SIDE;
        let first = (owner.number() as usize).wrapping_mul(513);
        first.wrapping_add(table + (row * SIDE + column) as usize) % SLOTS
    }
}

/// A tile, and a square where it was found.
#[derive(Clone, Copy)]
struct Hint {
    at: Point,
    tile: TileId,
}

/// For each owner the tiles that were found last, in small parts of its plane, in large ones and in all of it.
///
/// Slots are shared by parts and by owners, and tiles may have been removed since: what is kept is looked up before use.
#[derive(Drop)]
pub(crate) struct Hints {
    slots: Vec<Option<Hint>>,
}

impl Hints {
    /// Creates hints of no tiles.
    pub(crate) fn new(alloc: Global) -> Result<Hints, AllocError> {
        Ok(Hints {
            slots: vec![in alloc; None; SLOTS]?,
        })
    }

    /// Keeps a tile of the owner's that was found at a square, if there is one.
    pub(crate) fn keep(&mut self, owner: &Owner, at: Point, tile: Option<&LaidTile>) {
        let Some(tile) = tile else {
            return;
        };
        for parts in [Parts::Small, Parts::Large, Parts::Whole] {
            if let Some(slot) = self.slots.get_mut(parts.slot(owner, at)) {
                *slot = Some(Hint { at, tile: tile.id });
            }
        }
    }

    /// Keeps the last of these tiles of the owner's, if there is one.
    pub(crate) fn keep_last(&mut self, owner: &Owner, tiles: &[LaidTile]) {
        if let Some(tile) = tiles.last() {
            self.keep(owner, tile.piece.rect.corner(), Some(tile));
        }
    }

    /// Returns the tile from which to search for a square: of those that were found last in the parts that have it the
    /// closest one that the owner still has, or else any one of the owner's.
    pub(crate) fn start(&self, pool: &Pool, owner: &Owner, at: Point) -> TileId
        requires { HasPlane pool.now owner.now }
    {
        let mut closest = None;
        let mut distance = u32::MAX;
        for parts in [Parts::Whole, Parts::Large, Parts::Small] {
            if let Some(Some(hint)) = self.slots.get(parts.slot(owner, at)) {
                let columns = hint.at.column().abs_diff(at.column());
                let away = columns.saturating_add(hint.at.row().abs_diff(at.row()));
                if away < distance && pool.get(owner, hint.tile).is_some() {
                    closest = Some(hint.tile);
                    distance = away;
                }
            }
        }
        match closest {
            Some(tile) => tile,
            None => pool.first(owner).unwrap(),
        }
    }
}
