//! The tiles of an owner.
use crate::chain::Place;
use crate::{Tile, TileId};
use slab::Slab;
use std::marker::Model;

/// An iterator over an owner's tiles and their names, made by [`Pool::tiles`](crate::Pool::tiles).
#[derive(Drop)]
pub struct Tiles<'a> {
    pub(crate) places: &'a Slab<Place>,
    pub(crate) left: u32,
    pub(crate) next: Option<u32>,
}

impl<'a> Model for Tiles<'a> {
    ghost use Rattle.std.specs.Prelude.{ℕ, List};
    ghost use Rattle.mls_tilepool.specs.Chains.{tiles_from};
    ghost use Rattle.mls_tilepool.specs.declared.tile.Tile.{Tile};

    ghost Value = { List (ℕ × Tile) };

    ghost view = { λ t. tiles_from t.places.now.slots t.left t.next };
}

impl Iterator for Tiles<'_> {
    ghost use Rattle.std.specs.Iterator.{YieldsFirst, item_count};

    type Item = (TileId, Tile);

    ghost next_gives = { YieldsFirst (λ tiles. tiles) };

    ghost remaining = { item_count (λ tiles. tiles) };

    fn next(&mut self) -> Option<(TileId, Tile)> {
        if self.left == 0 {
            return None;
        }
        let key = self.next?;
        let place = self.places.get(key as usize)?;
        self.left -= 1;
        self.next = place.next;
        Some((TileId(key), place.tile))
    }
}
