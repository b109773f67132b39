//! The list of an owner's tiles, which runs through their places.
ghost use Rattle.std.specs.Prelude.{◌≡◌, ℕ, ◌==◌, if◌then◌else◌};
ghost use Rattle.slab.specs.Slab.{slab_len};
ghost use Rattle.mls_tilepool.specs.Chains.{Links};

use crate::Tile;
use slab::Slab;

/// A tile in its place, under its owner, between its neighbours in the list of the owner's tiles.
#[derive(Clone, Copy)]
pub(crate) struct Place {
    pub(crate) owner: u32,
    pub(crate) tile: Tile,
    pub(crate) previous: Option<u32>,
    pub(crate) next: Option<u32>,
}

/// An owner's reserve, how many tiles it has, and the first of them.
#[derive(Clone, Copy)]
pub(crate) struct Row {
    pub(crate) room: u32,
    pub(crate) count: u32,
    pub(crate) first: Option<u32>,
}

/// Writes the link back of the place under the key, if there is one.
pub(crate) fn link_previous(places: &mut Slab<Place>, key: Option<u32>, previous: Option<u32>)
    ensures links { Links (λ place. record place { previous = previous }) key places.old places.new }
{
    if let Some(key) = key {
        if let Some(place) = places.get_mut(key as usize) {
            place.previous = previous;
        }
    }
}

/// Writes the link onward of the place under the key, if there is one.
pub(crate) fn link_next(places: &mut Slab<Place>, key: Option<u32>, next: Option<u32>)
    ensures links { Links (λ place. record place { next = next }) key places.old places.new }
{
    if let Some(key) = key {
        if let Some(place) = places.get_mut(key as usize) {
            place.next = next;
        }
    }
}
