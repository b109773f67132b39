//! The pool.
ghost use Rattle.std.specs.Prelude.{◌≡◌, ℕ, ◌+◌, ◌≤◌, ◌<◌, ◌↔◌, [], Some, None, IfOk, IfSome, OnOk, OnErr, IfNone, IsErr, IsSome};
ghost use Rattle.mls_tilepool.specs.Chains.{key_limit};
ghost use Rattle.mls_tilepool.specs.Pools.{Changes, ChangesOnly, IsOwner, ListsTiles, Reserves, count_of, room_of, tile_at, tiles_of, unreserved};

use crate::chain::{Place, Row, link_next, link_previous};
use crate::{Owner, Tile, TileId, Tiles};
use slab::Slab;
use std::alloc::{AllocError, Global};
use std::marker::Model;
use thiserror::Error;

/// How many keys of 32 bits there are.
const KEY_LIMIT: u64 = 1 << 32;

/// The pool has fewer unreserved tiles than that.
#[derive(Clone, Copy, Debug, PartialEq, Eq, Error)]
#[error("pool full")]
pub struct PoolFull;

/// The owner has as many tiles as it reserved.
#[derive(Clone, Copy, Debug, PartialEq, Eq, Error)]
#[error("no room")]
pub struct NoRoom;

/// A pool of tiles. Each tile lies under an owner, and each owner has at most as many tiles as it reserved.
///
/// All memory is reserved when the pool is made.
pub struct Pool {
    capacity: u32,
    reserved: u32,
    places: Slab<Place>,
    rows: Slab<Row>,
}

impl Model for Pool {
    ghost use Rattle.mls_tilepool.specs.Chains.{IsPool, pool_of};
    ghost use Rattle.mls_tilepool.specs.Pools.{Pool};

    ghost Value = { Pool };

    ghost view = { λ p. pool_of p.capacity p.places.slots p.rows.slots };

    ghost invariant = { λ p. IsPool p.capacity p.reserved p.places p.rows };
}

// Written out, so that what a pool's end drops is proved here, and not in each crate that lets one go.
impl Drop for Pool {
    fn drop(self) {
        let Pool {
            capacity: _,
            reserved: _,
            places: _places,
            rows: _rows,
        } = self;
    }
}

/// Creates a slab with room for `capacity` values, whose keys take 32 bits: memory counts as out where there is room
/// for more.
fn with_keys<T: Drop>(alloc: Global, capacity: u32) -> Result<Slab<T>, AllocError>
    ensures empty { IfOk result (λ slab. slab.slots ≡ []) }
    ensures capacity { IfOk result (λ slab. capacity ≤ slab.capacity) }
    ensures keys { IfOk result (λ slab. slab.capacity ≤ key_limit) }
{
    let slab = Slab::with_capacity(alloc, capacity as usize)?;
    if slab.capacity() as u64 > KEY_LIMIT {
        return Err(AllocError);
    }
    Ok(slab)
}

impl Pool {
    /// Creates a pool of `capacity` tiles, none of which is reserved.
    pub fn new(alloc: Global, capacity: u32) -> Result<Pool, AllocError>
        requires some { 1 ≤ capacity }
        requires most { capacity ≤ 8388608 }
        ensures capacity { IfOk result (λ pool. pool.capacity ≡ capacity) }
        ensures no_owners { IfOk result (λ pool. pool.rooms ≡ []) }
        ensures no_tiles { IfOk result (λ pool. pool.places ≡ []) }
    {
        Ok(Pool {
            capacity,
            reserved: 0,
            places: with_keys(alloc, capacity)?,
            rows: with_keys(alloc, capacity)?,
        })
    }

    /// Returns how many tiles all owners together can have.
    pub fn capacity(&self) -> u32
        ensures { result ≡ self.now.capacity }
    {
        self.capacity
    }

    /// Returns how many tiles can still be reserved.
    pub fn unreserved(&self) -> u32
        ensures { result ≡ unreserved self.now }
    {
        self.capacity - self.reserved
    }

    /// Returns how many tiles the owner has reserved.
    pub fn room(&self, owner: &Owner) -> u32
        requires { IsOwner self.now owner.now }
        ensures { room_of self.now owner.now ≡ Some result }
    {
        self.rows[owner.0 as usize].room
    }

    /// Returns how many tiles the owner has.
    pub fn count(&self, owner: &Owner) -> u32
        requires { IsOwner self.now owner.now }
        ensures value { result ≡ count_of self.now owner.now }
        ensures within { IfSome (room_of self.now owner.now) (λ room. result ≤ room) }
    {
        self.rows[owner.0 as usize].count
    }

    /// Returns the name of one of the owner's tiles, if it has any.
    pub fn first(&self, owner: &Owner) -> Option<TileId>
        requires { IsOwner self.now owner.now }
        ensures some { IfSome result (λ id. IsSome (tile_at self.now owner.now id)) }
        ensures none { IfNone result (tiles_of self.now owner.now ≡ []) }
    {
        let key = self.rows[owner.0 as usize].first?;
        Some(TileId(key))
    }

    /// Reserves room for this many tiles under a new owner.
    ///
    /// Fails if fewer are unreserved, and leaves the pool as it was.
    pub fn reserve(&mut self, tiles: u32) -> Result<Owner, PoolFull>
        requires { 1 ≤ tiles }
        ensures full { IsErr result ↔ (unreserved self.old < tiles) }
        ensures new_owner { IfOk result (λ owner. room_of self.old owner ≡ None) }
        ensures reserves { IfOk result (λ owner. Reserves self.old self.new owner (Some tiles)) }
        ensures taken { OnOk result (unreserved self.new + tiles ≡ unreserved self.old) }
        ensures refused { OnErr result (self.new ≡ self.old) }
    {
        let left = self.capacity - self.reserved;
        if left < tiles {
            return Err(PoolFull);
        }
        let number = self.rows.insert_reserved(Row {
            room: tiles,
            count: 0,
            first: None,
        }) as u32;
        self.reserved += tiles;
        Ok(Owner(number))
    }

    /// Removes all tiles of an owner, and gives its reserve back.
    pub fn release(&mut self, owner: Owner)
        requires { IsOwner self.old owner }
        ensures releases { Reserves self.old self.new owner None }
        ensures given_back { IfSome (room_of self.old owner)
            (λ room. unreserved self.new ≡ unreserved self.old + room) }
    {
        self.clear(&owner);
        let row = self.rows.remove(owner.0 as usize);
        self.reserved -= row.room;
    }

    /// Removes all tiles of an owner.
    fn clear(&mut self, owner: &Owner)
        requires { IsOwner self.old owner.now }
        ensures empty { tiles_of self.new owner.now ≡ [] }
        ensures kept { ChangesOnly self.old self.new owner.now }
    {
        while let Some(id) = self.first(owner) {
            self.remove(owner, id);
        }
    }

    /// Adds a tile of an owner, and returns its name.
    ///
    /// Fails if the owner has as many tiles as it reserved, and leaves the pool as it was.
    pub fn add(&mut self, owner: &Owner, tile: Tile) -> Result<TileId, NoRoom>
        requires { IsOwner self.old owner.now }
        ensures no_room { IsErr result ↔ (room_of self.old owner.now ≡ Some (count_of self.old owner.now)) }
        ensures unused { IfOk result (λ id. (other : ℕ) → tile_at self.old other id ≡ None) }
        ensures added { IfOk result (λ id. Changes self.old self.new owner.now id (Some tile)) }
        ensures count { OnOk result (count_of self.new owner.now ≡ count_of self.old owner.now + 1) }
        ensures refused { OnErr result (self.new ≡ self.old) }
    {
        let row = self.rows[owner.0 as usize];
        if row.count == row.room {
            return Err(NoRoom);
        }
        let key = self.places.insert_reserved(Place {
            owner: owner.0,
            tile,
            previous: None,
            next: row.first,
        }) as u32;
        link_previous(&mut self.places, row.first, Some(key));
        self.rows[owner.0 as usize] = Row {
            room: row.room,
            count: row.count + 1,
            first: Some(key),
        };
        Ok(TileId(key))
    }

    /// Returns the tile, if it is one of the owner's.
    pub fn get(&self, owner: &Owner, id: TileId) -> Option<Tile>
        ensures { result ≡ tile_at self.now owner.now id }
    {
        let place = self.places.get(id.0 as usize)?;
        if place.owner == owner.0 {
            Some(place.tile)
        } else {
            None
        }
    }

    /// Replaces a tile of the owner's by another under the same name.
    pub fn set(&mut self, owner: &Owner, id: TileId, tile: Tile)
        requires { IsSome (tile_at self.old owner.now id) }
        ensures changes { Changes self.old self.new owner.now id (Some tile) }
        ensures count { count_of self.new owner.now ≡ count_of self.old owner.now }
    {
        self.places[id.0 as usize].tile = tile;
    }

    /// Removes a tile of the owner's, and returns it.
    pub fn remove(&mut self, owner: &Owner, id: TileId) -> Tile
        requires { IsSome (tile_at self.old owner.now id) }
        ensures tile { tile_at self.old owner.now id ≡ Some result }
        ensures changes { Changes self.old self.new owner.now id None }
        ensures count { count_of self.new owner.now + 1 ≡ count_of self.old owner.now }
    {
        let place = self.places.remove(id.0 as usize);
        link_next(&mut self.places, place.previous, place.next);
        link_previous(&mut self.places, place.next, place.previous);
        let row = self.rows[owner.0 as usize];
        let first = match place.previous {
            Some(_) => row.first,
            None => place.next,
        };
        self.rows[owner.0 as usize] = Row {
            room: row.room,
            count: row.count - 1,
            first,
        };
        place.tile
    }

    /// Returns an iterator over the owner's tiles and their names, each once, in any order.
    pub fn tiles(&self, owner: &Owner) -> Tiles<'_>
        requires { IsOwner self.now owner.now }
        ensures { ListsTiles self.now owner.now result }
    {
        let row = self.rows[owner.0 as usize];
        Tiles {
            places: &self.places,
            left: row.count,
            next: row.first,
        }
    }
}
