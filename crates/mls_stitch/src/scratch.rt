//! Lists in which tiles are searched and stitched.
ghost use Rattle.std.specs.Prelude.{◌≡◌, [], IfOk};

use crate::LaidTile;
use crate::hints::Hints;
use std::alloc::{AllocError, Global};
use std::marker::Model;

/// Lists in which the calls of [`Plane`](crate::Plane) work. Area search leaves there what it finds.
///
/// All memory is reserved when the scratch is made.
pub struct Scratch {
    room: usize,
    // Twice as many: a tile may be found more than once.
    pub(crate) tiles: Vec<LaidTile>,
    // What is searched where the tiles stay, and then tiles to be stitched in another order.
    pub(crate) found: Vec<LaidTile>,
    // Twice as many: tiles to be stitched, and their neighbours.
    pub(crate) entries: Vec<LaidTile>,
    // The keys of tiles that are to give way, in ascending order.
    pub(crate) touched: Vec<usize>,
    // Tiles from which searches start.
    pub(crate) hints: Hints,
}

impl Model for Scratch {
    ghost use Rattle.std.specs.Prelude.{◌≤◌, ◌+◌, vec_capacity};
    ghost use Rattle.mls_stitch.specs.Areas.{Scratch};

    ghost Value = { Scratch };

    ghost view = { λ s. record { tiles = s.tiles.items; room = s.room } };

    ghost invariant = { λ s. (s.room + s.room ≤ vec_capacity s.tiles) × (s.room ≤ vec_capacity s.found)
        × (s.room + s.room ≤ vec_capacity s.entries)
        × (s.room ≤ vec_capacity s.touched) };
}

// Written out, so that what a scratch's end drops is proved here, and not in each crate that lets one go.
impl Drop for Scratch {
    fn drop(self) {
        let Scratch {
            room: _,
            tiles: _tiles,
            found: _found,
            entries: _entries,
            touched: _touched,
            hints: _hints,
        } = self;
    }
}

impl Scratch {
    /// Creates a scratch with room for `room` tiles.
    pub fn new(alloc: Global, room: u32) -> Result<Scratch, AllocError>
        ensures { IfOk result (λ s. (s.room ≡ room) × (s.tiles ≡ [])) }
    {
        let room = room as usize;
        Ok(Scratch {
            room,
            tiles: Vec::with_capacity(alloc, 2 * room)?,
            found: Vec::with_capacity(alloc, room)?,
            entries: Vec::with_capacity(alloc, 2 * room)?,
            touched: Vec::with_capacity(alloc, room)?,
            hints: Hints::new(alloc)?,
        })
    }

    /// Returns how many tiles there is room for.
    pub fn room(&self) -> usize
        ensures { result ≡ self.now.room }
    {
        self.room
    }

    /// Returns the tiles that were found last.
    pub fn tiles(&self) -> &[LaidTile]
        ensures { result.now ≡ self.now.tiles }
    {
        &self.tiles
    }
}
