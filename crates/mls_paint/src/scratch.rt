//! Lists in which planes are painted and searched.
ghost use Rattle.std.specs.Prelude.{◌≡◌, [], IfOk};

use crate::plans::{Plan, new_plans};
use mls_geom::{Piece, Scratch as Sweep};
use mls_stitch::{LaidTile, Scratch as Search};
use std::alloc::{AllocError, Global};
use std::marker::Model;

/// Lists in which the calls of this crate work. Searches leave there what they find, and plans are kept there.
///
/// All memory is reserved when the scratch is made.
pub struct Scratch {
    pub(crate) room: usize,
    pub(crate) pieces: usize,
    pub(crate) search: Search,
    pub(crate) sweep: Sweep,
    // The pieces of touched tiles, and those that are painted over them.
    pub(crate) touched: Vec<Piece>,
    pub(crate) plans: Vec<Plan>,
}

impl Model for Scratch {
    ghost use Rattle.std.specs.Prelude.{◌≡◌, ◌+◌, ◌≤◌, length, vec_capacity};
    ghost use Rattle.std.specs.List.{All};
    ghost use Rattle.mls_paint.specs.Plans.{most_plans};
    ghost use Rattle.mls_paint.specs.Scratches.{Scratch};

    ghost Value = { Scratch };

    ghost view = { λ s. record { tiles = s.search.tiles; room = s.room; pieces = s.pieces; plans = s.plans.items } };

    ghost invariant = { λ s. (s.search.room ≡ s.room) × (s.sweep.room ≡ s.room + s.pieces)
        × (s.room + s.pieces ≤ vec_capacity s.touched) × (length s.plans.items ≡ most_plans)
        × All (λ plan. plan.room ≡ s.room) s.plans.items × All (λ plan. plan.pieces ≡ s.pieces) s.plans.items };
}

// Written out, so that what a scratch's end drops is proved here, and not in each crate that lets one go.
impl Drop for Scratch {
    fn drop(self) {
        let Scratch {
            room: _,
            pieces: _,
            search: _search,
            sweep: _sweep,
            touched: _touched,
            plans: _plans,
        } = self;
    }
}

impl Scratch {
    /// Creates a scratch for planes of at most `room` tiles, over which at most `pieces` pieces are painted at once.
    pub fn new(alloc: Global, room: u32, pieces: u32) -> Result<Scratch, AllocError>
        ensures room { IfOk result (λ s. s.room ≡ room) }
        ensures pieces { IfOk result (λ s. s.pieces ≡ pieces) }
        ensures none_found { IfOk result (λ s. s.tiles ≡ []) }
    {
        let tiles = room as usize;
        let pieces = pieces as usize;
        Ok(Scratch {
            room: tiles,
            pieces,
            search: Search::new(alloc, room)?,
            sweep: Sweep::new(alloc, tiles + pieces)?,
            touched: Vec::with_capacity(alloc, tiles + pieces)?,
            plans: new_plans(alloc, tiles, pieces)?,
        })
    }

    /// Returns how many tiles a plane may have.
    pub fn room(&self) -> usize
        ensures { result ≡ self.now.room }
    {
        self.room
    }

    /// Returns how many pieces may be painted at once.
    pub fn pieces(&self) -> usize
        ensures { result ≡ self.now.pieces }
    {
        self.pieces
    }

    /// Returns the tiles that were found last.
    pub fn tiles(&self) -> &[LaidTile]
        ensures { result.now ≡ self.now.tiles }
    {
        self.search.tiles()
    }
}
