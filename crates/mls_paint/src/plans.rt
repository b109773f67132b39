//! What is to take the place of what where pieces are painted over a plane.
ghost use Rattle.std.specs.Prelude.{◌≡◌, ◌++◌, ◌≤◌, IfOk, length, map, vec_capacity};
ghost use Rattle.std.specs.List.{All};
ghost use Rattle.mls_geom.specs.Locality.{AreCoveredStrips, HaveKinds, laid};
ghost use Rattle.mls_geom.specs.World.{AreLegal, world};
ghost use Rattle.mls_paint.specs.Changes.{CornersDiffer, IsWorkedOut};
ghost use Rattle.mls_paint.specs.Plans.{most_plans};

use crate::changes::{SortKey, list_fresh, list_gone, list_names};
use crate::pairs::pair_up;
use mls_geom::{Piece, Rect};
use mls_stitch::{LaidTile, Replacement};
use mls_tilepool::TileId;
use std::alloc::{AllocError, Global};
use std::marker::Model;

/// How many plans a scratch keeps.
pub const MOST_PLANS: usize = 4;

/// Pieces that are to be painted over tiles, and which tiles give way to which strips then.
#[derive(Drop)]
pub(crate) struct Plan {
    room: usize,
    pieces: usize,
    over: Vec<Piece>,
    tiles: Vec<LaidTile>,
    searched: Option<Rect>,
    // The tiles that are to give way, and their names.
    gone: Vec<LaidTile>,
    names: Vec<TileId>,
    // The strips that are to be put in their place.
    fresh: Vec<Piece>,
}

impl Model for Plan {
    ghost use Rattle.std.specs.Prelude.{◌≤◌, length, vec_capacity};
    ghost use Rattle.mls_paint.specs.Changes.{IsWorkedOut};
    ghost use Rattle.mls_paint.specs.Plans.{Plan};

    ghost Value = { Plan };

    ghost view = { λ p. record { over = p.over.items; tiles = p.tiles.items; searched = p.searched; room = p.room; pieces = p.pieces } };

    ghost invariant = { λ p. (p.pieces ≤ vec_capacity p.over) × (p.room ≤ vec_capacity p.tiles)
        × (p.room ≤ vec_capacity p.gone) × (p.room ≤ vec_capacity p.names) × (p.room ≤ vec_capacity p.fresh)
        × (length p.fresh.items ≤ p.room) × IsWorkedOut p.tiles.items p.over.items p.names.items p.fresh.items };
}

impl Plan {
    /// Creates a plan of nothing, with room for this many tiles and pieces.
    pub(crate) fn new(alloc: Global, room: usize, pieces: usize) -> Result<Plan, AllocError>
        ensures room { IfOk result (λ plan. plan.room ≡ room) }
        ensures pieces { IfOk result (λ plan. plan.pieces ≡ pieces) }
    {
        Ok(Plan {
            room,
            pieces,
            over: Vec::with_capacity(alloc, pieces)?,
            tiles: Vec::with_capacity(alloc, room)?,
            searched: None,
            gone: Vec::with_capacity(alloc, room)?,
            names: Vec::with_capacity(alloc, room)?,
            fresh: Vec::with_capacity(alloc, room)?,
        })
    }

    /// Makes this the plan that these pieces are painted over the tiles, where the strips are those of what all cover.
    /// Sorts `touched`, the tiles' rectangles and kinds.
    pub(crate) fn make(
        &mut self,
        tiles: &[LaidTile],
        searched: Option<Rect>,
        over: &[Piece],
        strips: &[Piece],
        touched: &mut Vec<Piece>,
    )
        requires tiles_fit { length tiles.now ≤ self.old.room }
        requires pieces_fit { length over.now ≤ self.old.pieces }
        requires strips_fit { length strips.now ≤ self.old.room }
        requires kinds { HaveKinds (map (λ tile. tile.piece) tiles.now ++ over.now) }
        requires legal { AreLegal over.now }
        requires covered { AreCoveredStrips world (laid (map (λ tile. tile.piece) tiles.now ++ over.now)) strips.now }
        requires touched { touched.old.items ≡ map (λ tile. tile.piece) tiles.now }
        requires corners { CornersDiffer touched.old.items }
        ensures over { self.new.over ≡ over.now }
        ensures tiles { self.new.tiles ≡ tiles.now }
        ensures searched { self.new.searched ≡ searched }
        ensures room { self.new.room ≡ self.old.room }
        ensures pieces { self.new.pieces ≡ self.old.pieces }
        ensures touched_room { vec_capacity touched.new ≡ vec_capacity touched.old }
    {
        self.over.clear();
        self.over.extend_from_slice(over).unwrap();
        self.tiles.clear();
        self.tiles.extend_from_slice(tiles).unwrap();
        self.searched = searched;
        touched.sort_unstable_by_key(|piece| SortKey::of(piece));
        list_gone(tiles, strips, &mut self.gone);
        list_fresh(strips, touched, &mut self.fresh);
        // Tiles go on as strips that have much of them.
        pair_up(&mut self.gone, &mut self.fresh);
        list_names(&self.gone, &mut self.names);
    }

    /// Returns what gives way to what.
    pub(crate) fn replacement(&self) -> Replacement<'_>
        ensures changes { IsWorkedOut self.now.tiles self.now.over result.touched.now result.fresh.now }
        ensures searched { result.searched ≡ self.now.searched }
        ensures around { result.around.now ≡ self.now.tiles }
        ensures few { length result.fresh.now ≤ self.now.room }
    {
        Replacement {
            touched: &self.names,
            fresh: &self.fresh,
            searched: self.searched,
            around: &self.tiles,
        }
    }
}

/// Creates as many plans of nothing as a scratch keeps, each with room for this many tiles and pieces.
pub(crate) fn new_plans(alloc: Global, room: usize, pieces: usize) -> Result<Vec<Plan>, AllocError>
    ensures number { IfOk result (λ plans. length plans.items ≡ most_plans) }
    ensures rooms { IfOk result (λ plans. All (λ plan. plan.room ≡ room) plans.items) }
    ensures pieces { IfOk result (λ plans. All (λ plan. plan.pieces ≡ pieces) plans.items) }
{
    let mut plans = Vec::with_capacity(alloc, MOST_PLANS)?;
    for _ in 0..MOST_PLANS {
        plans.push_reserved(Plan::new(alloc, room, pieces)?);
    }
    Ok(plans)
}
