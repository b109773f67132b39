//! A sink for the squares that a scan finds, which marks those whose types aren't allowed.
ghost use Rattle.std.specs.Prelude.{◌≡◌, ◌&&◌, ℕ, true, false, not, IfOk};
ghost use Rattle.mls_checker.specs.Copies.{copied_layout};
ghost use Rattle.mls_checker.specs.Forbids.{is_disallowed};
ghost use Rattle.mls_checker.specs.Grids.{in_kinds, marked_squares, reached_squares, with_unmarked};
ghost use Rattle.mls_checker.specs.Marking.{marks};
ghost use Rattle.mls_geom.specs.Layouts.{Layout};
ghost use Rattle.mls_geom.specs.Rects.{holds};

use crate::grid::Grid;
use crate::idle::is_allowed_by;
use crate::tiles::Tile;
use crate::violation_sink::ViolationSink;
use crate::{Marks, Snapshot};
use mls_edgerule::EdgeRule;
use mls_geom::{Area, Rect};
use mls_kinds::{KindSet, PlaneNumber};
use std::alloc::{AllocError, Global};

/// The squares of a rectangle that a scan adds to. Those whose types are allowed are taken away late: once for all
/// rules that follow each other with one check plane and one set of allowed types.
#[derive(Drop)]
pub(crate) struct MarkSink {
    grid: Grid,
    /// The check plane and the allowed types of the rules by which squares were reached.
    check_plane: PlaneNumber,
    ok_types: KindSet,
    /// No square was reached since those that were reached were marked.
    is_marked: bool,
    ghost none_reached: { is_marked ≡ true → (x y : ℕ) → reached_squares grid.bands x y ≡ false },
}

impl MarkSink {
    /// Creates marks of a rectangle, none of whose squares is marked or was reached.
    pub fn new(alloc: Global, rect: Rect) -> Result<MarkSink, AllocError>
        ensures rect { IfOk result (λ sink. sink.grid.rect ≡ rect) }
        ensures none { IfOk result (λ sink. (layout : Layout) (x y : ℕ)
            → with_unmarked sink.grid sink.check_plane sink.ok_types layout x y ≡ false) }
    {
        Ok(MarkSink {
            grid: Grid::new(alloc, rect)?,
            check_plane: PlaneNumber::new(0),
            ok_types: KindSet::empty(),
            is_marked: true,
        })
    }

    /// Marks the squares that were reached and whose types aren't allowed, and begins anew with none.
    fn mark_reached(&mut self, snapshot: &Snapshot)
        ensures rect { self.new.grid.rect ≡ self.old.grid.rect }
        ensures marked { (x y : ℕ) → marked_squares self.new.grid.bands x y
            ≡ with_unmarked self.old.grid self.old.check_plane self.old.ok_types (copied_layout snapshot.now) x y }
        ensures reached { (x y : ℕ) → reached_squares self.new.grid.bands x y ≡ false }
    {
        if self.is_marked {
            return;
        }
        let tiles = snapshot.tiles(self.check_plane);
        clear_kinds(&mut self.grid, tiles.as_slice(), self.ok_types);
        self.grid.mark_reached();
        self.is_marked = true;
    }

    /// Marks what was reached by rules of another check plane or other allowed types than a rule's.
    fn turn_to(&mut self, rule: &EdgeRule, snapshot: &Snapshot)
        ensures rect { self.new.grid.rect ≡ self.old.grid.rect }
        ensures plane { self.new.check_plane ≡ rule.now.check_plane }
        ensures types { self.new.ok_types ≡ rule.now.ok_types }
        ensures squares { (x y : ℕ) → with_unmarked self.new.grid self.new.check_plane self.new.ok_types
            (copied_layout snapshot.now) x y
            ≡ with_unmarked self.old.grid self.old.check_plane self.old.ok_types (copied_layout snapshot.now) x y }
    {
        if rule.check_plane == self.check_plane && rule.ok_types == self.ok_types {
            return;
        }
        self.mark_reached(snapshot);
        self.check_plane = rule.check_plane;
        self.ok_types = rule.ok_types;
    }

    /// Returns the marks.
    pub fn into_marks(mut self, alloc: Global, snapshot: &Snapshot) -> Result<Marks, AllocError>
        ensures rect { IfOk result (λ m. m.rect ≡ self.grid.rect) }
        ensures squares { IfOk result (λ m. (x y : ℕ) → marks m x y
            ≡ with_unmarked self.grid self.check_plane self.ok_types (copied_layout snapshot.now) x y) }
    {
        self.mark_reached(snapshot);
        let map = self.grid.to_map(alloc)?;
        Marks::of(alloc, map)
    }
}

/// Takes the squares of tiles of some kinds from those of a grid that were reached.
fn clear_kinds(grid: &mut Grid, tiles: &[Tile], kinds: KindSet)
    ensures rect { grid.new.rect ≡ grid.old.rect }
    ensures marked { (x y : ℕ) → marked_squares grid.new.bands x y ≡ marked_squares grid.old.bands x y }
    ensures reached { (x y : ℕ) → reached_squares grid.new.bands x y
        ≡ (reached_squares grid.old.bands x y && not (in_kinds tiles.now kinds x y)) }
{
    for tile in tiles {
        if tile.is_of(kinds) {
            grid.clear(&tile.area);
        }
    }
}

impl ViolationSink for MarkSink {
    ghost use Rattle.std.specs.Prelude.{◌≡◌, ◌&&◌, ℕ};
    ghost use Rattle.mls_checker.specs.Grids.{with_unmarked};
    ghost use Rattle.mls_geom.specs.Rects.{holds};

    ghost represents = { λ sink layout rect set. (sink.grid.rect ≡ rect)
        × ((x y : ℕ) → with_unmarked sink.grid sink.check_plane sink.ok_types layout x y
        ≡ (holds rect x y && set x y)) };

    fn add(&mut self, rule: &EdgeRule, snapshot: &Snapshot, area: Area, near: usize) {
        if is_allowed_by(rule, snapshot, &area, near) {
            return;
        }
        let part = area.common(self.grid.rect().area());
        if !part.has_squares() {
            return;
        }
        self.turn_to(rule, snapshot);
        self.is_marked = false;
        self.grid.reach(&area);
    }
}
