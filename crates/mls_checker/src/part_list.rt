//! The squares of a rectangle that a rule forbids, tile by tile.
ghost use Rattle.std.specs.Prelude.{◌≡◌, ◌∷◌, ◌++◌, [], false};

use crate::Snapshot;
use crate::scan::scan_tiles;
use crate::tiles::{PartSink, Tile};
use crate::violation_sink::{ViolationSink, search_start};
use mls_edgerule::EdgeRule;
use mls_geom::{Area, Rect};
use mls_kinds::KindSet;
use std::alloc::Global;

/// How many areas a list may have.
const MOST_PARTS: usize = 65_536;

/// A rectangle, and areas of its squares that a rule forbids: parts of tiles, which may overlap.
#[derive(Drop)]
pub(crate) struct PartList {
    rect: Rect,
    /// The types that the rule allows whose violations are being looked for.
    ok_types: KindSet,
    /// The index of the tile that was found last.
    hint: usize,
    pub areas: Vec<Area>,
    /// An area is missing: the list was full, or memory ran out.
    pub is_short: bool,
}

impl PartList {
    /// Creates a list of a rectangle, without areas.
    pub fn new(alloc: Global, rect: Rect) -> PartList
        ensures rect { result.rect ≡ rect }
        ensures none { result.areas.items ≡ [] }
    {
        PartList {
            rect,
            ok_types: KindSet::empty(),
            hint: 0,
            areas: Vec::new(alloc),
            is_short: false,
        }
    }

    /// Whether the list has as many areas as it may have.
    pub fn is_full(&self) -> bool {
        self.areas.len() >= MOST_PARTS
    }
}

impl PartSink for PartList {
    ghost use Rattle.std.specs.Prelude.{◌≡◌, ◌||◌, ℕ, false};
    ghost use Rattle.std.specs.List.{list_any};
    ghost use Rattle.mls_checker.specs.Marking.{squares_of};
    ghost use Rattle.mls_checker.specs.Violations.{ListStart, shows_disallowed};

    ghost Context = { ListStart };

    ghost took = { λ list start parts. (list.rect ≡ start.rect) × (list.ok_types ≡ start.rule.ok_types)
        × (list.is_short ≡ false → (start.is_short ≡ false) × ((x y : ℕ) → squares_of list.areas.items x y
        ≡ (start.set x y || list_any (shows_disallowed start.rule x y) parts))) };

    fn add_part(&mut self, part: &Tile, index: usize) {
        self.hint = index;
        if part.is_of(self.ok_types) {
            return;
        }
        if self.is_full() || self.areas.push(part.area).is_err() {
            self.is_short = true;
        }
    }
}

impl ViolationSink for PartList {
    ghost use Rattle.std.specs.Prelude.{◌≡◌, ◌&&◌, ℕ, false};
    ghost use Rattle.mls_checker.specs.Marking.{squares_of};
    ghost use Rattle.mls_geom.specs.Rects.{holds};

    ghost represents = { λ list layout rect set. (list.rect ≡ rect) × (list.is_short ≡ false
        → (x y : ℕ) → squares_of list.areas.items x y ≡ (holds rect x y && set x y)) };

    fn add(&mut self, rule: &EdgeRule, snapshot: &Snapshot, area: Area, near: usize) {
        if self.is_short {
            return;
        }
        let part = area.common(self.rect.area());
        let from = search_start(rule, near, self.hint);
        self.ok_types = rule.ok_types;
        scan_tiles(self, snapshot.tiles(rule.check_plane), part, from);
    }
}
