//! Cells that are placed in a layout.
ghost use Rattle.std.specs.Prelude.{◌≡◌, ℕ, [], false, true};
ghost use Rattle.mls_geom.specs.Rects.{holds};
ghost use Rattle.mls_layout.specs.Inner.{bounds_hold};
ghost use Rattle.mls_layout.specs.Uses.{cell_layouts, use_layout, uses_layout};
ghost use Rattle.mls_library.specs.Libraries.{IsHome};
ghost use Rattle.mls_tilepool.specs.Pools.{Pool};

use crate::moves::moved_part;
use mls_geom::Rect;
use mls_library::{Cell, CellId, Library};

/// How many cells may be placed in a layout.
pub const MOST_USES: usize = 256;

/// A cell that is placed in a layout, moved to the right by `dx` and up by `dy`.
#[derive(Clone, Copy, PartialEq, Eq)]
pub struct CellUse {
    pub cell: CellId,
    pub dx: i32,
    pub dy: i32,
}

/// The cells that are placed in a layout, in the order in which they were placed, and the library that has them.
#[derive(Clone, Copy)]
pub struct Uses<'a> {
    pub library: &'a Library,
    pub list: &'a [CellUse],
}

/// The uses of a layout, as they show on its plane of this number.
#[derive(Clone, Copy)]
pub(crate) struct PlaneUses<'a> {
    pub uses: Uses<'a>,
    pub number: usize,
}

impl Uses<'_> {
    /// Returns whether some use may show something in the area: whether the rectangle round the squares of its cell
    /// that aren't space, moved, meets the area.
    pub fn meet(&self, area: Rect) -> bool
        ensures apart { result ≡ false → (pool : Pool) → IsHome pool self.now.library.now
            → (plane x y : ℕ) → holds area x y ≡ true
            → uses_layout (cell_layouts pool self.now.library.now) self.now.list.now plane x y ≡ 0 }
        ensures none { self.now.list.now ≡ [] → result ≡ false }
    {
        for cell_use in self.list {
            if meets(self.library, cell_use, area) {
                return true;
            }
        }
        false
    }

    /// Returns the rectangle round the parts of the area in which uses may show something, or the area where there is
    /// none. It is where to look first: nothing is promised of it.
    pub(crate) fn part_met(&self, area: Rect) -> Rect {
        let mut met = None;
        for cell_use in self.list {
            met = join(met, part_of(self.library, cell_use, area));
        }
        met.unwrap_or(area)
    }
}

/// Returns the rectangle round both, or the one of them that there is.
fn join(one: Option<Rect>, other: Option<Rect>) -> Option<Rect> {
    match (one, other) {
        (Some(one), Some(other)) => Some(one.joined(other)),
        (None, found) => found,
        (found, None) => found,
    }
}

/// Returns the part of the area in which a use may show something.
fn part_of(library: &Library, cell_use: &CellUse, area: Rect) -> Option<Rect> {
    let bounds = library.get(cell_use.cell)?.bounds()?;
    moved_part(bounds, cell_use.dx, cell_use.dy, area)
}

/// Returns whether a use may show something in the area.
fn meets(library: &Library, cell_use: &CellUse, area: Rect) -> bool
    ensures { result ≡ false → (pool : Pool) → IsHome pool library.now
        → (plane x y : ℕ) → holds area x y ≡ true
        → use_layout (cell_layouts pool library.now) cell_use.now plane x y ≡ 0 }
{
    match library.get(cell_use.cell) {
        Some(cell) => reaches(cell, cell_use, area),
        None => false,
    }
}

/// Returns whether the rectangle round the squares of a cell that aren't space, moved as in the use, meets the area.
pub(crate) fn reaches(cell: &Cell, cell_use: &CellUse, area: Rect) -> bool
    ensures { result ≡ false → (x y : ℕ) → holds area x y ≡ true
        → bounds_hold cell.now.bounds cell_use.now.dx cell_use.now.dy x y ≡ false }
{
    match cell.bounds() {
        Some(bounds) => moved_part(bounds, cell_use.dx, cell_use.dy, area).is_some(),
        None => false,
    }
}
