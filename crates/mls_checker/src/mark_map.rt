//! Marked squares of a rectangle, as a map of one bit a square.
ghost use Rattle.std.specs.Prelude.{◌≡◌, ◌+◌, ◌*◌, ◌<◌, ◌≤◌, ◌&&◌, ℕ, true, false, [], length};
ghost use Rattle.mls_checker.specs.MarkMaps.{IsMarkMap, IsTightOf, mapped, row_squares};
ghost use Rattle.mls_checker.specs.Maps.{IsRound, frame_area, has_place, place_of};
ghost use Rattle.mls_checker.specs.Marking.{IsBoundsOf, differs, has_some};
ghost use Rattle.mls_geom.specs.Rects.{IsRectangleIn, holds};

use crate::map_frame::Frame;
use crate::places::{ends_between, first_place};
use crate::words::COLUMNS;
use mls_geom::{Area, Rect};
use std::marker::Model;

/// An area without squares, which joined with another area is that one.
const NOWHERE: Area = Area {
    left: u32::MAX,
    bottom: u32::MAX,
    right: 0,
    top: 0,
};

/// The marked squares of a rectangle, row after row. Without words it has none.
#[derive(Drop)]
pub(crate) struct MarkMap {
    rect: Rect,
    frame: Frame,
    words: Vec<u64>,
}

impl Model for MarkMap {
    ghost use Rattle.mls_checker.specs.MarkMaps.{IsMarkMap, MarkMap};

    ghost Value = { MarkMap };

    ghost view = { λ m. record { rect = m.rect; frame = m.frame; words = m.words.items } };

    ghost invariant = { λ m. IsMarkMap (record { rect = m.rect; frame = m.frame; words = m.words.items }) };
}

impl MarkMap {
    /// Makes a map of the words of a frame, which may have squares outside the rectangle.
    pub fn new(rect: Rect, frame: Frame, words: Vec<u64>) -> MarkMap
        requires round { IsRound frame rect 0 }
        requires size { 0 < length words.items → length words.items ≡ frame.words * frame.rows }
        ensures { result ≡ record { rect = rect; frame = frame; words = words.items } }
    {
        let _lines = rect.area();
        MarkMap { rect, frame, words }
    }

    /// Returns the rectangle.
    pub fn rect(&self) -> Rect
        ensures value { result ≡ self.now.rect }
        ensures map { IsMarkMap self.now }
    {
        self.rect
    }

    /// Returns the squares of which the map has bits.
    pub fn frame(&self) -> Frame
        ensures { result ≡ self.now.frame }
    {
        self.frame
    }

    /// Returns the words.
    pub fn words(&self) -> &[u64]
        ensures { result.now ≡ self.now.words }
    {
        &self.words
    }

    /// Returns the smallest area that has those squares of another one in the rectangle that are marked, or that aren't.
    pub fn differing(&self, area: Area, is_marked: bool) -> Area
        ensures { IsBoundsOf (λ x y. (holds self.now.rect x y && holds area x y)
            && differs is_marked (mapped self.now x y)) result }
    {
        let part = area.common(self.rect.area());
        if !part.has_squares() {
            return part;
        }
        if self.words.is_empty() {
            return if is_marked { part } else { NOWHERE };
        }
        bounds_of_rows(&self.words, self.frame, &part, is_marked)
    }
}

/// Returns the smallest area that has the squares of a part of a frame that are marked, or that aren't.
fn bounds_of_rows(words: &[u64], frame: Frame, part: &Area, is_marked: bool) -> Area
    requires size { length words.now ≡ frame.words * frame.rows }
    requires inside { IsRectangleIn (frame_area frame) part.now }
    ensures { IsBoundsOf (λ x y. holds part.now x y && differs is_marked (has_place words.now (place_of frame x y)))
        result }
{
    let mut bounds = NOWHERE;
    for row in part.bottom..part.top {
        bounds = bounds.joined(bounds_of_row(words, frame, part, row, is_marked));
    }
    bounds
}

/// Returns the smallest area that has the squares of a row of a part of a frame that are marked, or that aren't.
fn bounds_of_row(words: &[u64], frame: Frame, part: &Area, row: u32, is_marked: bool) -> Area
    requires size { length words.now ≡ frame.words * frame.rows }
    requires inside { IsRectangleIn (frame_area frame) part.now }
    requires from { part.now.bottom ≤ row }
    requires to { row < part.now.top }
    ensures { IsTightOf (row_squares frame words.now is_marked part.now row) result }
{
    let whole = frame.area();
    let start = (row - whole.bottom) as usize * (64 * frame.words());
    let from = start + (part.left - whole.left) as usize;
    let to = start + (part.right - whole.left) as usize;
    match ends_between(words, !is_marked, from, to) {
        Some((first, end)) => Area {
            left: whole.left + (first - start) as u32,
            bottom: row,
            right: whole.left + (end - start) as u32,
            top: row + 1,
        },
        None => NOWHERE,
    }
}

/// Whether a map of a frame has some square of a rectangle.
pub(crate) fn has_any(words: &[u64], frame: Frame, rect: Rect) -> bool
    requires size { length words.now ≡ frame.words * frame.rows }
    requires round { IsRound frame rect 0 }
    ensures { result ≡ has_some rect (λ x y. has_place words.now (place_of frame x y)) }
{
    let whole = frame.area();
    let part = rect.area();
    for row in part.bottom..part.top {
        let start = (row - whole.bottom) as usize * (64 * frame.words());
        let from = start + (part.left - whole.left) as usize;
        let to = start + (part.right - whole.left) as usize;
        if first_place(words, true, from, to) < to {
            return true;
        }
    }
    false
}
