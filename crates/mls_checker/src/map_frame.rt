//! Squares as places of a map, row after row.
ghost use Rattle.std.specs.Prelude.{◌≡◌, ◌+◌, ◌-◌, ◌*◌, ◌<◌, ◌≤◌, ◌==◌, ◌||◌, ◌&&◌, ℕ, true, length, IfSome};
ghost use Rattle.mls_checker.specs.Grids.{has_column, is_between};
ghost use Rattle.mls_checker.specs.Maps.{IsFrame, IsRound, frame_area, has_place, leads_on, place_of, places_of};
ghost use Rattle.mls_geom.specs.Rects.{holds};
ghost use Rattle.mls_kinds.specs.KindSets.{has_bit};

use crate::map_steps::Step;
use crate::words::{COLUMNS, mask};
use mls_geom::{Area, Direction, Rect};
use std::marker::Model;

/// The greatest side of a piece that has a frame.
const GREATEST: u32 = 256;

/// The squares of a map. A row of them has whole words.
#[derive(Clone, Copy)]
pub(crate) struct Frame {
    left: u32,
    bottom: u32,
    words: u32,
    rows: u32,
}

impl Model for Frame {
    ghost use Rattle.mls_checker.specs.Maps.{Frame, IsFrame};

    ghost Value = { Frame };

    ghost view = { λ f. record { left = f.left; bottom = f.bottom; words = f.words; rows = f.rows } };

    ghost invariant = { λ f. IsFrame (record { left = f.left; bottom = f.bottom; words = f.words; rows = f.rows }) };

    ghost inverse = { λ f. record { left = f.left; bottom = f.bottom; words = f.words; rows = f.rows } };
}

impl Frame {
    /// Returns a frame of the piece with so many squares more on each side, unless the piece is large.
    pub fn around(piece: Rect, margin: u32) -> Option<Frame>
        requires { margin ≤ 256 }
        ensures { IfSome result (λ frame. IsRound frame piece margin) }
    {
        let lines = piece.area();
        let width = lines.right - lines.left;
        let height = lines.top - lines.bottom;
        if width > GREATEST || height > GREATEST {
            return None;
        }
        Some(Frame {
            left: lines.left - margin,
            bottom: lines.bottom - margin,
            words: (width + 2 * margin + COLUMNS - 1) / COLUMNS,
            rows: height + 2 * margin,
        })
    }

    /// Returns a frame of a rectangle alone.
    pub fn of(rect: Rect) -> Frame
        ensures round { IsRound result rect 0 }
        ensures left { result.left ≡ rect.left }
    {
        let lines = rect.area();
        Frame {
            left: lines.left,
            bottom: lines.bottom,
            words: (lines.right - lines.left + COLUMNS - 1) / COLUMNS,
            rows: lines.top - lines.bottom,
        }
    }

    /// Returns the squares.
    pub fn area(self) -> Area
        ensures value { result ≡ frame_area self }
        ensures frame { IsFrame self }
    {
        Area {
            left: self.left,
            bottom: self.bottom,
            right: self.left + COLUMNS * self.words,
            top: self.bottom + self.rows,
        }
    }

    /// Returns how many words a row has.
    pub fn words(self) -> usize
        ensures { result ≡ self.words }
    {
        self.words as usize
    }

    /// Returns how many words all rows have.
    pub fn size(self) -> usize
        ensures { result ≡ self.words * self.rows }
    {
        self.words as usize * self.rows as usize
    }

    /// Returns the step from a square's place to that of the next one in a direction.
    pub fn step(self, direction: Direction) -> Step
        ensures frame { IsFrame self }
        ensures on { result.is_on ≡ leads_on direction }
        ensures places { result.places ≡ places_of self direction }
        ensures short { result.places ≤ 16777216 }
    {
        let row = (COLUMNS * self.words) as usize;
        let (is_on, places) = match direction {
            Direction::Right => (true, 1),
            Direction::Up => (true, row),
            Direction::Left => (false, 1),
            Direction::Down => (false, row),
        };
        Step { is_on, places }
    }
}

/// Adds the columns of a word to one word of each row from one line up to another, in a map whose rows have so many
/// words.
fn fill_column(map: &mut [u64], words: usize, word: usize, from: usize, to: usize, columns: u64)
    requires word { word < words }
    requires ordered { from ≤ to }
    requires within { words * to ≤ length map.old }
    ensures { (row other column : ℕ) → other < words → has_column map.new (words * row + other) column
        ≡ (has_column map.old (words * row + other) column
        || (is_between from to row && (other == word && has_bit columns column))) }
{
    for row in from..to {
        map[words * row + word] |= columns;
    }
}

/// Adds the squares of an area, as far as they lie in the frame.
pub(crate) fn fill_area(map: &mut [u64], frame: Frame, area: &Area)
    requires { length map.old ≡ frame.words * frame.rows }
    ensures { (x y : ℕ) → holds (frame_area frame) x y ≡ true → has_place map.new (place_of frame x y)
        ≡ (has_place map.old (place_of frame x y) || holds area.now x y) }
{
    let whole = frame.area();
    let part = area.common(whole);
    if !part.has_squares() {
        return;
    }
    let left = part.left - whole.left;
    let right = part.right - whole.left;
    let bottom = (part.bottom - whole.bottom) as usize;
    let top = (part.top - whole.bottom) as usize;
    for word in left / COLUMNS..(right - 1) / COLUMNS + 1 {
        let first = left.saturating_sub(word * COLUMNS);
        let last = (right - word * COLUMNS).min(COLUMNS);
        fill_column(
            map,
            frame.words(),
            word as usize,
            bottom,
            top,
            mask(first, last),
        );
    }
}
