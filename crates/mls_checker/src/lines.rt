//! The lines of a zone at which tiles begin and end, by their places in an order. No contract relies on them.
use crate::tiles::{SPACE_TILES, Tile};
use mls_geom::Area;
use std::alloc::{AllocError, Global};

/// Of at most this many lines each has a place of its own.
const MOST_PLACES: u32 = 1024;

/// The direction in which lines follow one another.
#[derive(Clone, Copy)]
pub(crate) enum Start {
    Left,
    Bottom,
}

impl Start {
    /// Returns the line at which the area begins in this direction.
    fn first(self, area: &Area) -> u32 {
        match self {
            Start::Left => area.left,
            Start::Bottom => area.bottom,
        }
    }

    /// Returns the line at which the area ends.
    fn last(self, area: &Area) -> u32 {
        match self {
            Start::Left => area.right,
            Start::Bottom => area.top,
        }
    }
}

/// The lines of a zone in a direction. Each has a place; in a zone with many lines only those at which tiles begin or
/// end have one, and other lines share that of the last one before them. The place 0 is before the zone.
#[derive(Drop)]
pub(crate) struct Lines {
    start: Start,
    first: u32,
    last: u32,
    /// In a zone with many lines those that have places, in order and each once.
    kept: Vec<u32>,
}

impl Lines {
    /// Returns the lines of a zone in the direction. Its tiles come after those of space.
    pub fn of(
        alloc: Global,
        tiles: &[Tile],
        zone: &Area,
        start: Start,
    ) -> Result<Lines, AllocError> {
        let mut lines = Lines {
            start,
            first: start.first(zone),
            last: start.last(zone),
            kept: Vec::new(alloc),
        };
        if lines.last.saturating_sub(lines.first) > MOST_PLACES {
            lines.keep_ends(alloc, tiles)?;
        }
        Ok(lines)
    }

    /// Keeps the lines at which the zone and its tiles begin and end.
    fn keep_ends(&mut self, alloc: Global, tiles: &[Tile]) -> Result<(), AllocError> {
        self.kept.push(self.first)?;
        self.kept.push(self.last)?;
        for index in SPACE_TILES..tiles.len() {
            let tile = &tiles[index];
            self.kept.push(self.start.first(&tile.area))?;
            self.kept.push(self.start.last(&tile.area))?;
        }
        self.kept.sort_unstable();
        self.kept.dedup();
        Ok(())
    }

    /// Returns how many places there are, the one before the zone and the one behind it among them.
    pub fn places(&self) -> usize {
        if self.kept.is_empty() {
            return self.last.saturating_sub(self.first) as usize + 2;
        }
        self.kept.len() + 1
    }

    /// Returns the place of a line.
    pub fn place(&self, line: u32) -> usize {
        if self.kept.is_empty() {
            return (line as usize + 1).saturating_sub(self.first as usize);
        }
        self.kept.partition_point(|kept| *kept <= line)
    }

    /// Returns the place of the line at which the tile of this index begins.
    pub fn place_of(&self, tiles: &[Tile], index: u32) -> usize {
        let tile = tiles.get(index as usize);
        tile.map_or(0, |tile| self.place(self.start.first(&tile.area)))
    }
}
