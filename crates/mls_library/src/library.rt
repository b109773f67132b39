//! Libraries of cells.
ghost use Rattle.std.specs.Prelude.{◌≡◌, ◌≤◌, [], All, OnErr, slice_get, length, map, vec_capacity};
ghost use Rattle.std.specs.Option.{option_map};
ghost use Rattle.mls_tilepool.specs.Pools.{unreserved};
ghost use Rattle.mls_library.specs.Inner.{AreBuilt, IsFrozenList};
ghost use Rattle.mls_library.specs.Libraries as spec;

use crate::bounds::bounds_of;
use crate::cell::Cell;
use crate::cell_name::is_cell_name;
use crate::file::read_cell;
use crate::plane_strips::{count_tiles, find_plane_strips};
use crate::{CellFault, CellFaultKind, CellId, CellTiles};
use indexmap::IndexMap;
use mls_geom::Piece;
use mls_stitch::{Plane, Scratch};
use mls_tech::Tech;
use mls_tilepool::Pool;
use std::alloc::Global;
use std::marker::Model;

/// The most cells that a library may have.
const MOST_CELLS: usize = 64;

/// A cell's name, and the bytes of its file.
#[derive(Clone, Copy)]
pub struct CellFile<'a> {
    pub name: &'a [u8],
    pub bytes: &'a [u8],
}

/// Cells by name, in the order in which they were loaded, whose planes lie in a pool and never change.
pub struct Library {
    cells: IndexMap<Vec<u8>, Cell>,
}

impl Model for Library {
    ghost use Rattle.std.specs.Prelude.{List};
    ghost use Rattle.mls_library.specs.Inner.{cells_in};
    ghost use Rattle.mls_library.specs.Libraries.{NamedCell};

    ghost Value = { List NamedCell };

    ghost view = { λ library. cells_in (λ name. name.items) (λ cell. cell) library.cells.entries };
}

// Written out, so that what a library's end drops is proved here, and not in each crate that lets one go.
impl Drop for Library {
    fn drop(self) {
        let Library { cells: _cells } = self;
    }
}

impl Library {
    /// Creates a library without cells.
    pub fn new(alloc: Global) -> Library
        ensures { result ≡ [] }
    {
        Library {
            cells: IndexMap::new(alloc),
        }
    }

    /// Returns the number of cells.
    pub fn len(&self) -> usize
        ensures { result ≡ length self.now }
    {
        self.cells.len()
    }

    /// Returns the number of the cell with this name.
    pub fn cell_named(&self, name: &[u8]) -> Option<CellId>
        ensures value { result ≡ spec.cell_named self.now name.now }
    {
        let index = self.cells.get_index_of(name)?;
        Some(CellId { index })
    }

    /// Returns the cell of this number.
    pub fn get(&self, id: CellId) -> Option<&Cell>
        ensures planes { option_map (λ cell. cell.now.planes) result
            ≡ option_map (λ cell. cell.planes) (slice_get self.now id) }
        ensures bounds { option_map (λ cell. cell.now.bounds) result
            ≡ option_map (λ cell. cell.bounds) (slice_get self.now id) }
    {
        let (_, cell) = self.cells.get_index(id.index)?;
        Some(cell)
    }

    /// Returns the name of the cell of this number.
    pub fn name(&self, id: CellId) -> Option<&[u8]>
        ensures { option_map (λ name. name.now) result ≡ option_map (λ cell. cell.name) (slice_get self.now id) }
    {
        let (name, _) = self.cells.get_index(id.index)?;
        Some(name.as_slice())
    }

    /// Returns the name of the cell at this place in the order of loading.
    pub fn name_at(&self, place: usize) -> Option<&[u8]>
        ensures { option_map (λ name. name.now) result ≡ slice_get (spec.names_of self.now) place }
    {
        self.name(CellId { index: place })
    }

    /// Loads a cell from a file, with a plane for each plane of the technology, none of which may have more tiles than
    /// the limit. Each reserves just as many tiles of the pool as it has.
    ///
    /// # Errors
    ///
    /// The first fault, in this order: `Form` for the name, `NameTwice`, `LibraryFull`, the first fault of the file,
    /// `TooManyTiles`, `PoolFull`; or `Memory` if memory runs out before it is found. The library and the pool then
    /// stay as they were.
    pub fn load(
        &mut self,
        alloc: Global,
        pool: &mut Pool,
        tech: &Tech,
        file: &CellFile<'_>,
        limit: CellTiles,
    ) -> Result<CellId, CellFault>
        requires home { spec.IsHome pool.old self.old }
        ensures loads { spec.LoadsUnlessMemory tech.now limit pool.old pool.new self.old self.new
            file.now.name.now file.now.bytes.now result }
        ensures home { spec.IsHome pool.new self.new }
        ensures planes { spec.HavePlanes tech.now.plane_count self.old → spec.HavePlanes tech.now.plane_count self.new }
        ensures own_types { spec.ShowOwnTypes tech.now pool.old self.old → spec.ShowOwnTypes tech.now pool.new self.new }
        ensures cells_kept { spec.KeepsCells self.old self.new }
        ensures library_kept { OnErr result (self.new ≡ self.old) }
        ensures pool_kept { OnErr result (pool.new ≡ pool.old) }
    {
        if let Some(kind) = self.name_fault(file.name) {
            return Err(CellFault::of_cell(kind));
        }
        let rects = read_cell(alloc, tech, file.bytes)?;
        let strips = find_plane_strips(alloc, tech.planes() as u8, &rects, limit)?;
        let most = limit.get();
        if (pool.unreserved() as usize) < count_tiles(&strips) {
            return Err(CellFault::of_cell(CellFaultKind::PoolFull));
        }
        let name = Vec::from_slice(alloc, file.name)?;
        let mut planes = Vec::with_capacity(alloc, strips.len())?;
        let mut scratch = Scratch::new(alloc, most)?;
        self.cells.reserve(1)?;
        // Nothing below fails: the tiles and all memory are there.
        let bounds = bounds_of(&strips);
        build_planes(pool, &strips, &mut planes, &mut scratch);
        let cell = Cell::new(planes, bounds);
        let (index, _) = self.cells.insert_full(name, cell).unwrap();
        Ok(CellId { index })
    }

    /// Returns what is wrong with a cell of this name before its file is read, if anything is.
    #[tactic(auto, unfolding(crate::specs::Libraries::name_fault))]
    fn name_fault(&self, name: &[u8]) -> Option<CellFaultKind>
        ensures { result ≡ spec.name_fault (spec.names_of self.now) name.now }
    {
        if !is_cell_name(name) {
            return Some(CellFaultKind::Form);
        }
        if self.cell_named(name).is_some() {
            return Some(CellFaultKind::NameTwice);
        }
        if self.len() >= MOST_CELLS {
            return Some(CellFaultKind::LibraryFull);
        }
        None
    }
}

/// Makes a plane of each list of strips, which reserves just its tiles.
fn build_planes(
    pool: &mut Pool,
    strips: &[Vec<Piece>],
    planes: &mut Vec<Plane>,
    scratch: &mut Scratch,
)
    requires strips { All (λ list. IsFrozenList list.items) strips.now }
    requires tiles { spec.total (map (λ list. length list.items) strips.now) ≤ unreserved pool.old }
    requires none { planes.old.items ≡ [] }
    requires planes_fit { length strips.now ≤ vec_capacity planes.old }
    requires tiles_fit { All (λ list. length list.items ≤ scratch.old.room) strips.now }
    ensures built { AreBuilt pool.old pool.new planes.new.items (map (λ list. list.items) strips.now) }
{
    for strips in strips {
        let owner = pool.reserve(strips.len() as u32).unwrap();
        planes.push_reserved(Plane::build(pool, owner, strips, scratch));
    }
}
