//! A library by itself.
ghost use Rattle.std.specs.Prelude.{IfOk};
ghost use Rattle.mls_library.specs.Libraries.{IsHome};
ghost use Rattle.mls_tilepool.specs.Pools.{Pool};

use crate::calls::print_loaded;
use crate::scene::Scene;
use crate::servers::{CELL, CELL_NAME};
use anyhow::Result;
use mls_library::{CellFault, CellFile, CellId, CellTiles, Library};
use mls_tech::{TECHNOLOGY_M, Tech};
use mls_tilepool::Pool;
use std::alloc::Global;
use std::marker::Model;

/// How many tiles the pool has: those of two cells, and one more.
const TILES: u32 = 21;

/// Creates a library with a cell.
fn stocked(alloc: Global, tech: &Tech, pool: &mut Pool) -> Result<Library>
    ensures { IfOk result (λ library. IsHome pool.new library) }
{
    let mut library = Library::new(alloc);
    let file = CellFile {
        name: CELL_NAME,
        bytes: CELL,
    };
    library.load(alloc, pool, tech, &file, CellTiles::default())?;
    Ok(library)
}

/// A library with a cell, and its pool.
#[derive(Drop)]
pub struct LibraryScene {
    tech: Tech,
    pool: Pool,
    library: Library,
}

impl Model for LibraryScene {
    ghost Value = { Pool };

    ghost view = { λ s. s.pool };

    ghost invariant = { λ s. IsHome s.pool s.library };
}

impl LibraryScene {
    pub fn new(alloc: Global) -> Result<LibraryScene> {
        let tech = Tech::read(alloc, TECHNOLOGY_M)?;
        let mut pool = Pool::new(alloc, TILES)?;
        let library = stocked(alloc, &tech, &mut pool)?;
        Ok(LibraryScene {
            tech,
            pool,
            library,
        })
    }
}

impl<R: Print> Scene<R> for LibraryScene {
    type Answer = Result<CellId, CellFault>;

    fn call(&mut self, _rt: &R, alloc: Global, _turn: u8) -> Result<CellId, CellFault> {
        let LibraryScene {
            tech,
            pool,
            library,
        } = self;
        let file = CellFile {
            name: b"d",
            bytes: CELL,
        };
        library.load(alloc, pool, tech, &file, CellTiles::default())
    }

    fn print(&mut self, rt: &R, _alloc: Global, answer: Result<CellId, CellFault>) -> Result<()> {
        print_loaded(rt, Some(answer))
    }

    fn show(&mut self, rt: &R, _alloc: Global) -> Result<()> {
        print_cells(rt, &self.library, &self.pool)
    }
}

/// Prints how many cells a library has and how many tiles of a pool are unreserved, and the cells.
fn print_cells<R: Print>(rt: &R, library: &Library, pool: &Pool) -> Result<()> {
    let cells = library.len();
    let unreserved = pool.unreserved();
    println!(rt; "cells {cells} unreserved {unreserved}")?;
    for (letter, name) in [('c', b"c"), ('d', b"d")] {
        if let Some(id) = library.cell_named(name) {
            println!(rt; "{letter} {id:?}")?;
        }
    }
    Ok(())
}
