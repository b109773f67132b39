//! What names mean, beside the server.
ghost use Rattle.std.specs.Prelude.{◌≡◌, IfOk, map, position};
ghost use Rattle.mls_wire.specs.mls_server.Servers.{world_of};
ghost use Rattle.mls_wire.specs.mls_server.Settings.{cell_names};
ghost use Rattle.mls_text.specs.Words.{same_word};
ghost use Rattle.mls_seat_lines.specs.SymbolTables.{cell_named, symbols_of};

use mls_kinds::Kind;
use mls_tech::Tech;
use mls_wire::{CellId, Names, Server};
use std::alloc::{AllocError, Global};
use std::marker::Model;

/// What the names of types and cells mean, and what types, rules and cells are called in replies.
#[derive(Drop)]
pub struct SymbolTable {
    tech: Tech,
    /// The names of the cells, by their numbers.
    names: Vec<Vec<u8>>,
    /// The cell of each name.
    cells: Vec<Option<CellId>>,
}

impl Model for SymbolTable {
    ghost use Rattle.std.specs.Prelude.{◌≡◌, map};
    ghost use Rattle.mls_seat_lines.specs.SymbolTables.{SymbolTable, cell_named};

    ghost Value = { SymbolTable };

    ghost view = { λ g. record { tech = g.tech; cells = map (λ name. name.items) g.names.items } };

    ghost invariant = { λ g. map (λ name. cell_named (map (λ name. name.items) g.names.items) name.items) g.names.items
        ≡ g.cells.items };
}

impl SymbolTable {
    /// Returns the symbols of a server's technology and of its cells.
    pub fn new(alloc: Global, server: &Server, tech: Tech) -> Result<SymbolTable, AllocError>
        requires { tech ≡ (world_of server.now).setting.tech }
        ensures { IfOk result (λ symbols. symbols ≡ symbols_of (world_of server.now).setting) }
    {
        let names = server.cell_names(alloc)?;
        let cells = cells_of(alloc, server, &names)?;
        Ok(SymbolTable { tech, names, cells })
    }

    /// Returns the first cell of this name.
    fn cell_named(&self, name: &[u8]) -> Option<CellId>
        ensures { result ≡ cell_named self.now.cells name.now }
    {
        let place = place_of(&self.names, name)?;
        *self.cells.get(place)?
    }
}

/// Returns the place of the first of these names that is this one.
fn place_of(names: &[Vec<u8>], name: &[u8]) -> Option<usize>
    ensures { result ≡ position (λ other. same_word name.now other.items) names.now }
{
    names.iter().position(|other| name == other.as_slice())
}

/// Returns the cell of each name.
fn cells_of(
    alloc: Global,
    server: &Server,
    names: &[Vec<u8>],
) -> Result<Vec<Option<CellId>>, AllocError>
    ensures { IfOk result (λ cells. map (λ name. cell_named
        (cell_names (world_of server.now).setting) name.items) names.now ≡ cells.items) }
{
    let mut cells = Vec::new(alloc);
    for name in names {
        cells.push(server.cell(name))?;
    }
    Ok(cells)
}

impl Names for SymbolTable {
    ghost use Rattle.mls_seat_lines.specs.SymbolTables.{book_in};

    ghost book = { λ symbols. book_in symbols };

    fn type_of(&self, word: &[u8]) -> Option<Kind> {
        self.tech.type_of(word)
    }

    fn cell_of(&self, word: &[u8]) -> Option<CellId> {
        match word {
            // What is written for a cell without a name.
            b"," => None,
            _ => self.cell_named(word),
        }
    }

    fn cell_name(&self, cell: CellId) -> Option<&[u8]> {
        let name = self.names.get(cell.number())?;
        Some(name.as_slice())
    }

    fn type_name(&self, kind: Kind) -> Option<&[u8]> {
        self.tech.type_name(kind)
    }

    fn short_type_name(&self, kind: Kind) -> Option<&[u8]> {
        self.tech.short_type_name(kind)
    }

    fn why_text(&self, n: usize) -> Option<&[u8]> {
        self.tech.why(n)
    }
}
