//! The cells that are loaded before the script.
ghost use Rattle.std.specs.Prelude.{◌≡◌, [], IfErr, OnOk, map};
ghost use Rattle.mls_lines.specs.mls_server.Servers.{world_of};
ghost use Rattle.mls_magicd.specs.Cells.{LoadsCells, LoadsUnlessFault, StopsAtCell};
ghost use Rattle.mls_magicd.specs.CommandLines.{file_of};

use crate::cell_argument::CellArgument;
use crate::{FileFault, Files};
use mls_lines::{CellFault, Server};
use std::alloc::Global;
use thiserror::Error;

/// Why a cell isn't loaded.
#[derive(Clone, Copy, Debug, Error)]
pub enum LoadFault<'a> {
    /// The file at the path can't be read.
    #[error("cannot read {0}")]
    Unreadable(&'a str),
    /// The cell of this name has a fault.
    #[error("cell {name} {fault}")]
    Faulty { name: &'a str, fault: CellFault },
    #[error("memory")]
    Memory,
}

/// Loads the cells that the arguments name, in order, up to the first that isn't loaded. No session may be open.
pub fn load_cells<'a, F: Files>(
    alloc: Global,
    files: &F,
    server: &mut Server,
    cells: &[CellArgument<'a>],
) -> Result<(), LoadFault<'a>>
    requires idle { (world_of server.old).seats ≡ [] }
    ensures loads { OnOk result (LoadsCells (F.reads_as files.now) (world_of server.old) (map file_of cells.now)
        (world_of server.new)) }
    ensures stops { IfErr result (StopsAtCell (F.reads_as files.now) (F.may_fail files.now) (world_of server.old)
        (map file_of cells.now)) }
    ensures idle { (world_of server.new).seats ≡ [] }
{
    for cell in cells {
        load_cell(alloc, files, server, *cell)?;
    }
    Ok(())
}

/// Loads the cell that an argument names.
fn load_cell<'a, F: Files>(
    alloc: Global,
    files: &F,
    server: &mut Server,
    cell: CellArgument<'a>,
) -> Result<(), LoadFault<'a>>
    requires idle { (world_of server.old).seats ≡ [] }
    ensures loads { LoadsUnlessFault (F.reads_as files.now) (F.may_fail files.now) (world_of server.old)
        (file_of cell.entry) result (world_of server.new) }
    ensures idle { (world_of server.new).seats ≡ [] }
{
    let CellArgument { name, path } = cell;
    let bytes = match files.read(alloc, path) {
        Ok(bytes) => bytes,
        Err(FileFault::Unreadable) => return Err(LoadFault::Unreadable(path)),
        Err(FileFault::Memory) => return Err(LoadFault::Memory),
    };
    server
        .load(alloc, name.as_bytes(), &bytes)
        .map_err(|fault| LoadFault::Faulty { name, fault })?;
    Ok(())
}
