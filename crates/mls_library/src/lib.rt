//! Library cells: cell files (the `.mag` form of Magic, for flat cells), read into planes of a pool that never change.
#![tactic(auto)]

mod bounds;
mod cell;
mod cell_id;
mod cell_name;
mod cell_rect;
mod cell_tiles;
mod fault;
mod file;
mod integer;
mod library;
mod lines;
mod marked;
mod meaning;
mod place;
mod plane_strips;
mod saved;

pub use cell::Cell;
pub use cell_id::CellId;
pub use cell_tiles::CellTiles;
pub use fault::{CellFault, CellFaultKind};
pub use library::{CellFile, Library};
pub use marked::{
    dirty_line_count, error_line_count, mark_line_count, most_flat_tiles, push_dirty, push_errors,
    push_marks,
};
pub use saved::{layer_line_count, push_end, push_header, push_layer};
