//! Layouts as they are seen and checked: planes of own paint, and cells of a library placed beside it.
#![tactic(auto)]

mod alike;
mod alike_uses;
mod cut;
mod flattening;
mod front;
mod going_on;
mod grid_pieces;
mod kind_grid;
mod likeness;
mod listing;
mod moves;
mod own_pieces;
mod painting;
mod pieces;
mod rows;
mod shown_kinds;
mod strips;
mod used_tiles;
mod uses;
mod workspace;

pub use alike::{is_alike, shows_alike};
pub use flattening::flatten;
pub use going_on::{Onward, goes_on_to};
pub use kind_grid::{BLOCK_SIDE, KindGrid};
pub use likeness::Likeness;
pub use pieces::push_flat;
pub use shown_kinds::kinds;
pub use strips::{FlatStrips, Unlisted, flat_strips};
pub use uses::{CellUse, MOST_USES, Uses};
pub use workspace::{MARK_ROOM, MOST_PLANES, PIECE_ROOM, TILE_ROOM, Workspace};
