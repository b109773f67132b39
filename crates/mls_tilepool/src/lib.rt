//! One pool for the tiles of all planes, each under the owner that reserved room for it (Ousterhout 1984 has the tile).
#![tactic(auto)]

mod chain;
pub mod laws;
mod owner;
mod pool;
mod tile;
mod tiles;

pub use owner::Owner;
pub use pool::{NoRoom, Pool, PoolFull};
pub use tile::{Tile, TileId};
pub use tiles::Tiles;
