//! How many tiles a plane of a cell may have.
use mls_bounded::Bounded;

/// The most tiles that each plane of a cell may have, from 4096 to 16384, 4096 by default.
pub type CellTiles = Bounded<4096, 16_384, 4096>;
