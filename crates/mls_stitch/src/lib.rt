//! Corner stitching: planes of tiles in a pool, joined by four stitches each (Ousterhout 1984).
#![tactic(auto)]

mod area;
mod around;
mod bounds;
mod build;
mod enumeration;
mod find;
mod hints;
mod laid_tile;
mod lookup;
mod parts;
mod place;
mod plane;
mod replace;
mod replacement;
mod scan;
mod scratch;
mod split;
mod steps;
mod stitch;
mod stitching;
mod touching;
mod walk;

pub use laid_tile::LaidTile;
pub use plane::Plane;
pub use replacement::Replacement;
pub use scratch::Scratch;
pub use stitch::Stitch;
