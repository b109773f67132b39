//! Painting on planes of stitched tiles, which are their maximal horizontal strips whenever no call is under way
//! (Ousterhout 1984).
#![tactic(auto)]

mod changes;
mod covered;
mod paint;
mod pairs;
mod planes;
mod planning;
mod plans;
mod scratch;

pub use covered::push_covered;
pub use paint::{Painted, TooManyTiles, fits, overlay, overlay_within};
pub use planes::{
    find_area, find_meeting, kinds, release_plane, space_plane, strips_of, tile_count,
};
pub use planning::{commit, plan};
pub use plans::MOST_PLANS;
pub use scratch::Scratch;
