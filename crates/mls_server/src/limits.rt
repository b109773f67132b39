//! What a server's pool, sessions and cells may have.
use mls_bounded::Bounded;
use mls_session::{CellTiles, JournalLimit, Quota};

/// How many tiles the pool of a server has, from 1 to 8388608, 262144 by default.
pub type Capacity = Bounded<1, 8_388_608, 262_144>;

/// The limits of a server.
#[derive(Clone, Copy, Debug, Default, PartialEq, Eq)]
pub struct Limits {
    /// The most tiles that each plane of a session may have.
    pub quota: Quota,
    /// The most entries that the journal of a session may have.
    pub journal: JournalLimit,
    /// The most tiles that each plane of a cell may have.
    pub cell_tiles: CellTiles,
}
