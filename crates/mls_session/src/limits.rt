//! What a session may have.
use mls_bounded::Bounded;

/// The most tiles that each plane of a session may have, from 5 to 16384, 1024 by default.
///
/// The least are those of a plane with one rectangle in the middle of the world.
pub type Quota = Bounded<5, 16_384, 1024>;

/// The most entries that the journal of a session may have, from 1 to 65536, 4096 by default.
pub type JournalLimit = Bounded<1, 65_536, 4096>;
