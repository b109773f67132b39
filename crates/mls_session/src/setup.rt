//! What sessions are opened with.
ghost use Rattle.std.specs.Prelude.{◌≡◌, ◌*◌, ◌+◌};
ghost use Rattle.mls_session.specs.Quotas.{IsQuota, plane_reserve};

use crate::{JournalLimit, Quota};
use mls_edgerule::Rules;
use mls_errorplane::CheckContext;
use mls_layout::{CellUse, Uses};
use mls_library::{CellTiles, Library};
use mls_tech::Tech;

/// How many tiles a plane reserves beyond those that it may have.
const SPARE: u32 = 64;

/// What a session is opened with, and no command of it changes.
pub struct Setup {
    /// The technology, whose planes and types the session has.
    pub tech: Tech,
    /// The technology's compiled rules, by which the session's layout is checked.
    pub rules: Rules,
    /// The cells that can be dumped and placed.
    pub library: Library,
    /// The most tiles that each plane may have.
    pub quota: Quota,
    /// The most tiles that each plane of a cell may have.
    pub cell_tiles: CellTiles,
    /// The most entries that the journal may have.
    pub limit: JournalLimit,
}

// Written out, so that what a setup's end drops is proved here, and not in each crate that lets one go.
impl Drop for Setup {
    fn drop(self) {
        let Setup {
            tech: _tech,
            rules: _rules,
            library: _library,
            quota: _,
            cell_tiles: _,
            limit: _,
        } = self;
    }
}

impl Setup {
    /// Returns how many tiles each plane of a session reserves: 64 more than it may have.
    pub(crate) fn plane_reserve(&self) -> u32
        ensures value { result ≡ plane_reserve self.now.quota }
        ensures legal { IsQuota self.now.quota }
    {
        self.quota.get() + SPARE
    }

    /// Returns how many tiles the planes of a session reserve, its error plane among them.
    pub fn reserve(&self) -> u32
        ensures { result ≡ (self.now.tech.plane_count + 1) * plane_reserve self.now.quota }
    {
        (self.tech.planes() as u32 + 1) * self.plane_reserve()
    }

    /// Returns what a layout with these uses is checked by.
    pub(crate) fn context<'a>(&'a self, uses: &'a [CellUse]) -> CheckContext<'a>
        ensures rules { result.rules.now ≡ self.now.rules }
        ensures library { result.uses.library.now ≡ self.now.library }
        ensures list { result.uses.list.now ≡ uses.now }
    {
        let uses = Uses {
            library: &self.library,
            list: uses,
        };
        CheckContext {
            rules: &self.rules,
            uses,
        }
    }
}
