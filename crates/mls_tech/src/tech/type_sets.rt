//! The types of a technology, as sets.
ghost use Rattle.std.specs.Prelude.{◌≡◌, ◌+◌, ◌≤◌, length, nat_le};
ghost use Rattle.mls_tech.specs.Readings.{lies_on_plane};
ghost use Rattle.mls_kinds.specs.KindSets.{set_of};

use super::Tech;
use mls_kinds::{Kind, KindSet, PlaneNumber};

impl Tech {
    /// Returns all types, `space` among them.
    pub(crate) fn all_types(&self) -> KindSet
        ensures { result ≡ set_of (λ kind. nat_le kind (length self.now.type_planes)) }
    {
        let mut set = KindSet::empty();
        for number in 0..self.kinds() {
            set = set.union(KindSet::single(Kind::new(number)));
        }
        set
    }

    /// Returns the types that lie on a plane, `space` among them.
    pub fn plane_types(&self, plane: PlaneNumber) -> KindSet
        ensures { result ≡ set_of (lies_on_plane self.now.type_planes plane) }
    {
        let mut set = KindSet::empty();
        for number in 0..self.kinds() {
            let kind = Kind::new(number);
            if self.lies_on(plane, kind) {
                set = set.union(KindSet::single(kind));
            }
        }
        set
    }

    /// Returns the number of types, `space` among them.
    pub(super) fn kinds(&self) -> u8
        ensures value { result ≡ length self.now.type_planes + 1 }
        ensures small { result ≤ 64 }
    {
        self.type_planes.len() as u8 + 1
    }

    /// Returns whether the type lies on the plane; `space` lies on each.
    fn lies_on(&self, plane: PlaneNumber, kind: Kind) -> bool
        ensures { result ≡ lies_on_plane self.now.type_planes plane kind }
    {
        kind == Kind::SPACE || self.plane_of(kind).is_some_and(|on| on == plane)
    }
}
