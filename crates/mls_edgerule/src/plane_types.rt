//! The types of each plane, and the planes on which sets of types lie.
ghost use Rattle.std.specs.Prelude.{◌≡◌, ◌&&◌};
ghost use Rattle.mls_edgerule.specs.PlaneTypes as spec;

use mls_kinds::{Kind, KindSet, PlaneNumber};
use mls_tech::Tech;

fn plane_count(tech: &Tech) -> u8
    ensures { result ≡ tech.now.plane_count }
{
    tech.planes() as u8
}

/// The types of the plane, space among them.
#[tactic(auto, unfolding(crate::specs::PlaneTypes::types_on))]
pub(crate) fn types_on(tech: &Tech, plane: PlaneNumber) -> KindSet
    ensures { result ≡ spec.types_on tech.now plane }
{
    tech.plane_types(plane)
}

/// Whether the set isn't empty, is without space, and has only types of the plane.
pub(crate) fn is_on_plane(tech: &Tech, set: KindSet, plane: PlaneNumber) -> bool
    ensures { result ≡ spec.is_on_plane tech.now set plane }
{
    !set.is_empty()
        && !set.contains(Kind::SPACE)
        && set.difference(types_on(tech, plane)).is_empty()
}

/// The plane that has all types of the set, if the set isn't empty and is without space.
#[tactic(auto, unfolding(crate::specs::PlaneTypes::plane_of_set))]
pub(crate) fn plane_of_set(tech: &Tech, set: KindSet) -> Option<PlaneNumber>
    ensures { result ≡ spec.plane_of_set tech.now set }
{
    (0..plane_count(tech))
        .map(PlaneNumber::new)
        .find(|plane| is_on_plane(tech, set, *plane))
}

/// Whether the plane can have an edge between the sets: each has a type of it.
fn has_edges(tech: &Tech, set: KindSet, other: KindSet, plane: PlaneNumber) -> bool
    ensures { result ≡ spec.has_edges tech.now set other plane }
{
    let all = types_on(tech, plane);
    !set.intersection(all).is_empty() && !other.intersection(all).is_empty()
}

/// The only plane that can have an edge between the sets, or `None` if there is none or several.
#[tactic(auto, unfolding(crate::specs::PlaneTypes::trigger_plane))]
pub(crate) fn trigger_plane(tech: &Tech, set: KindSet, other: KindSet) -> Option<PlaneNumber>
    ensures { result ≡ spec.trigger_plane tech.now set other }
{
    let mut found = None;
    for number in 0..plane_count(tech) {
        let plane = PlaneNumber::new(number);
        if has_edges(tech, set, other, plane) {
            if found.is_some() {
                return None;
            }
            found = Some(plane);
        }
    }
    found
}
