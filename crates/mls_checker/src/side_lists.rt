//! The sides that a check looks at, in a list for each plane and direction.
ghost use Rattle.std.specs.Prelude.{◌≡◌, IfSome, true};
ghost use Rattle.mls_checker.specs.Copies.{AreListsOf, IsListOf, Snapshot as SpecSnapshot};
ghost use Rattle.mls_geom.specs.Directions.{axis};

use crate::Snapshot;
use crate::idle::is_idle;
use crate::sides::{Side, sides_of};
use mls_edgerule::{Direction, EdgeRule};
use mls_kinds::PlaneNumber;
use std::alloc::AllocError;
use std::marker::Model;

/// The sides of a plane in one direction, without the edges inside tiles.
#[derive(Drop)]
pub(crate) struct SideList {
    plane: PlaneNumber,
    direction: Direction,
    sides: Vec<Side>,
}

impl Model for SideList {
    ghost use Rattle.mls_checker.specs.Copies.{SideList};

    ghost Value = { SideList };

    ghost view = { λ l. record { plane = l.plane; direction = l.direction; sides = l.sides.items } };
}

/// Returns the sides of a plane that are kept for the direction, if they are listed.
pub(crate) fn find_sides(
    lists: &[SideList],
    plane: PlaneNumber,
    direction: Direction,
) -> Option<&[Side]>
    ensures { IfSome result (λ sides. (copied : SpecSnapshot) → AreListsOf copied lists.now
        → IsListOf copied (record { plane = plane; direction = axis direction; sides = sides.now })) }
{
    let kept = direction.axis();
    for list in lists {
        if list.plane == plane && list.direction == kept {
            return Some(&list.sides);
        }
    }
    None
}

/// Lists the sides that the rules look at, as far as there is memory. A scan finds those that aren't listed tile by
/// tile.
pub(crate) fn list_sides(rules: &[EdgeRule], snapshot: &Snapshot) -> Vec<SideList>
    ensures { AreListsOf snapshot.now result.items }
{
    let mut lists = Vec::new(snapshot.allocator());
    for rule in rules {
        if !is_idle(rule, snapshot) && add_lists(&mut lists, rule, snapshot).is_err() {
            return lists;
        }
    }
    lists
}

/// Lists the sides that the rule looks at, where they aren't listed yet.
pub(crate) fn add_lists(
    lists: &mut Vec<SideList>,
    rule: &EdgeRule,
    snapshot: &Snapshot,
) -> Result<(), AllocError>
    requires { AreListsOf snapshot.now lists.old.items }
    ensures { AreListsOf snapshot.now lists.new.items }
{
    let plane = rule.trigger_plane;
    for direction in rule.directions.list() {
        if find_sides(lists, plane, *direction).is_none() {
            let direction = direction.axis();
            let sides = sides_of(snapshot.allocator(), snapshot.tiles(plane), direction)?;
            lists.push(SideList {
                plane,
                direction,
                sides,
            })?;
        }
    }
    Ok(())
}
