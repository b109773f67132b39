//! The squares of a rectangle that rules forbid, rule by rule.
ghost use Rattle.std.specs.Prelude.{◌≡◌, ◌≤◌, ◌+◌, ◌<◌, ℕ, [], length, max, true, false, IfOk, IfSome, IfNone, IsTrue};
ghost use Rattle.mls_checker.specs.Copies.{AreListsOf, copied_layout};
ghost use Rattle.mls_checker.specs.Halos.{zone_of};
ghost use Rattle.mls_checker.specs.Marking.{squares_of};
ghost use Rattle.mls_checker.specs.Violations.{GainSomeViolations, GainViolations, IsLarge, areas_at, forbidden_by};
ghost use Rattle.mls_kinds.specs.KindSets.{has_bit};

use crate::Snapshot;
use crate::area_list::AreaList;
use crate::mark_sink::MarkSink;
use crate::part_list::PartList;
use crate::side_lists::{SideList, add_lists};
use crate::side_scan::scan_rule;
use mls_edgerule::{EdgeRule, RuleSet, Rules};
use mls_geom::{Area, Rect};
use std::alloc::{AllocError, Global};
use std::marker::Model;

/// In a rectangle at most this wide and this high squares are marked in a grid, where a list of areas would be too long.
const GRID_SIDE: u32 = 1024;

/// For each of some rules, in order, areas of squares that the rule forbids. They may overlap.
#[derive(Drop)]
pub struct Violations {
    lists: Vec<AreaList>,
}

impl Model for Violations {
    ghost use Rattle.std.specs.Prelude.{List};
    ghost use Rattle.mls_geom.specs.Rects.{Rect};

    ghost Value = { List (List Rect) };

    ghost view = { λ violations. violations.lists.items };
}

impl Violations {
    /// Creates a list without areas for each rule.
    pub fn new(alloc: Global, rules: &Rules) -> Result<Violations, AllocError>
        ensures as_many { IfOk result (λ violations. length violations ≡ length rules.now) }
        ensures none { IfOk result (λ violations. (k : ℕ) → areas_at violations k ≡ []) }
    {
        let mut lists = Vec::new(alloc);
        for _ in 0..rules.as_slice().len() {
            lists.push(AreaList::new(alloc))?;
        }
        Ok(Violations { lists })
    }

    /// Returns the areas of the rule of this index, counted from 0, and none where there is no such rule.
    pub fn areas(&self, index: usize) -> &[Area]
        ensures { result.now ≡ areas_at self.now index }
    {
        match self.lists.get(index) {
            Some(list) => list.as_slice(),
            None => &[],
        }
    }

    /// Adds, for each of those rules that are in the set, areas of the squares of the rectangle that the rule forbids.
    /// Returns whether it did: where there are too many areas in a large rectangle, some may have been added.
    ///
    /// The snapshot must be of the rectangle's zone: the rectangle grown by the rules' halo, inside the world.
    pub fn find(
        &mut self,
        alloc: Global,
        rules: &Rules,
        of: RuleSet,
        snapshot: &Snapshot,
        rect: Rect,
    ) -> Result<bool, AllocError>
        requires zone { snapshot.now.zone ≡ zone_of rules.now rect }
        requires as_many { length self.old ≡ length rules.now }
        ensures found { IfOk result (λ done. done ≡ true
            → GainViolations rules.now of rect (copied_layout snapshot.now) self.old self.new) }
        ensures some { IfOk result (λ done. done ≡ false
            → GainSomeViolations rules.now of rect (copied_layout snapshot.now) self.old self.new) }
        ensures large { IfOk result (λ done. done ≡ false → IsLarge rect) }
    {
        add_areas(alloc, &mut self.lists, rules, of, snapshot, rect)
    }
}

/// Adds to the lists of those rules that are in the set areas of the squares of the rectangle that the rule forbids.
/// Returns whether it did: where there are too many areas in a large rectangle, some may have been added.
fn add_areas(
    alloc: Global,
    lists: &mut [AreaList],
    rules: &Rules,
    of: RuleSet,
    snapshot: &Snapshot,
    rect: Rect,
) -> Result<bool, AllocError>
    requires zone { snapshot.now.zone ≡ zone_of rules.now rect }
    requires as_many { length lists.old ≡ length rules.now }
    ensures found { IfOk result (λ done. done ≡ true
        → GainViolations rules.now of rect (copied_layout snapshot.now) lists.old lists.new) }
    ensures some { IfOk result (λ done. done ≡ false
        → GainSomeViolations rules.now of rect (copied_layout snapshot.now) lists.old lists.new) }
    ensures large { IfOk result (λ done. done ≡ false → IsLarge rect) }
{
    let halo = rules.halo();
    let mut sides = Vec::new(alloc);
    for (index, rule) in rules.as_slice().iter().enumerate() {
        if is_in(of, index) {
            add_lists(&mut sides, rule, snapshot)?;
            let found = forbidden_areas(alloc, rule, snapshot, &sides, rect, halo)?;
            let Some(areas) = found else {
                return Ok(false);
            };
            lists[index].extend(&areas)?;
        }
    }
    Ok(true)
}

/// Whether the rule of this index, counted from 0, is in the set.
fn is_in(set: RuleSet, index: usize) -> bool
    requires { index < 128 }
    ensures { result ≡ has_bit set index }
{
    (set.bits() >> index) & 1 == 1
}

/// Returns areas of the squares of the rectangle that the rule forbids, whose edges reach less than `halo` squares;
/// none where there are too many areas in a large rectangle.
fn forbidden_areas(
    alloc: Global,
    rule: &EdgeRule,
    snapshot: &Snapshot,
    sides: &[SideList],
    rect: Rect,
    halo: u32,
) -> Result<Option<Vec<Area>>, AllocError>
    requires sides { AreListsOf snapshot.now sides.now }
    requires reach { 1 + max rule.now.distance rule.now.corner_distance ≤ halo }
    requires bounded { halo ≤ 256 }
    ensures found { IfOk result (λ found. IfSome found (λ areas. (x y : ℕ) → squares_of areas.items x y
        ≡ forbidden_by rule.now rect (copied_layout snapshot.now) x y)) }
    ensures large { IfOk result (λ found. IfNone found (IsLarge rect)) }
{
    let area = Area::around(rect, halo);
    let mut parts = PartList::new(alloc, rect);
    scan_rule(&mut parts, rule, snapshot, sides, area);
    if !parts.is_short {
        return Ok(Some(parts.areas));
    }
    if !parts.is_full() {
        return Err(AllocError);
    }
    if is_large(rect) {
        return Ok(None);
    }
    let mut grid = MarkSink::new(alloc, rect)?;
    scan_rule(&mut grid, rule, snapshot, sides, area);
    let marks = grid.into_marks(alloc, snapshot)?;
    Ok(Some(marks.areas))
}

/// Whether the rectangle is more than [`GRID_SIDE`] squares wide or high.
fn is_large(rect: Rect) -> bool
    ensures { IsTrue result → IsLarge rect }
{
    let lines = rect.area();
    lines.right - lines.left > GRID_SIDE || lines.top - lines.bottom > GRID_SIDE
}
