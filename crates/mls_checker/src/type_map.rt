//! Maps of the squares that have a type of some set.
ghost use Rattle.std.specs.Prelude.{◌≡◌, ◌*◌, ◌<◌, ◌==◌, ◌||◌, ℕ, true, false, not, length, IfOk, IfSome};
ghost use Rattle.mls_checker.specs.Copies.{copied_layout};
ghost use Rattle.mls_checker.specs.Maps.{AreTypeMaps, Frame as SpecFrame, IsTypeMap, ShowTypes, Shows, frame_area, has_place, of_types, place_of};
ghost use Rattle.mls_geom.specs.Layouts.{Layout};
ghost use Rattle.mls_geom.specs.Rects.{holds};
ghost use Rattle.mls_kinds.specs.KindSets.{has_bit as has_type};

use crate::Snapshot;
use crate::idle::is_idle;
use crate::map_frame::{Frame, fill_area};
use crate::map_words::{empty, invert};
use crate::words::join;
use mls_edgerule::EdgeRule;
use mls_kinds::{Kind, KindSet, PlaneNumber};
use std::alloc::{AllocError, Global};
use std::marker::Model;

/// How many maps are kept at most.
const MOST_MAPS: usize = 96;

/// How many kinds types have.
const KINDS: u8 = 64;

/// Adds the frame's squares of tiles of some types.
fn add_tiles(map: &mut [u64], frame: Frame, snapshot: &Snapshot, plane: PlaneNumber, types: KindSet)
    requires { length map.old ≡ frame.words * frame.rows }
    ensures { (x y : ℕ) → holds (frame_area frame) x y ≡ true → has_place map.new (place_of frame x y)
        ≡ (has_place map.old (place_of frame x y) || has_type types (copied_layout snapshot.now plane x y)) }
{
    let tiles = snapshot.tiles(plane);
    for tile in tiles.as_slice() {
        if tile.is_of(types) {
            fill_area(map, frame, &tile.area);
        }
    }
}

/// Returns the types of the set that a plane shows, as far as it is known which.
fn shown_of(snapshot: &Snapshot, plane: PlaneNumber, types: KindSet) -> KindSet
    ensures { (x y : ℕ) → has_type result (copied_layout snapshot.now plane x y)
        ≡ has_type types (copied_layout snapshot.now plane x y) }
{
    match snapshot.kinds(plane) {
        Some(kinds) => types.intersection(kinds),
        None => types,
    }
}

/// Returns the kinds that a plane shows and the set hasn't, if it is known which, and they are fewer than the others.
fn others_of(snapshot: &Snapshot, plane: PlaneNumber, types: KindSet) -> Option<KindSet>
    ensures { IfSome result (λ others. (x y : ℕ) → has_type types (copied_layout snapshot.now plane x y)
        ≡ not (has_type others (copied_layout snapshot.now plane x y))) }
{
    let kinds = snapshot.kinds(plane)?;
    let others = kinds.difference(types);
    if others.len() < kinds.len() / 2 {
        return Some(others);
    }
    None
}

/// A map that several rules use.
#[derive(Drop)]
pub(crate) struct TypeMap {
    plane: PlaneNumber,
    types: KindSet,
    map: Vec<u64>,
}

impl Model for TypeMap {
    ghost use Rattle.mls_checker.specs.Maps.{TypeMap};

    ghost Value = { TypeMap };

    ghost view = { λ m. record { plane = m.plane; types = m.types; map = m.map.items } };
}

/// Returns the map of a set of types of a plane, if it is kept.
fn find_map(kept: &[TypeMap], plane: PlaneNumber, types: KindSet) -> Option<&[u64]>
    ensures { IfSome result (λ map. (frame : SpecFrame) (layout : Layout) → AreTypeMaps frame layout kept.now
        → IsTypeMap frame layout (record { plane = plane; types = types; map = map.now })) }
{
    for one in kept {
        if one.plane == plane && one.types == types {
            return Some(&one.map);
        }
    }
    None
}

/// What a snapshot shows in a frame, and maps of it that are kept.
#[derive(Clone, Copy)]
pub(crate) struct Shown<'a> {
    pub frame: Frame,
    pub snapshot: &'a Snapshot,
    pub kept: &'a [TypeMap],
}

impl Shown<'_> {
    /// Adds the squares of a kind of a plane.
    fn add_kind(&self, map: &mut [u64], plane: PlaneNumber, kind: Kind)
        requires below { kind < 64 }
        requires size { length map.old ≡ self.now.frame.words * self.now.frame.rows }
        requires kept { AreTypeMaps self.now.frame (copied_layout self.now.snapshot.now) self.now.kept.now }
        ensures { (x y : ℕ) → holds (frame_area self.now.frame) x y ≡ true
            → has_place map.new (place_of self.now.frame x y) ≡ (has_place map.old (place_of self.now.frame x y)
            || copied_layout self.now.snapshot.now plane x y == kind) }
    {
        let types = KindSet::single(kind);
        match find_map(self.kept, plane, types) {
            Some(known) => join(map, known),
            None => add_tiles(map, self.frame, self.snapshot, plane, types),
        }
    }

    /// Adds the squares whose type on a plane is in the set.
    fn add_types(&self, map: &mut [u64], plane: PlaneNumber, types: KindSet)
        requires size { length map.old ≡ self.now.frame.words * self.now.frame.rows }
        requires kept { AreTypeMaps self.now.frame (copied_layout self.now.snapshot.now) self.now.kept.now }
        ensures { (x y : ℕ) → holds (frame_area self.now.frame) x y ≡ true
            → has_place map.new (place_of self.now.frame x y) ≡ (has_place map.old (place_of self.now.frame x y)
            || has_type types (copied_layout self.now.snapshot.now plane x y)) }
    {
        for number in 0..KINDS {
            let kind = Kind::new(number);
            if types.contains(kind) {
                self.add_kind(map, plane, kind);
            }
        }
    }

    /// Makes of a map without places one of the squares whose type on a plane is in the set.
    fn show(&self, map: &mut [u64], plane: PlaneNumber, types: KindSet)
        requires size { length map.old ≡ self.now.frame.words * self.now.frame.rows }
        requires empty { (n : ℕ) → has_place map.old n ≡ false }
        requires kept { AreTypeMaps self.now.frame (copied_layout self.now.snapshot.now) self.now.kept.now }
        ensures { Shows self.now.frame (of_types types (copied_layout self.now.snapshot.now plane)) map.new }
    {
        match others_of(self.snapshot, plane, types) {
            Some(others) => {
                self.add_types(map, plane, others);
                invert(map);
            }
            None => self.add_types(map, plane, types),
        }
    }

    /// Makes a map of the squares whose type on a plane is in the set, of one that is kept, if there is one.
    pub fn load(&self, map: &mut [u64], plane: PlaneNumber, types: KindSet)
        requires size { length map.old ≡ self.now.frame.words * self.now.frame.rows }
        requires kept { AreTypeMaps self.now.frame (copied_layout self.now.snapshot.now) self.now.kept.now }
        ensures { Shows self.now.frame (of_types types (copied_layout self.now.snapshot.now plane)) map.new }
    {
        let shown = shown_of(self.snapshot, plane, types);
        match find_map(self.kept, plane, shown) {
            Some(known) => map.copy_from_slice(known),
            None => {
                empty(map);
                self.show(map, plane, shown);
            }
        }
    }
}

/// Keeps a map of a set of types of a plane, where none is kept yet and there are few.
fn keep_map(
    kept: &mut Vec<TypeMap>,
    frame: Frame,
    snapshot: &Snapshot,
    plane: PlaneNumber,
    types: KindSet,
) -> Result<(), AllocError>
    requires { AreTypeMaps frame (copied_layout snapshot.now) kept.old.items }
    ensures { AreTypeMaps frame (copied_layout snapshot.now) kept.new.items }
{
    let types = shown_of(snapshot, plane, types);
    if kept.len() >= MOST_MAPS || find_map(kept, plane, types).is_some() {
        return Ok(());
    }
    let mut map = vec![in *kept.allocator(); 0; frame.size()]?;
    let shown = Shown {
        frame,
        snapshot,
        kept,
    };
    shown.show(&mut map, plane, types);
    kept.push(TypeMap { plane, types, map })?;
    Ok(())
}

/// Keeps a map of each kind that a plane shows, if it is known which, unless there are many maps, or some of the plane:
/// the first of these are of its kinds.
fn keep_kinds(
    kept: &mut Vec<TypeMap>,
    frame: Frame,
    snapshot: &Snapshot,
    plane: PlaneNumber,
) -> Result<(), AllocError>
    requires { AreTypeMaps frame (copied_layout snapshot.now) kept.old.items }
    ensures { AreTypeMaps frame (copied_layout snapshot.now) kept.new.items }
{
    if kept.len() >= MOST_MAPS || kept.iter().any(|one| one.plane == plane) {
        return Ok(());
    }
    let kinds = snapshot.kinds(plane).unwrap_or(KindSet::empty());
    for number in 0..KINDS {
        let kind = Kind::new(number);
        if kinds.contains(kind) {
            keep_map(kept, frame, snapshot, plane, KindSet::single(kind))?;
        }
    }
    Ok(())
}

/// Keeps maps of the types of a rule, and of each kind of its planes.
fn keep_types(
    kept: &mut Vec<TypeMap>,
    frame: Frame,
    snapshot: &Snapshot,
    rule: &EdgeRule,
) -> Result<(), AllocError>
    requires { AreTypeMaps frame (copied_layout snapshot.now) kept.old.items }
    ensures { AreTypeMaps frame (copied_layout snapshot.now) kept.new.items }
{
    let plane = rule.trigger_plane;
    keep_kinds(kept, frame, snapshot, plane)?;
    keep_kinds(kept, frame, snapshot, rule.check_plane)?;
    keep_map(kept, frame, snapshot, plane, rule.types1)?;
    keep_map(kept, frame, snapshot, plane, rule.types2)?;
    keep_map(kept, frame, snapshot, plane, rule.corner_types)?;
    keep_map(kept, frame, snapshot, rule.check_plane, rule.ok_types)
}

/// Makes maps of the types of the rules, each once, as far as there is memory.
pub(crate) fn list_maps(
    alloc: Global,
    rules: &[EdgeRule],
    snapshot: &Snapshot,
    frame: Frame,
) -> Vec<TypeMap>
    ensures { AreTypeMaps frame (copied_layout snapshot.now) result.items }
{
    let mut kept = Vec::new(alloc);
    for rule in rules {
        if !is_idle(rule, snapshot) && keep_types(&mut kept, frame, snapshot, rule).is_err() {
            return kept;
        }
    }
    kept
}

/// The squares of the types that a rule's edges and corners have.
#[derive(Drop)]
pub(crate) struct TypeMaps {
    frame: Frame,
    before: Vec<u64>,
    behind: Vec<u64>,
    beside: Vec<u64>,
}

impl Model for TypeMaps {
    ghost use Rattle.mls_checker.specs.Maps.{AreSized, TypeMaps};

    ghost Value = { TypeMaps };

    ghost view = { λ m. record { frame = m.frame; before = m.before.items; behind = m.behind.items; beside = m.beside.items } };

    ghost invariant = { λ m. AreSized (record { frame = m.frame; before = m.before.items; behind = m.behind.items; beside = m.beside.items }) };
}

impl TypeMaps {
    /// Makes maps of a frame, for any rule.
    pub fn new(alloc: Global, frame: Frame) -> Result<TypeMaps, AllocError>
        ensures { IfOk result (λ maps. maps.frame ≡ frame) }
    {
        let size = frame.size();
        Ok(TypeMaps {
            frame,
            before: vec![in alloc; 0; size]?,
            behind: vec![in alloc; 0; size]?,
            beside: vec![in alloc; 0; size]?,
        })
    }

    /// Shows the types of a rule.
    pub fn show(&mut self, shown: &Shown<'_>, rule: &EdgeRule)
        requires frame { shown.now.frame ≡ self.old.frame }
        requires kept { AreTypeMaps shown.now.frame (copied_layout shown.now.snapshot.now) shown.now.kept.now }
        ensures frame { self.new.frame ≡ self.old.frame }
        ensures types { ShowTypes rule.now (copied_layout shown.now.snapshot.now) self.new }
    {
        let plane = rule.trigger_plane;
        shown.load(&mut self.before, plane, rule.types1);
        shown.load(&mut self.behind, plane, rule.types2);
        shown.load(&mut self.beside, plane, rule.corner_types);
    }

    /// Returns the frame.
    pub fn frame(&self) -> Frame
        ensures { result ≡ self.now.frame }
    {
        self.frame
    }

    /// Returns the squares of `types1`.
    pub fn before(&self) -> &[u64]
        ensures value { result.now ≡ self.now.before }
        ensures size { length result.now ≡ self.now.frame.words * self.now.frame.rows }
    {
        &self.before
    }

    /// Returns the squares of `types2`.
    pub fn behind(&self) -> &[u64]
        ensures value { result.now ≡ self.now.behind }
        ensures size { length result.now ≡ self.now.frame.words * self.now.frame.rows }
    {
        &self.behind
    }

    /// Returns the squares of corner types.
    pub fn beside(&self) -> &[u64]
        ensures value { result.now ≡ self.now.beside }
        ensures size { length result.now ≡ self.now.frame.words * self.now.frame.rows }
    {
        &self.beside
    }
}
