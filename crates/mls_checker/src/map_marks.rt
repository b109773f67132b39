//! Marks that are found on maps of one bit a square.
ghost use Rattle.std.specs.Prelude.{◌≡◌, ◌+◌, ◌*◌, ◌≤◌, ◌&&◌, ℕ, max, false, length, IfOk};
ghost use Rattle.mls_checker.specs.Copies.{copied_layout};
ghost use Rattle.mls_checker.specs.Findings.{forbids_in, violated_rules};
ghost use Rattle.mls_checker.specs.Forbids.{forbids};
ghost use Rattle.mls_checker.specs.Maps.{AreTypeMaps, GainsDeep, HasDeep, IsRound, forbidden_by_any, has_place, place_of, square};
ghost use Rattle.mls_checker.specs.Marking.{marks};
ghost use Rattle.mls_edgerule.specs.Halos.{halo_of};
ghost use Rattle.mls_geom.specs.Rects.{holds};

use crate::covering::is_needed;
use crate::idle::is_idle;
use crate::map_frame::Frame;
use crate::map_words::{add_but, empty};
use crate::mark_map::{MarkMap, has_any};
use crate::reach_maps::{ReachMaps, words_below};
use crate::type_map::{Shown, TypeMaps, list_maps};
use crate::{Marks, Snapshot};
use mls_edgerule::{EdgeRule, RuleSet, Rules};
use mls_geom::Rect;
use std::alloc::{AllocError, Global};

/// The maps on which the squares are found that rules forbid.
#[derive(Drop)]
struct MapMarks {
    frame: Frame,
    types: TypeMaps,
    reach: ReachMaps,
    allowed: Vec<u64>,
    marked: Vec<u64>,
    ghost types_framed: { types.frame ≡ frame },
    ghost reach_framed: { reach.frame ≡ frame },
    ghost allowed_sized: { length allowed.items ≡ frame.words * frame.rows },
    ghost marked_sized: { length marked.items ≡ frame.words * frame.rows },
}

impl MapMarks {
    /// Makes maps of a frame, in which no square is marked.
    fn new(alloc: Global, frame: Frame) -> Result<MapMarks, AllocError>
        ensures frame { IfOk result (λ marks. marks.frame ≡ frame) }
        ensures marked { IfOk result (λ marks. (n : ℕ) → has_place marks.marked.items n ≡ false) }
    {
        let size = frame.size();
        Ok(MapMarks {
            frame,
            types: TypeMaps::new(alloc, frame)?,
            reach: ReachMaps::new(alloc, frame)?,
            allowed: vec![in alloc; 0; size]?,
            marked: vec![in alloc; 0; size]?,
        })
    }

    /// Marks the squares that the rule forbids.
    fn add(&mut self, shown: &Shown<'_>, rule: &EdgeRule)
        requires shown { shown.now.frame ≡ self.old.frame }
        requires kept { AreTypeMaps shown.now.frame (copied_layout shown.now.snapshot.now) shown.now.kept.now }
        ensures frame { self.new.frame ≡ self.old.frame }
        ensures marked { GainsDeep self.old.frame (1 + max rule.now.distance rule.now.corner_distance)
            (λ x y. forbids rule.now (copied_layout shown.now.snapshot.now) (square x y))
            self.old.marked.items self.new.marked.items }
    {
        self.types.show(shown, rule);
        self.reach.find_reach(&self.types, rule);
        shown.load(&mut self.allowed, rule.check_plane, rule.ok_types);
        let below = words_below(self.frame, rule);
        add_but(&mut self.marked, self.reach.reached(), below, &self.allowed);
    }

    /// Marks the squares that the rule forbids, and no others. Returns whether some of them lie in a rectangle.
    fn find_any(&mut self, shown: &Shown<'_>, rule: &EdgeRule, rect: Rect) -> bool
        requires shown { shown.now.frame ≡ self.old.frame }
        requires kept { AreTypeMaps shown.now.frame (copied_layout shown.now.snapshot.now) shown.now.kept.now }
        requires round { IsRound self.old.frame rect (1 + max rule.now.distance rule.now.corner_distance) }
        ensures frame { self.new.frame ≡ self.old.frame }
        ensures any { result ≡ forbids_in rect (copied_layout shown.now.snapshot.now) rule.now }
    {
        if is_idle(rule, shown.snapshot) {
            return false;
        }
        empty(&mut self.marked);
        self.add(shown, rule);
        has_any(&self.marked, self.frame, rect)
    }
}

/// Finds the squares of a piece that the rules forbid, on maps of the piece with so many squares more on each side.
pub(crate) fn mark_on_maps(
    alloc: Global,
    rules: &[EdgeRule],
    snapshot: &Snapshot,
    piece: Rect,
    frame: Frame,
) -> Result<Marks, AllocError>
    requires { IsRound frame piece (halo_of rules.now) }
    ensures rect { IfOk result (λ marked. marked.rect ≡ piece) }
    ensures marks { IfOk result (λ marked. (x y : ℕ) → marks marked x y
        ≡ (holds piece x y && forbidden_by_any rules.now (copied_layout snapshot.now) x y)) }
{
    let mut marks = MapMarks::new(alloc, frame)?;
    let kept = list_maps(alloc, rules, snapshot, frame);
    let shown = Shown {
        frame,
        snapshot,
        kept: &kept,
    };
    let mut index = rules.len();
    'rules: while index > 0 {
        let later = &rules[index..];
        index -= 1;
        let rule = &rules[index];
        if is_needed(rule, later, snapshot) {
            marks.add(&shown, rule);
        }
    }
    Marks::of(alloc, MarkMap::new(piece, frame, marks.marked))
}

/// Finds the rules that forbid some square of a rectangle, on maps of it with so many squares more on each side.
pub(crate) fn violated_on_maps(
    alloc: Global,
    rules: &Rules,
    snapshot: &Snapshot,
    rect: Rect,
    frame: Frame,
) -> Result<RuleSet, AllocError>
    requires { IsRound frame rect (halo_of rules.now) }
    ensures { IfOk result (λ violated. violated ≡ violated_rules rules.now rect (copied_layout snapshot.now)) }
{
    let mut marks = MapMarks::new(alloc, frame)?;
    let kept = list_maps(alloc, rules.as_slice(), snapshot, frame);
    let shown = Shown {
        frame,
        snapshot,
        kept: &kept,
    };
    let mut violated = RuleSet::empty();
    for (index, rule) in rules.as_slice().iter().enumerate() {
        if marks.find_any(&shown, rule, rect) {
            violated.insert(index + 1);
        }
    }
    Ok(violated)
}
