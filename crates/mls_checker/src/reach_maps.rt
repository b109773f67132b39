//! What the edges of a rule reach, by maps.
ghost use Rattle.std.specs.Prelude.{◌≡◌, ◌+◌, ◌-◌, ◌*◌, ◌<◌, ◌≤◌, ◌||◌, ◌&&◌, ◌∷◌, [], ℕ, max, not, true, length, IfOk};
ghost use Rattle.std.specs.List.{list_any};
ghost use Rattle.mls_checker.specs.Forbids.{reaches};
ghost use Rattle.mls_checker.specs.Maps.{HasLow, Reads, ShowTypes, comes_first, corner_at, corner_begins, corners_begin, has_ahead, has_place, is_level, places_of, row_at, row_begins, square};
ghost use Rattle.mls_edgerule.specs.Directions.{directions_in};
ghost use Rattle.mls_geom.specs.Directions.{across};
ghost use Rattle.mls_geom.specs.Layouts.{Layout};

use crate::map_frame::Frame;
use crate::map_steps::{Step, add_wide, widen};
use crate::map_words::{Ahead, add_common, add_common_of_three, empty};
use crate::type_map::TypeMaps;
use mls_edgerule::EdgeRule;
use mls_geom::Direction;
use std::alloc::{AllocError, Global};

/// Adds the places where so many steps from an edge begin.
fn add_row(map: &mut [u64], types: &TypeMaps, step: Step, home: usize, count: usize)
    requires size { length map.old ≡ types.now.frame.words * types.now.frame.rows }
    requires short { step.places ≤ 16777216 }
    requires low { home ≤ 4294967296 }
    requires few { count ≤ 256 }
    ensures { (n : ℕ) → n + home + step.places + 64 < 64 * length map.old → has_place map.new n
        ≡ (has_place map.old n
        || row_at types.now.before types.now.behind step.is_on step.places count home n) }
{
    let start = step.start(home, count);
    let behind = Ahead {
        map: types.behind(),
        places: start,
    };
    let before = Ahead {
        map: types.before(),
        places: step.before(start),
    };
    add_common(map, behind, before);
}

/// Adds the places where so many steps from an edge that has a corner on a flank begin, with as many to the flank.
fn add_corner(map: &mut [u64], types: &TypeMaps, step: Step, flank: Step, home: usize, count: usize)
    requires size { length map.old ≡ types.now.frame.words * types.now.frame.rows }
    requires short { step.places ≤ 16777216 }
    requires across { flank.places ≤ 16777216 }
    requires low { home ≤ 4294967296 }
    requires few { count ≤ 256 }
    ensures { (n : ℕ) → n + home + step.places + flank.places + 64 < 64 * length map.old → has_place map.new n
        ≡ (has_place map.old n || corner_at types.now.before types.now.behind types.now.beside
        step.is_on step.places flank.is_on flank.places count home n) }
{
    let start = flank.start(step.start(home, count), count);
    let first = flank.before(start);
    let behind = Ahead {
        map: types.behind(),
        places: first,
    };
    let before = Ahead {
        map: types.before(),
        places: step.before(first),
    };
    let beside = Ahead {
        map: types.beside(),
        places: step.before(start),
    };
    add_common_of_three(map, behind, before, beside);
}

/// Returns the two directions across a direction.
fn flanks(direction: Direction) -> (Direction, Direction)
    ensures { across direction ≡ result.0 ∷ result.1 ∷ [] }
{
    match direction {
        Direction::Right | Direction::Left => (Direction::Up, Direction::Down),
        Direction::Up | Direction::Down => (Direction::Right, Direction::Left),
    }
}

/// Whether corner types are the types behind edges.
fn has_same_types(rule: &EdgeRule) -> bool
    ensures { result ≡ true → rule.now.corner_types ≡ rule.now.types2 }
{
    rule.corner_types == rule.types2
}

/// Whether a direction comes before another one where rules list both.
fn comes_first(flank: Direction, direction: Direction) -> bool
    ensures { result ≡ comes_first flank direction }
{
    match (flank, direction) {
        (Direction::Right, Direction::Up | Direction::Down) => true,
        (Direction::Up, Direction::Left) => true,
        (Direction::Left, Direction::Down) => true,
        _ => false,
    }
}

/// The edges of a rule, whose rows and corner blocks begin so many places before them.
#[derive(Clone, Copy)]
struct Edges<'a> {
    types: &'a TypeMaps,
    /// Corner types are the types behind edges.
    same: bool,
    home: usize,
}

impl Edges<'_> {
    /// Adds the places where rows of the edges in a direction begin, to the one or to the other map.
    fn add_rows(&self, level: &mut [u64], upright: &mut [u64], count: usize, direction: Direction)
        requires level { length level.old ≡ self.now.types.now.frame.words * self.now.types.now.frame.rows }
        requires upright { length upright.old ≡ self.now.types.now.frame.words * self.now.types.now.frame.rows }
        requires low { self.now.home ≤ 4294967296 }
        requires few { count ≤ 256 }
        ensures level { (n : ℕ) → Reads self.now.types.now.frame self.now.home level.old n → has_place level.new n
            ≡ (has_place level.old n || (is_level direction && row_begins self.now.types.now.before
            self.now.types.now.behind self.now.types.now.frame count self.now.home n direction)) }
        ensures upright { (n : ℕ) → Reads self.now.types.now.frame self.now.home upright.old n
            → has_place upright.new n
            ≡ (has_place upright.old n || (not (is_level direction) && row_begins self.now.types.now.before
            self.now.types.now.behind self.now.types.now.frame count self.now.home n direction)) }
    {
        let step = self.types.frame().step(direction);
        match direction {
            Direction::Right | Direction::Left => {
                add_row(level, self.types, step, self.home, count);
            }
            Direction::Up | Direction::Down => {
                add_row(upright, self.types, step, self.home, count);
            }
        }
    }

    /// Adds the places where corner blocks of the edges in a direction begin on a flank. Where corner types are the
    /// types behind edges, and the flank comes first, these are blocks of the edges in its direction.
    fn add_flank(&self, blocks: &mut [u64], count: usize, direction: Direction, flank: Direction)
        requires size { length blocks.old ≡ self.now.types.now.frame.words * self.now.types.now.frame.rows }
        requires low { self.now.home ≤ 4294967296 }
        requires few { count ≤ 256 }
        requires across { places_of self.now.types.now.frame direction + places_of self.now.types.now.frame flank
            ≡ 1 + 64 * self.now.types.now.frame.words }
        ensures { (n : ℕ) → Reads self.now.types.now.frame self.now.home blocks.old n → has_place blocks.new n
            ≡ (has_place blocks.old n || (not (self.now.same && comes_first flank direction)
            && corner_begins self.now.types.now.before self.now.types.now.behind self.now.types.now.beside
            self.now.types.now.frame count self.now.home n direction flank)) }
    {
        if self.same && comes_first(flank, direction) {
            return;
        }
        let frame = self.types.frame();
        let step = frame.step(direction);
        add_corner(
            blocks,
            self.types,
            step,
            frame.step(flank),
            self.home,
            count,
        );
    }

    /// Adds the places where corner blocks of the edges in a direction begin.
    fn add_corners(&self, blocks: &mut [u64], count: usize, direction: Direction)
        requires size { length blocks.old ≡ self.now.types.now.frame.words * self.now.types.now.frame.rows }
        requires low { self.now.home ≤ 4294967296 }
        requires few { count ≤ 256 }
        ensures { (n : ℕ) → Reads self.now.types.now.frame self.now.home blocks.old n → 0 < count
            → has_place blocks.new n ≡ (has_place blocks.old n
            || corners_begin self.now.types.now.before self.now.types.now.behind self.now.types.now.beside
            self.now.types.now.frame self.now.same count self.now.home n direction) }
    {
        if count == 0 {
            return;
        }
        let (flank, other) = flanks(direction);
        self.add_flank(blocks, count, direction, flank);
        self.add_flank(blocks, count, direction, other);
    }

    /// Finds the places where rows and corner blocks of the edges of a rule begin.
    fn find_beginnings(
        &self,
        level: &mut [u64],
        upright: &mut [u64],
        blocks: &mut [u64],
        rule: &EdgeRule,
    )
        requires level { length level.old ≡ self.now.types.now.frame.words * self.now.types.now.frame.rows }
        requires upright { length upright.old ≡ self.now.types.now.frame.words * self.now.types.now.frame.rows }
        requires blocks { length blocks.old ≡ self.now.types.now.frame.words * self.now.types.now.frame.rows }
        requires low { self.now.home ≤ 4294967296 }
        ensures level { (n : ℕ) → Reads self.now.types.now.frame self.now.home level.old n → has_place level.new n
            ≡ list_any (λ direction. is_level direction
            && row_begins self.now.types.now.before self.now.types.now.behind self.now.types.now.frame
            rule.now.distance self.now.home n direction) (directions_in rule.now.directions) }
        ensures upright { (n : ℕ) → Reads self.now.types.now.frame self.now.home upright.old n
            → has_place upright.new n
            ≡ list_any (λ direction. not (is_level direction)
            && row_begins self.now.types.now.before self.now.types.now.behind self.now.types.now.frame
            rule.now.distance self.now.home n direction) (directions_in rule.now.directions) }
        ensures blocks { (n : ℕ) → Reads self.now.types.now.frame self.now.home blocks.old n
            → 0 < rule.now.corner_distance → has_place blocks.new n
            ≡ list_any (corners_begin self.now.types.now.before self.now.types.now.behind self.now.types.now.beside
            self.now.types.now.frame self.now.same rule.now.corner_distance self.now.home n)
            (directions_in rule.now.directions) }
    {
        empty(level);
        empty(upright);
        empty(blocks);
        let distance = rule.distance as usize;
        let corner_distance = rule.corner_distance as usize;
        for direction in rule.directions.list() {
            self.add_rows(level, upright, distance, *direction);
            self.add_corners(blocks, corner_distance, *direction);
        }
    }
}

/// Widens rows and corner blocks from where they begin, and joins them.
fn spread(
    level: &mut [u64],
    upright: &mut [u64],
    blocks: &mut [u64],
    moved: &mut [u64],
    row: usize,
    rule: &EdgeRule,
)
    requires upright { length upright.old ≡ length level.old }
    requires blocks { length blocks.old ≡ length level.old }
    requires moved { length moved.old ≡ length level.old }
    requires short { row ≤ 16777216 }
    ensures { (n : ℕ) → n + max rule.now.distance rule.now.corner_distance * (row + 1) + 64 < 64 * length level.old
        → has_place level.new n ≡ ((has_ahead (has_place level.old) 1 rule.now.distance n
        || has_ahead (has_ahead (has_place blocks.old) row rule.now.corner_distance) 1 rule.now.corner_distance n)
        || has_ahead (has_place upright.old) row rule.now.distance n) }
{
    let distance = rule.distance as usize;
    let corner_distance = rule.corner_distance as usize;
    if distance == corner_distance {
        add_wide(level, blocks, moved, row, corner_distance);
        widen(level, moved, 1, distance);
    } else {
        widen(blocks, moved, row, corner_distance);
        widen(level, moved, 1, distance);
        add_wide(level, blocks, moved, 1, corner_distance);
    }
    add_wide(level, upright, moved, row, distance);
}

/// Returns how many words before a square it is shown whether the edges of the rule reach it.
pub(crate) fn words_below(frame: Frame, rule: &EdgeRule) -> usize
    ensures value { result ≡ (1 + max rule.now.distance rule.now.corner_distance) * frame.words }
    ensures low { result ≤ 67108864 }
{
    (1 + rule.distance.max(rule.corner_distance) as usize) * frame.words()
}

/// The maps by which it is found what a rule's edges reach.
#[derive(Drop)]
pub(crate) struct ReachMaps {
    frame: Frame,
    level: Vec<u64>,
    upright: Vec<u64>,
    blocks: Vec<u64>,
    moved: Vec<u64>,
    ghost level_sized: { length level.items ≡ frame.words * frame.rows },
    ghost upright_sized: { length upright.items ≡ frame.words * frame.rows },
    ghost blocks_sized: { length blocks.items ≡ frame.words * frame.rows },
    ghost moved_sized: { length moved.items ≡ frame.words * frame.rows },
}

impl ReachMaps {
    /// Makes maps of a frame.
    pub fn new(alloc: Global, frame: Frame) -> Result<ReachMaps, AllocError>
        ensures { IfOk result (λ maps. maps.frame ≡ frame) }
    {
        let size = frame.size();
        Ok(ReachMaps {
            frame,
            level: vec![in alloc; 0; size]?,
            upright: vec![in alloc; 0; size]?,
            blocks: vec![in alloc; 0; size]?,
            moved: vec![in alloc; 0; size]?,
        })
    }

    /// Finds the squares that the edges of the rule reach.
    pub fn find_reach(&mut self, types: &TypeMaps, rule: &EdgeRule)
        requires frame { types.now.frame ≡ self.old.frame }
        ensures frame { self.new.frame ≡ self.old.frame }
        ensures reached { (layout : Layout) → ShowTypes rule.now layout types.now
            → HasLow self.old.frame (1 + max rule.now.distance rule.now.corner_distance)
            (λ x y. reaches rule.now layout (square x y)) self.new.level.items }
    {
        let below = words_below(self.frame, rule);
        let edges = Edges {
            types,
            same: has_same_types(rule),
            home: below * 64,
        };
        edges.find_beginnings(&mut self.level, &mut self.upright, &mut self.blocks, rule);
        let row = self.frame.step(Direction::Up);
        spread(
            &mut self.level,
            &mut self.upright,
            &mut self.blocks,
            &mut self.moved,
            row.places,
            rule,
        );
    }

    /// Returns the squares that were reached, each so many rows below.
    pub fn reached(&self) -> &[u64]
        ensures { result.now ≡ self.now.level.items }
    {
        &self.level
    }
}
