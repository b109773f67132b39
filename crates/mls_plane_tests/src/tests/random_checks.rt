//! Random layouts, in which the plain program finds the same forbidden squares.
ghost use Rattle.std.specs.Prelude.{◌≡◌};
ghost use Rattle.mls_checker.specs.Halos.{zone_of};

use crate::tests::checks::piece;
use crate::tests::dice::Dice;
use crate::tests::fields::{Field, Types, WIDE, is_dense, random_layout, words_of};
use crate::tests::layouts::Layout;
use crate::tests::rule_files::{ONE_PLANE, TWO_PLANES, rules_of, rules_of_lines};
use mls_checker::{Finding, Snapshot, check, why};
use mls_edgerule::Rules;
use mls_geom::{Piece, Point, Rect};
use mls_kinds::PlaneNumber;
use mls_plain_check::{Forbidden, Square, Squares, find};
use mls_tech::TECHNOLOGY_M;
use std::alloc::Global;
use std::process::Abort;
use std::test::Fail;

/// How many layouts are checked by the rules of each technology.
const LAYOUTS: usize = 300;

/// How many layouts are checked by each rule of a technology alone, and by two rules.
const LAYOUTS_A_RULE: usize = 60;

/// How many layouts are checked on wide fields.
const WIDE_LAYOUTS: usize = 8;

/// `poly` and `ndiff` on the plane `active`, `m1` on the plane `metal1`.
const TWO_PLANES_TYPES: &[Types] = &[[1, 1, 2, 0], [3, 3, 3, 0]];

/// `q` on the plane `p`.
const ONE_PLANE_TYPES: &[Types] = &[[1, 1, 1, 0]];

/// Random layouts, and what was seen in them.
#[derive(Drop)]
struct Trial {
    dice: Dice,
    /// The field of the layout that is checked.
    field: Field,
    /// Whether a check went by sides.
    went_by_sides: bool,
    /// Whether the first rule forbade a square that no other rule did.
    forbade_alone: bool,
}

impl Trial {
    fn new(field: Field) -> Trial {
        Trial {
            dice: Dice::new(4),
            field,
            went_by_sides: false,
            forbade_alone: false,
        }
    }
}

/// Asserts that a piece of a copy breaks the rules that the plain program found.
fn expect_same_rules(
    rt: &impl Abort,
    rules: &Rules,
    snapshot: &Snapshot,
    forbidden: &Forbidden,
    piece: Rect,
)
    requires { snapshot.now.zone ≡ zone_of rules.now piece }
{
    assert_eq!(rt;
        why(rules, snapshot, piece).bits(),
        forbidden.why(piece),
        "in {piece:?}"
    );
}

/// Asserts that a check of a piece marks the squares that the plain program found.
fn expect_same_squares(
    rt: &impl Abort,
    finding: &Finding,
    forbidden: &Forbidden,
    piece: Rect,
) -> Result<(), Fail> {
    for y in piece.bottom()..piece.top() {
        for x in piece.left()..piece.right() {
            let square = Point::new(x, y).ok_or("no square")?;
            let is_marked = finding.marks().is_marked(square);
            assert_eq!(rt;
                is_marked,
                forbidden.is_marked(Square::at(square)),
                "at {x}, {y}"
            );
        }
    }
    Ok(())
}

/// Asserts that a check of a piece finds the squares and the rules that the plain program found. Returns how much was
/// looked at.
fn expect_same(
    rt: &impl Abort,
    alloc: Global,
    rules: &Rules,
    layout: &mut Layout,
    forbidden: &Forbidden,
    piece: Rect,
) -> Result<u64, Fail> {
    let snapshot = layout.snapshot(alloc, piece.grow(rules.halo()))?;
    expect_same_rules(rt, rules, &snapshot, forbidden, piece);
    let finding = check(alloc, rules, snapshot, piece)?;
    expect_same_squares(rt, &finding, forbidden, piece)?;
    Ok(finding.edges())
}

/// Asserts that a check that looked at so much went by maps of so many words, or by sides; or that all rules were idle.
fn expect_way(rt: &impl Abort, looked_at: u64, words: u64, by_maps: bool) {
    assert!(rt;
        looked_at == 0 || (looked_at == words) == by_maps,
        "{looked_at} looked at, {words} words"
    );
}

/// Asserts the same of a piece of a field, and that it is checked on maps if the bricks make it dense. Returns whether
/// it was checked by sides.
fn expect_same_in_piece(
    rt: &impl Abort,
    alloc: Global,
    rules: &Rules,
    layout: &mut Layout,
    forbidden: &Forbidden,
    (field, piece): (Field, Rect),
) -> Result<bool, Fail> {
    let looked_at = expect_same(rt, alloc, rules, layout, forbidden, piece)?;
    let words = words_of(piece, field.halo);
    if field.is_dense_by_bricks(piece) {
        expect_way(rt, looked_at, words, true);
    }
    Ok(looked_at != 0 && looked_at != words)
}

/// Asserts the same of a layout: of all its squares, and of two random pieces.
fn expect_same_in_pieces(
    rt: &impl Abort,
    alloc: Global,
    rules: &Rules,
    layout: &mut Layout,
    forbidden: &Forbidden,
    trial: &mut Trial,
) -> Result<(), Fail> {
    let field = trial.field;
    let whole = (field, field.whole()?);
    trial.went_by_sides |= expect_same_in_piece(rt, alloc, rules, layout, forbidden, whole)?;
    for _ in 0..2 {
        let part = field.rect(trial.dice.area())?;
        expect_same_in_piece(rt, alloc, rules, layout, forbidden, (field, part))?;
    }
    Ok(())
}

/// Whether the first rule forbids a square of a piece that no other rule does.
fn forbids_alone(forbidden: &Forbidden, piece: Rect) -> bool {
    let lines = piece.area();
    for row in lines.bottom..lines.top {
        for column in lines.left..lines.right {
            if forbidden.rules_at(Square { column, row }) == 1 {
                return true;
            }
        }
    }
    false
}

/// Asserts the same of a layout and of squares that show it.
fn expect_same_as_squares(
    rt: &impl Abort,
    alloc: Global,
    rules: &Rules,
    layout: &mut Layout,
    squares: &Squares,
    trial: &mut Trial,
) -> Result<(), Fail> {
    let whole = trial.field.whole()?;
    let forbidden = find(alloc, rules, squares, whole)?;
    trial.forbade_alone |= forbids_alone(&forbidden, whole);
    expect_same_in_pieces(rt, alloc, rules, layout, &forbidden, trial)
}

/// Asserts the same of a random layout with these planes, on squares of space.
fn expect_same_on_squares(
    rt: &impl Abort,
    alloc: Global,
    rules: &Rules,
    squares: &mut Squares,
    planes: &[Types],
    trial: &mut Trial,
) -> Result<(), Fail> {
    let mut layout = random_layout(alloc, squares, planes, &mut trial.dice, trial.field)?;
    expect_same_as_squares(rt, alloc, rules, &mut layout, squares, trial)
}

/// Asserts the same of a random layout with these planes.
fn expect_same_in_layout(
    rt: &impl Abort,
    alloc: Global,
    rules: &Rules,
    planes: &[Types],
    trial: &mut Trial,
) -> Result<(), Fail> {
    let mut squares = Squares::new(alloc, trial.field.zone()?, planes.len())?;
    expect_same_on_squares(rt, alloc, rules, &mut squares, planes, trial)
}

/// Asserts the same of random layouts with blocks of this side, and that some were checked by sides. Returns whether
/// the first rule forbade a square that no other rule did.
fn expect_same_by_rules(
    rt: &impl Abort,
    alloc: Global,
    rules: &Rules,
    planes: &[Types],
    layouts: usize,
    scale: i32,
) -> Result<bool, Fail> {
    let mut trial = Trial::new(Field::of_layout(0, scale, rules.halo()));
    for number in 0..layouts {
        trial.field = Field::of_layout(number, scale, rules.halo());
        expect_same_in_layout(rt, alloc, rules, planes, &mut trial)?;
    }
    assert!(rt; trial.went_by_sides);
    Ok(trial.forbade_alone)
}

/// Asserts the same by each of these rule lines alone, after these planes and types.
fn expect_same_by_each(
    rt: &impl Abort,
    alloc: Global,
    (planes, types): (&str, &[Types]),
    lines: &[&str],
    layouts: usize,
) -> Result<(), Fail> {
    for line in lines {
        let rules = rules_of_lines(alloc, planes, &[*line])?;
        expect_same_by_rules(rt, alloc, &rules, types, layouts, 1)?;
    }
    Ok(())
}

#[test]
fn technology_m(rt: HostRuntime) -> Result<(), Fail> {
    let rules = rules_of(rt.alloc(), TECHNOLOGY_M)?;
    expect_same_by_rules(&rt, rt.alloc(), &rules, TWO_PLANES_TYPES, LAYOUTS, 1)?;
    Ok(())
}

/// Rules of every kind: on one plane and on two, with and without corners, and with types on both sides of their edges.
const LINES: [&str; 12] = [
    "width poly 2 \"\"",
    "width poly,ndiff 4 \"\"",
    "spacing poly poly 3 touching_ok \"\"",
    "spacing poly,ndiff ndiff 2 touching_ok \"\"",
    "spacing poly ndiff 1 touching_illegal \"\"",
    "spacing m1 poly 3 touching_illegal \"\"",
    "edge space poly 2 poly poly 2 \"\"",
    "edge space m1 1 space,ndiff 0 0 \"\" active",
    "edge4way space m1 1 space,ndiff 0 0 \"\" active",
    "edge4way poly,space poly,ndiff 3 space,poly poly,ndiff 2 \"\"",
    "edge poly,ndiff poly,ndiff 1 poly ~poly/active 4 \"\"",
    "edge4way m1 space,m1 2 poly space,m1 0 \"\" active",
];

#[test]
fn rules_of_every_kind(rt: HostRuntime) -> Result<(), Fail> {
    let rules = rules_of_lines(rt.alloc(), TWO_PLANES, &LINES)?;
    expect_same_by_rules(&rt, rt.alloc(), &rules, TWO_PLANES_TYPES, LAYOUTS, 1)?;
    expect_same_by_rules(
        &rt,
        rt.alloc(),
        &rules,
        TWO_PLANES_TYPES,
        WIDE_LAYOUTS,
        WIDE,
    )?;
    Ok(())
}

/// Squares of poly in a row, each apart, and bars along the lower side of the zone round it.
#[derive(Clone, Copy)]
struct Row {
    squares: u8,
    has_poly_bar: bool,
    has_metal_bar: bool,
}

impl Row {
    /// What the row has on the first plane.
    fn active(self, alloc: Global) -> Result<Vec<Piece>, Fail> {
        let mut active = Vec::new(alloc);
        for number in 0..self.squares {
            let left = i32::from(number).saturating_mul(2);
            active.push(piece(1, (left, 1, left.saturating_add(1), 2))?)?;
        }
        if self.has_poly_bar {
            active.push(piece(1, (-4, -4, 124, -3))?)?;
        }
        Ok(active)
    }

    /// What it has on the second plane.
    fn metal(self, alloc: Global) -> Result<Vec<Piece>, Fail> {
        let mut metal = Vec::new(alloc);
        if self.has_metal_bar {
            metal.push(piece(3, (-4, -4, 124, -3))?)?;
        }
        Ok(metal)
    }

    /// The layout, which is painted on squares too.
    fn layout(self, alloc: Global, squares: &mut Squares) -> Result<Layout, Fail> {
        let active = self.active(alloc)?;
        let metal = self.metal(alloc)?;
        squares.paint(PlaneNumber::new(0), &active);
        squares.paint(PlaneNumber::new(1), &metal);
        Layout::new(alloc)?.with(&active)?.with(&metal)
    }

    /// How many tiles the zone round the row has, and the space round the zone.
    fn tiles(self) -> u64 {
        u64::from(self.squares)
            .saturating_mul(2)
            .saturating_add(12)
            .saturating_add(u64::from(self.has_poly_bar))
            .saturating_add(u64::from(self.has_metal_bar))
    }

    /// How many rules of technology M aren't idle: two of poly alone, and one of metal.
    fn rules(self) -> u64 {
        let has_poly = self.squares > 0 || self.has_poly_bar;
        u64::from(has_poly)
            .saturating_mul(2)
            .saturating_add(u64::from(self.has_metal_bar))
    }
}

/// Asserts the same of such a row, and that it goes by maps where it has enough tiles.
fn expect_same_in_row(rt: &impl Abort, alloc: Global, rules: &Rules, row: Row) -> Result<(), Fail> {
    let looked = Rect::new(0, 0, 120, 4)?;
    let mut squares = Squares::new(alloc, looked.grow(rules.halo()), 2)?;
    let mut layout = row.layout(alloc, &mut squares)?;
    let forbidden = find(alloc, rules, &squares, looked)?;
    let looked_at = expect_same(rt, alloc, rules, &mut layout, &forbidden, looked)?;
    // 12 rows of 2 words.
    let by_maps = is_dense(row.tiles(), 24, row.rules());
    expect_way(rt, looked_at, 24, by_maps);
    Ok(())
}

/// Numbers of squares round those from which rows are dense: with two rules that aren't idle from 18 tiles on, and with
/// three from 16 on.
const SQUARES: [u8; 9] = [0, 1, 2, 3, 4, 5, 6, 7, 8];

/// Asserts the same of rows of such numbers of squares with these bars.
fn expect_same_in_rows(
    rt: &impl Abort,
    alloc: Global,
    rules: &Rules,
    has_poly_bar: bool,
    has_metal_bar: bool,
) -> Result<(), Fail> {
    for squares in SQUARES {
        let row = Row {
            squares,
            has_poly_bar,
            has_metal_bar,
        };
        expect_same_in_row(rt, alloc, rules, row)?;
    }
    Ok(())
}

#[test]
fn each_number_of_tiles(rt: HostRuntime) -> Result<(), Fail> {
    let rules = rules_of(rt.alloc(), TECHNOLOGY_M)?;
    for has_poly_bar in [false, true] {
        for has_metal_bar in [false, true] {
            expect_same_in_rows(&rt, rt.alloc(), &rules, has_poly_bar, has_metal_bar)?;
        }
    }
    Ok(())
}

/// Pairs of rule lines that differ in one thing or in distances, and whether the first forbids squares alone.
const PAIRS: [(&str, &str, bool); 9] = [
    (
        "edge4way space poly 2 poly poly 2 \"\"",
        "edge4way space poly 3 poly poly 3 \"\"",
        false,
    ),
    (
        "edge4way space poly 2 poly poly 3 \"\"",
        "edge4way space poly 3 poly poly 2 \"\"",
        true,
    ),
    (
        "edge4way space poly 3 poly poly 2 \"\"",
        "edge4way space poly 2 poly poly 3 \"\"",
        true,
    ),
    (
        "edge4way space poly 1 poly poly 3 \"\"",
        "edge4way space poly 1 poly ndiff 3 \"\"",
        true,
    ),
    (
        "edge4way space poly 2 poly 0 0 \"\"",
        "edge space poly 2 poly 0 0 \"\"",
        true,
    ),
    (
        "edge4way space m1 2 space 0 0 \"\" active",
        "edge4way space m1 2 space 0 0 \"\"",
        true,
    ),
    (
        "edge4way space poly 2 poly 0 0 \"\"",
        "edge4way space poly 2 poly,ndiff 0 0 \"\"",
        true,
    ),
    (
        "edge4way space poly 2 poly 0 0 \"\"",
        "edge4way ndiff poly 2 poly 0 0 \"\"",
        true,
    ),
    (
        "edge4way space poly 2 space 0 0 \"\"",
        "edge4way space ndiff 2 space 0 0 \"\"",
        true,
    ),
];

#[test]
fn rules_that_differ_in_one_thing(rt: HostRuntime) -> Result<(), Fail> {
    for (first, second, alone) in PAIRS {
        let rules = rules_of_lines(rt.alloc(), TWO_PLANES, &[first, second])?;
        let found = expect_same_by_rules(
            &rt,
            rt.alloc(),
            &rules,
            TWO_PLANES_TYPES,
            LAYOUTS_A_RULE,
            1,
        )?;
        assert_eq!(&rt; found, alone, "{first}");
    }
    Ok(())
}

#[test]
fn each_rule_alone(rt: HostRuntime) -> Result<(), Fail> {
    let head = (TWO_PLANES, TWO_PLANES_TYPES);
    expect_same_by_each(&rt, rt.alloc(), head, &LINES, LAYOUTS_A_RULE)
}

/// Rules of every kind that reach as far as they may.
const FAR_LINES: [&str; 6] = [
    "width poly 100 \"\"",
    "spacing poly poly 100 touching_ok \"\"",
    "spacing m1 poly 100 touching_illegal \"\"",
    "edge space poly 100 poly poly 100 \"\"",
    "edge space m1 100 space,ndiff space,m1 100 \"\" active",
    "edge4way poly,space poly,ndiff 99 poly,ndiff ndiff 100 \"\"",
];

#[test]
fn rules_that_reach_far(rt: HostRuntime) -> Result<(), Fail> {
    for line in FAR_LINES {
        let rules = rules_of_lines(rt.alloc(), TWO_PLANES, &[line])?;
        expect_same_by_rules(
            &rt,
            rt.alloc(),
            &rules,
            TWO_PLANES_TYPES,
            WIDE_LAYOUTS,
            WIDE,
        )?;
    }
    Ok(())
}

/// Rules that have space on both sides of their edges, as only those of a single plane can.
const SPACE_LINES: [&str; 3] = [
    "edge space space 1 q 0 0 \"q only\"",
    "edge4way space,q space 2 q space 3 \"\"",
    "edge4way space,q space,q 1 q q 2 \"\"",
];

#[test]
fn space_beside_space(rt: HostRuntime) -> Result<(), Fail> {
    let head = (ONE_PLANE, ONE_PLANE_TYPES);
    expect_same_by_each(&rt, rt.alloc(), head, &SPACE_LINES, LAYOUTS)
}
