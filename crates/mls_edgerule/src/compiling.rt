//! Edge rules from rule lines (Taylor and Ousterhout 1984).
ghost use Rattle.std.specs.Prelude.{◌≡◌};
ghost use Rattle.mls_tech.specs.declared.rule.Adjacency.TheVariants.{TouchingOk, TouchingIllegal};
ghost use Rattle.mls_tech.specs.declared.rule.Rule.TheVariants.{Width, Spacing};
ghost use Rattle.mls_edgerule.specs.Compiling as spec;
ghost use Rattle.mls_edgerule.specs.declared.directions.Directions.TheVariants.{Four};

use crate::plane_types::{is_on_plane, plane_of_set, trigger_plane, types_on};
use crate::{Directions, EdgeRule, RuleFault, RuleFaultKind, Rules};
use mls_kinds::{KindSet, PlaneNumber};
use mls_tech::{Adjacency, Edge, Rule, RuleLine, Tech};

/// Compiles the rule lines of a technology: one edge rule for each line, in the order of the lines.
///
/// Allocates nothing. Returns the fault of the first line that has one.
pub fn compile(tech: &Tech) -> Result<Rules, RuleFault>
    ensures { result ≡ spec.compiled tech.now }
{
    let mut rules = Rules::new();
    let lines = tech.lines();
    for line in lines {
        if rules.is_full() {
            return Err(rule_fault(line, RuleFaultKind::TooManyRules));
        }
        let Some(rule) = rule_of(tech, line.rule) else {
            return Err(rule_fault(line, RuleFaultKind::Planes));
        };
        rules.push(rule);
    }
    Ok(rules)
}

fn rule_fault(line: &RuleLine, kind: RuleFaultKind) -> RuleFault
    ensures { result ≡ spec.rule_fault line.now kind }
{
    RuleFault {
        line: line.line,
        kind,
    }
}

/// The edge rule of a rule line, or `None` if its types don't lie on planes as its keyword demands.
#[tactic(auto, unfolding(crate::specs::Compiling::rule_of))]
fn rule_of(tech: &Tech, rule: Rule) -> Option<EdgeRule>
    ensures { result ≡ spec.rule_of tech.now rule }
{
    match rule {
        Rule::Width(set, distance) => width(tech, set, distance),
        Rule::Spacing(from, to, distance, adjacency) => match adjacency {
            Adjacency::TouchingOk => touching_ok(tech, from, to, distance),
            Adjacency::TouchingIllegal => touching_illegal(tech, from, to, distance),
        },
        Rule::Edge(edge) => compiled_edge(tech, Directions::RightAndUp, edge),
        Rule::Edge4Way(edge) => compiled_edge(tech, Directions::Four, edge),
    }
}

/// Demands that the types of the set, which lie on one plane, are `distance` wide: beyond an edge into them, and beyond
/// a corner of such an edge, there are only they.
#[tactic(auto, unfolding(crate::specs::Compiling::rule_of))]
fn width(tech: &Tech, set: KindSet, distance: u8) -> Option<EdgeRule>
    ensures { result ≡ spec.rule_of tech.now (Width set distance) }
{
    let plane = plane_of_set(tech, set)?;
    Some(EdgeRule {
        types1: types_on(tech, plane).difference(set),
        types2: set,
        ok_types: set,
        corner_types: set,
        distance,
        corner_distance: distance,
        directions: Directions::RightAndUp,
        trigger_plane: plane,
        check_plane: plane,
    })
}

/// Demands that the types of two sets, which lie on one plane, touch or are `distance` apart: beyond an edge from the
/// first into neither there are none of the others.
#[tactic(auto, unfolding(crate::specs::Compiling::rule_of))]
fn touching_ok(tech: &Tech, from: KindSet, to: KindSet, distance: u8) -> Option<EdgeRule>
    ensures { result ≡ spec.rule_of tech.now (Spacing from to distance TouchingOk) }
{
    let plane = plane_of_set(tech, from)?;
    if !is_on_plane(tech, to, plane) {
        return None;
    }
    let all = types_on(tech, plane);
    let neither = all.difference(from).difference(to);
    Some(spacing_rule(from, neither, all.difference(to), distance, plane, plane))
}

/// Demands that the types of two sets, which lie on a plane each, are `distance` apart and don't touch: beyond an edge
/// out of the first there are none of the others.
#[tactic(auto, unfolding(crate::specs::Compiling::rule_of))]
fn touching_illegal(tech: &Tech, from: KindSet, to: KindSet, distance: u8) -> Option<EdgeRule>
    ensures { result ≡ spec.rule_of tech.now (Spacing from to distance TouchingIllegal) }
{
    let plane = plane_of_set(tech, from)?;
    let check_plane = plane_of_set(tech, to)?;
    let outside = types_on(tech, plane).difference(from);
    let allowed = types_on(tech, check_plane).difference(to);
    Some(spacing_rule(from, outside, allowed, distance, plane, check_plane))
}

/// Demands that beyond an edge from the first types into others, and beyond a corner of such an edge, only the
/// allowed types lie within `distance`.
fn spacing_rule(
    from: KindSet,
    others: KindSet,
    allowed: KindSet,
    distance: u8,
    plane: PlaneNumber,
    check_plane: PlaneNumber,
) -> EdgeRule
    ensures { result ≡ spec.even_rule from others allowed distance Four plane check_plane }
{
    EdgeRule {
        types1: from,
        types2: others,
        ok_types: allowed,
        corner_types: others,
        distance,
        corner_distance: distance,
        directions: Directions::Four,
        trigger_plane: plane,
        check_plane,
    }
}

/// The rule as an `edge` or `edge4way` line states it, without types that its planes don't have, or `None` if no plane or
/// several planes have its edges.
fn compiled_edge(tech: &Tech, directions: Directions, edge: Edge) -> Option<EdgeRule>
    ensures { result ≡ spec.compiled_edge tech.now directions edge }
{
    let plane = trigger_plane(tech, edge.types1, edge.types2)?;
    let check_plane = edge.plane.unwrap_or(plane);
    let all = types_on(tech, plane);
    Some(EdgeRule {
        types1: edge.types1.intersection(all),
        types2: edge.types2.intersection(all),
        ok_types: edge.ok_types.intersection(types_on(tech, check_plane)),
        corner_types: edge.corner_types.intersection(all),
        distance: edge.distance,
        corner_distance: edge.corner_distance,
        directions,
        trigger_plane: plane,
        check_plane,
    })
}
