//! The lines of what rules forbid in a rectangle.
ghost use Rattle.std.specs.Prelude.{◌≡◌, ◌+◌, ◌++◌, ◌*◌, ◌^◌, ◌≤◌, codes, decimal, length};
ghost use Rattle.std.specs.List.{flat_map};
ghost use Rattle.mls_server.specs.mls_errorplane.Violations.{strip_count};
ghost use Rattle.mls_wire.specs.Pushes.{Appends};
ghost use Rattle.mls_wire.specs.Replies as spec;

use crate::Names;
use crate::journal_lines::push_sides;
use crate::reply::{Pushed, push_after_space, push_decimal};
use mls_geom::Rect;
use mls_server::Violation;

/// Appends how many lines say what rules forbid, and these lines, each after a line feed.
pub(crate) fn push_violations<N: Names>(names: &N, found: &[Violation], out: &mut Vec<u8>) -> Pushed
    ensures { Appends result out.old out.new (spec.violations_text (N.book names.now) found.now) }
{
    let lines = count_lines(found);
    push_lines(names, lines, found, out)
}

/// Appends a number of lines, and the lines that say what rules forbid, each after a line feed.
fn push_lines<N: Names>(names: &N, lines: u128, found: &[Violation], out: &mut Vec<u8>) -> Pushed
    ensures { Appends result out.old out.new (codes "violations " ++ decimal lines
        ++ flat_map (spec.violation_text (N.book names.now)) found.now) }
{
    out.extend_from_slice(b"violations ")?;
    push_decimal(lines, out)?;
    push_each(names, found, out)
}

/// Returns how many lines say what rules forbid: one for each rule, and one for each strip.
fn count_lines(found: &[Violation]) -> u128
    ensures { result ≡ length found.now + strip_count found.now }
{
    found.len() as u128 + count_strips(found)
}

/// Returns how many strips all rules have together.
fn count_strips(found: &[Violation]) -> u128
    ensures value { result ≡ strip_count found.now }
    ensures few { result ≤ length found.now * 2 ^ 64 }
{
    let mut strips: u128 = 0;
    for violation in found {
        strips += violation.strips().len() as u128;
    }
    strips
}

/// Appends the lines of each rule and of what it forbids, each after a line feed.
fn push_each<N: Names>(names: &N, found: &[Violation], out: &mut Vec<u8>) -> Pushed
    ensures { Appends result out.old out.new (flat_map (spec.violation_text (N.book names.now)) found.now) }
{
    for violation in found {
        push_violation(names, violation, out)?;
    }
    Ok(())
}

/// Appends the lines of a rule and of what it forbids, each after a line feed.
fn push_violation<N: Names>(names: &N, violation: &Violation, out: &mut Vec<u8>) -> Pushed
    ensures { Appends result out.old out.new (spec.violation_text (N.book names.now) violation.now) }
{
    let rule = violation.rule();
    out.extend_from_slice(b"\nrule ")?;
    push_decimal(rule as u64, out)?;
    push_after_space(names.why_text(rule), out)?;
    push_strips(violation.strips(), out)
}

/// Appends the lines of strips, each after a line feed.
fn push_strips(strips: &[Rect], out: &mut Vec<u8>) -> Pushed
    ensures { Appends result out.old out.new (flat_map spec.strip_text strips.now) }
{
    for strip in strips {
        push_strip(*strip, out)?;
    }
    Ok(())
}

/// Appends the line of a strip after a line feed.
fn push_strip(strip: Rect, out: &mut Vec<u8>) -> Pushed
    ensures { Appends result out.old out.new (spec.strip_text strip) }
{
    out.extend_from_slice(b"\nrect")?;
    push_sides(
        strip.left(),
        strip.bottom(),
        strip.right(),
        strip.top(),
        out,
    )
}
