//! Stacking the runs of a band on the strips below it.
ghost use Rattle.std.specs.Prelude.{◌≡◌, ℕ, ◌<◌, ◌≤◌, ◌↔◌, [], ◌∷◌, ◌++◌, IfOk, IfSome, IsErr, IsSome, IsSomeAnd, OnOk, OnErr, length, slice_get, vec_len, vec_capacity};
ghost use Rattle.std.specs.List.{AllWithin};
ghost use Rattle.mls_geom.specs.Rects.{IsRectangleIn};
ghost use Rattle.mls_geom.specs.Sweep.Rows.{AreRuns};
ghost use Rattle.mls_geom.specs.Sweep.Stacks.{AreStacked, AreAlike, StandsOn, new_strip, extended, up_to};
ghost use Rattle.mls_geom.specs.Locality.{covered_count};
ghost use Rattle.mls_geom.specs.World.{world};

use crate::run::Run;
use crate::sweep::TooMany;
use crate::{Piece, Rect};

/// Moves the index to the first run below that does not lie left of `run`, or to the number of runs. Returns that run's
/// strip, if it has the ends and the kind of `run`.
fn strip_below(below: &[Run], run: &Run, index: &mut usize) -> Option<usize>
    requires { index.old ≤ length below.now }
    ensures within { index.new ≤ length below.now }
    ensures passed { AllWithin (λ under. under.left < run.now.left) below.now index.old index.new }
    ensures stopped { IfSome (slice_get below.now index.new) (λ under. run.now.left ≤ under.left) }
    ensures found { IsSome result ↔ IsSomeAnd (slice_get below.now index.new) (StandsOn run.now) }
    ensures strip { IfSome result (λ strip. IsSomeAnd (slice_get below.now index.new) (λ under. under.strip ≡ strip)) }
{
    while *index < below.len() && below[*index].left < run.left {
        *index += 1;
    }
    let under = below.get(*index)?;
    let stands = under.left == run.left && under.right == run.right && under.kind == run.kind;
    stands.then_some(under.strip)
}

/// Makes a strip reach up to the line `top`.
pub(crate) fn extend_to(strip: &mut Piece, top: u32)
    requires above { strip.old.rect.bottom < top }
    requires to { top ≤ world.top }
    ensures { strip.new ≡ extended top strip.old }
{
    let edges = strip.rect.area();
    strip.rect = Rect::between(edges.left, edges.bottom, edges.right, top);
}

/// Stacks a band, from the line `bottom` up to the line `top`, on the strips below it.
///
/// `below` has the runs of the row below the band, and `row` those of the band's rows, which are all alike.
/// A run above a run with the same ends and kind extends its strip, and any other run starts a strip.
pub(crate) fn stack(
    below: &[Run],
    row: &mut [Run],
    bottom: u32,
    top: u32,
    limit: usize,
    strips: &mut Vec<Piece>,
) -> Result<(), TooMany>
    requires room { limit ≤ vec_capacity strips.old }
    requires within { vec_len strips.old ≤ limit }
    requires from { world.bottom ≤ bottom }
    requires tall { bottom < top }
    requires to { top ≤ world.top }

    // Some picture has these strips and runs, so the runs name strips of the list and lie in the world.
    requires drawn { (picture : ℕ → ℕ → ℕ)
        × AreStacked world picture bottom strips.old.items below.now
        × AreRuns world picture bottom row.old
        × AreAlike world picture bottom top }

    ensures stacked { OnOk result ((picture : ℕ → ℕ → ℕ)
        → AreStacked world picture bottom strips.old.items below.now
        → AreRuns world picture bottom row.old
        → AreAlike world picture bottom top
        → AreStacked world picture top strips.new.items row.new) }
    ensures too_many { OnErr result ((picture : ℕ → ℕ → ℕ)
        → AreStacked world picture bottom strips.old.items below.now
        → AreRuns world picture bottom row.old
        → AreAlike world picture bottom top
        → limit < covered_count (up_to top world) picture) }
    ensures within { OnOk result (vec_len strips.new ≤ limit) }
    ensures room { vec_capacity strips.new ≡ vec_capacity strips.old }
{
    let mut index = 0;
    for run in row.iter_mut() {
        run.strip = match strip_below(below, run, &mut index) {
            Some(strip) => {
                extend_to(&mut strips[strip], top);
                strip
            }
            None => {
                if strips.len() == limit {
                    return Err(TooMany);
                }
                strips.push_reserved(Piece {
                    rect: Rect::between(run.left, bottom, run.right, top),
                    kind: run.kind,
                });
                strips.len() - 1
            }
        };
    }
    Ok(())
}
