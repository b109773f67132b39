//! Dense rectangles, which are checked on maps.
ghost use Rattle.std.specs.Prelude.{◌≡◌, IfSome};
ghost use Rattle.mls_checker.specs.Maps.{IsRound};
ghost use Rattle.mls_edgerule.specs.Halos.{halo_of};

use crate::Snapshot;
use crate::idle::is_idle;
use crate::map_frame::Frame;
use mls_edgerule::Rules;
use mls_geom::Rect;

/// So few tiles take less time by their sides, whatever the words and the rules.
const LEAST_TILES: usize = 8;

/// How many words of the maps that a rule has for itself take as long as the sides of a tile by that rule, as was
/// measured.
const WORDS_OF_TILE: usize = 8;

/// The maps that the rules share take as long as those that so many rules have for themselves, as was measured.
const RULES_OF_SHARED: usize = 4;

/// Whether so many tiles take less time by maps of so many words than by their sides, with so many rules that aren't
/// idle. By sides a tile costs the same for each of them; by maps a word costs less for each, and something once.
fn are_dense(tiles: usize, words: usize, active: usize) -> bool {
    let by_sides = active
        .saturating_mul(WORDS_OF_TILE)
        .saturating_mul(tiles.saturating_sub(LEAST_TILES));
    let by_maps = words.saturating_mul(active.saturating_add(RULES_OF_SHARED));
    by_sides > by_maps
}

/// Returns the squares of maps of a rectangle and of those round it that the rules can tell from it, if it is dense:
/// then maps take less time than sides.
pub(crate) fn frame_of_dense(rules: &Rules, snapshot: &Snapshot, rect: Rect) -> Option<Frame>
    ensures { IfSome result (λ frame. IsRound frame rect (halo_of rules.now)) }
{
    let frame = Frame::around(rect, rules.halo())?;
    let rules = rules.as_slice();
    let active = rules.iter().filter(|rule| !is_idle(rule, snapshot)).count();
    if are_dense(snapshot.tile_count(), frame.size(), active) {
        return Some(frame);
    }
    None
}
