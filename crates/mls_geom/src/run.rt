//! Runs of a row.
ghost use Rattle.std.specs.Prelude.{◌≡◌, ◌≢◌, ℕ, ◌+◌, ◌-◌, ◌<◌, ◌≤◌, length, vec_capacity};
ghost use Rattle.mls_geom.specs.Locality.{uncovered};
ghost use Rattle.mls_geom.specs.Rects.{Rect};
ghost use Rattle.mls_geom.specs.Pictures.{Picture};
ghost use Rattle.mls_geom.specs.Sweep.Rows.{AreRuns};
ghost use Rattle.mls_geom.specs.Sweep.Slots.{AreCuts, AreSlotKinds, HaveBytes, shown};

use mls_kinds::Kind;

/// The squares of a row between two lines, all of one kind, and the index of their strip.
#[derive(Clone, Copy)]
pub(crate) struct Run {
    pub(crate) left: u32,
    pub(crate) right: u32,
    pub(crate) kind: Kind,
    pub(crate) strip: usize,
}

/// Fills `runs` with the runs of a row, from the kinds of its slots. A slot without one is in no run.
pub(crate) fn join_slots(lines: &[u32], kinds: &[Option<Kind>], runs: &mut Vec<Run>)
    requires count { length lines.now ≡ length kinds.now + 1 }
    requires bytes { HaveBytes kinds.now }
    requires room { length kinds.now ≤ vec_capacity runs.old }
    ensures runs { (extent : Rect) (picture : Picture) (y : ℕ)
        → AreCuts extent lines.now
        → AreSlotKinds picture y lines.now kinds.now
        → AreRuns extent picture y runs.new.items }
    ensures room { vec_capacity runs.new ≡ vec_capacity runs.old }
{
    runs.clear();
    let mut first = 0;
    while first < kinds.len() {
        let end = end_of_kind(kinds, first);
        if let Some(kind) = kinds[first] {
            runs.push_reserved(Run {
                left: lines[first],
                right: lines[end],
                kind,
                strip: 0,
            });
        }
        first = end;
    }
}

/// Returns the end of the slots from `first` on that have the kind of `first`, or none as it has none.
fn end_of_kind(kinds: &[Option<Kind>], first: usize) -> usize
    requires bytes { HaveBytes kinds.now }
    requires within { first < length kinds.now }
    ensures wide { first < result }
    ensures within { result ≤ length kinds.now }
    ensures alike { (slot : ℕ) → first ≤ slot → slot < result → shown kinds.now slot ≡ shown kinds.now first }
    ensures changes { result < length kinds.now → shown kinds.now result ≢ shown kinds.now (result - 1) }
{
    let kind = kinds[first];
    let mut end = first + 1;
    while end < kinds.len() && kinds[end] == kind {
        end += 1;
    }
    end
}
