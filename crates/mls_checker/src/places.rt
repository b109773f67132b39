//! Runs of the places of maps of one bit a place, and their first and last ones.
ghost use Rattle.std.specs.Prelude.{◌≡◌, ◌*◌, ◌/◌, ◌%◌, ◌-◌, ◌<◌, ◌≤◌, ℕ, true, false, not, length, IfNone, IfSome};
ghost use Rattle.mls_checker.specs.Grids.{has_column};
ghost use Rattle.mls_checker.specs.MarkMaps.{ArePlaceEnds, IsPlaceRun};
ghost use Rattle.mls_checker.specs.MarkRuns.{IsWanted};
ghost use Rattle.mls_checker.specs.Maps.{has_place};
ghost use Rattle.mls_checker.specs.Marking.{differs};
ghost use Rattle.mls_kinds.specs.KindSets.{has_bit};

use crate::words::{PLACES, mask};

/// Returns the word of a place, or, where places are wanted that the map hasn't, its complement.
fn word_at(map: &[u64], has: bool, place: usize) -> u64
    requires { place < 64 * length map.now }
    ensures { IsWanted has map.now place result }
{
    let word = map[place / PLACES];
    if has { word } else { !word }
}

/// Returns the first place from one on, up to a limit, that the map has, or hasn't; the limit where there is none.
pub(crate) fn first_place(map: &[u64], has: bool, from: usize, limit: usize) -> usize
    requires ordered { from ≤ limit }
    requires within { limit ≤ 64 * length map.now }
    ensures after { from ≤ result }
    ensures most { result ≤ limit }
    ensures none { (n : ℕ) → from ≤ n → n < result → has_place map.now n ≡ not has }
    ensures there { result < limit → has_place map.now result ≡ has }
{
    let mut place = from;
    'words: while place < limit {
        let rest = word_at(map, has, place) >> (place % PLACES) as u32;
        if rest != 0 {
            return limit.min(place + rest.trailing_zeros() as usize);
        }
        place = (place / PLACES * PLACES).saturating_add(PLACES);
    }
    limit
}

/// Returns the first run of places from one on, up to a limit: its first place, and the one after its last.
pub(crate) fn run_from(map: &[u64], from: usize, limit: usize) -> Option<(usize, usize)>
    requires ordered { from ≤ limit }
    requires within { limit ≤ 64 * length map.now }
    ensures none { IfNone result ((n : ℕ) → from ≤ n → n < limit → has_place map.now n ≡ false) }
    ensures some { IfSome result (λ run. IsPlaceRun map.now from limit run.0 run.1) }
{
    let start = first_place(map, true, from, limit);
    if start == limit {
        return None;
    }
    let end = first_place(map, false, start, limit);
    Some((start, end))
}

/// Returns the places of a word, up to one of them and with it, that the map has, or hasn't.
fn word_to(map: &[u64], has: bool, last: usize) -> u64
    requires { last < 64 * length map.now }
    ensures there { (k : ℕ) → has_bit result k ≡ true → k ≤ last % 64 }
    ensures has { (k : ℕ) → k ≤ last % 64 → has_bit result k ≡ differs (not has) (has_column map.now (last / 64) k) }
{
    let word = map[last / PLACES];
    let places = mask(0, (last % PLACES) as u32 + 1);
    if has { word & places } else { !word & places }
}

/// Returns the place after the last one from one on, up to a limit, that the map has, or hasn't; the first where there
/// is none.
fn last_place(map: &[u64], has: bool, from: usize, limit: usize) -> usize
    requires ordered { from ≤ limit }
    requires within { limit ≤ 64 * length map.now }
    ensures after { from ≤ result }
    ensures most { result ≤ limit }
    ensures none { (n : ℕ) → result ≤ n → n < limit → has_place map.now n ≡ not has }
    ensures there { from < result → has_place map.now (result - 1) ≡ has }
{
    let mut end = limit;
    'words: while from < end {
        let word = word_to(map, has, end - 1);
        let first = (end - 1) / PLACES * PLACES;
        if word != 0 {
            return from.max(first + (PLACES - word.leading_zeros() as usize));
        }
        end = first;
    }
    from
}

/// Returns the first one of the places from one on, up to a limit, that the map has, or hasn't, and the place after the
/// last one.
pub(crate) fn ends_between(
    map: &[u64],
    has: bool,
    from: usize,
    limit: usize,
) -> Option<(usize, usize)>
    requires ordered { from ≤ limit }
    requires within { limit ≤ 64 * length map.now }
    ensures none { IfNone result ((n : ℕ) → from ≤ n → n < limit → has_place map.now n ≡ not has) }
    ensures some { IfSome result (λ ends. ArePlaceEnds map.now has from limit ends.0 ends.1) }
{
    let start = first_place(map, has, from, limit);
    if start == limit {
        return None;
    }
    let end = last_place(map, has, start, limit);
    Some((start, end))
}
