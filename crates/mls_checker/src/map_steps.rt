//! Steps from place to place of a map, and maps that are widened.
ghost use Rattle.std.specs.Prelude.{◌≡◌, ◌+◌, ◌-◌, ◌*◌, ◌<◌, ◌≤◌, ◌||◌, ℕ, length};
ghost use Rattle.mls_checker.specs.Maps.{has_ahead, has_place, place_before, start_of};

use crate::map_words::{Ahead, add_ahead, add_both, empty, is_empty};

/// A step from each place of a map to another: so many places on, or back.
#[derive(Clone, Copy)]
pub(crate) struct Step {
    pub is_on: bool,
    pub places: usize,
}

impl Step {
    /// Returns the place a step before a place.
    pub fn before(self, place: usize) -> usize
        requires short { self.places ≤ 16777216 }
        requires low { place ≤ 8589934592 }
        ensures value { result ≡ place_before self.is_on self.places place }
        ensures near { result ≤ place + self.places }
    {
        if self.is_on {
            place.saturating_sub(self.places)
        } else {
            place + self.places
        }
    }

    /// Returns where so many steps begin: at home, or so that they end there, where they lead on.
    pub fn start(self, home: usize, count: usize) -> usize
        requires short { self.places ≤ 16777216 }
        requires few { count ≤ 256 }
        ensures value { result ≡ start_of self.is_on self.places count home }
        ensures near { result ≤ home }
    {
        if self.is_on {
            home.saturating_sub(count.saturating_sub(1) * self.places)
        } else {
            home
        }
    }
}

/// Makes each place of a map as many, each so many places before the last.
pub(crate) fn widen(map: &mut [u64], moved: &mut [u64], places: usize, count: usize)
    requires length { length map.old ≡ length moved.old }
    requires short { places ≤ 16777216 }
    requires few { count ≤ 256 }
    ensures { (n : ℕ) → n + (count - 1) * places + 64 < 64 * length map.old → has_place map.new n
        ≡ has_ahead (has_place map.old) places count n }
{
    if count == 0 {
        empty(map);
        return;
    }
    if is_empty(map) {
        return;
    }
    let mut wide = 1;
    'passes: while wide < count {
        let more = wide.min(count - wide);
        moved.copy_from_slice(map);
        let ahead = Ahead {
            map: moved,
            places: places * more,
        };
        add_ahead(map, ahead);
        wide += more;
    }
}

/// Adds the places of a narrow map, and makes each as many, each so many places before the last.
pub(crate) fn add_wide(
    map: &mut [u64],
    narrow: &mut [u64],
    moved: &mut [u64],
    places: usize,
    count: usize,
)
    requires narrow { length narrow.old ≡ length map.old }
    requires moved { length moved.old ≡ length map.old }
    requires short { places ≤ 16777216 }
    requires few { count ≤ 256 }
    ensures { (n : ℕ) → n + (count - 1) * places + 64 < 64 * length map.old → has_place map.new n
        ≡ (has_place map.old n || has_ahead (has_place narrow.old) places count n) }
{
    if count == 0 || is_empty(narrow) {
        return;
    }
    let half = (count + 1) / 2;
    widen(narrow, moved, places, half);
    let both = Ahead {
        map: narrow,
        places: places * (count - half),
    };
    add_both(map, both);
}
