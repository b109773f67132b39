//! Maps of one bit a place as lists of words, 64 places to a word.
ghost use Rattle.std.specs.Prelude.{◌≡◌, ◌+◌, ◌-◌, ◌*◌, ◌/◌, ◌%◌, ◌<◌, ◌≤◌, ◌||◌, ◌&&◌, ℕ, Bool, true, false, not, length, IsTrue};
ghost use Rattle.mls_checker.specs.Grids.{has_column};
ghost use Rattle.mls_checker.specs.Maps.{has_place};
ghost use Rattle.mls_kinds.specs.KindSets.{has_bit};

use crate::words::{COLUMNS, PLACES};

/// Takes all places from a map.
pub(crate) fn empty(map: &mut [u64])
    ensures { (n : ℕ) → has_place map.new n ≡ false }
{
    map.fill(0);
}

/// Whether a map has no places.
pub(crate) fn is_empty(map: &[u64]) -> bool
    ensures { IsTrue result → (row column : ℕ) → has_column map.now row column ≡ false }
{
    map.iter().all(|columns| *columns == 0)
}

/// Makes of a map one of the places that it hasn't.
pub(crate) fn invert(map: &mut [u64])
    ensures { (n : ℕ) → n < 64 * length map.old → has_place map.new n ≡ not (has_place map.old n) }
{
    for row in 0..map.len() {
        map[row] = !map[row];
    }
}

/// Returns the 64 bits of a word and the next one that begin so many bits after the first one.
fn word_from(word: u64, next: u64, bits: u32) -> u64
    requires { bits < 64 }
    ensures low { (k : ℕ) → bits + k < 64 → has_bit result k ≡ has_bit word (bits + k) }
    ensures high { (k : ℕ) → k < 64 → 64 ≤ bits + k → has_bit result k ≡ has_bit next (bits + k - 64) }
{
    let low = word >> bits;
    let high = next << 1;
    low | (high << (COLUMNS - 1 - bits))
}

/// A map, of which each place is read so many places ahead.
#[derive(Clone, Copy)]
pub(crate) struct Ahead<'a> {
    pub map: &'a [u64],
    pub places: usize,
}

impl Ahead<'_> {
    /// Returns how many words the map has that can be read, all but its last ones.
    fn len(self) -> usize
        ensures { result ≡ length self.entry.map.now - (self.entry.places / 64 + 1) }
    {
        self.map.len().saturating_sub(self.places / PLACES + 1)
    }

    /// Whether places are read whole words ahead.
    fn is_aligned(self) -> bool
        ensures { result ≡ true → self.entry.places % 64 ≡ 0 }
    {
        self.places % PLACES == 0
    }

    /// Whether the places of a word are read from the same bit on as those of another map.
    fn is_aligned_with(self, other: Ahead<'_>) -> bool
        ensures { result ≡ true → self.entry.places % 64 ≡ other.entry.places % 64 }
    {
        self.places % PLACES == other.places % PLACES
    }

    /// Returns the places that are read for those of a word.
    fn word(self, row: usize) -> u64
        requires { row + self.places / 64 + 1 < length self.map.now }
        ensures { (k : ℕ) → k < 64 → has_bit result k ≡ has_place self.entry.map.now (64 * row + k + self.entry.places) }
    {
        let first = row + self.places / PLACES;
        let bits = (self.places % PLACES) as u32;
        word_from(self.map[first], self.map[first + 1], bits)
    }

    /// Returns the places that are read for those of a word, where they are those of a word.
    fn aligned_word(self, row: usize) -> u64
        requires aligned { self.places % 64 ≡ 0 }
        requires within { row + self.places / 64 < length self.map.now }
        ensures { (k : ℕ) → k < 64 → has_bit result k ≡ has_place self.entry.map.now (64 * row + k + self.entry.places) }
    {
        self.map[row + self.places / PLACES]
    }

    /// Returns the places that are read for those of a word both here and of another map, from the same bit on.
    fn common_word(self, other: Ahead<'_>, row: usize) -> u64
        requires aligned { self.places % 64 ≡ other.places % 64 }
        requires one { row + self.places / 64 + 1 < length self.map.now }
        requires other { row + other.places / 64 + 1 < length other.map.now }
        ensures { (k : ℕ) → k < 64 → has_bit result k ≡ (has_place self.entry.map.now (64 * row + k + self.entry.places)
            && has_place other.entry.map.now (64 * row + k + other.entry.places)) }
    {
        let first = row + self.places / PLACES;
        let second = row + other.places / PLACES;
        let word = self.map[first] & other.map[second];
        let next = self.map[first + 1] & other.map[second + 1];
        let bits = (self.places % PLACES) as u32;
        word_from(word, next, bits)
    }
}

/// Adds to each of a map's first words one that is made for it.
fn add_words<F: Fn(usize) -> u64>(map: &mut [u64], count: usize, made: F)
    requires within { count ≤ length map.old }
    requires made { (row : ℕ) → row < count → F.pre made row }
    ensures { (more : ℕ → Bool)
        → ((row word column : ℕ) → row < count → F.post made row word → column < 64 → has_bit word column ≡ more (64 * row + column))
        → (n : ℕ) → n < 64 * count → has_place map.new n ≡ (has_place map.old n || more n) }
{
    for row in 0..count {
        map[row] |= made(row);
    }
}

/// Adds the places of another map.
pub(crate) fn add_ahead(map: &mut [u64], other: Ahead<'_>)
    requires { length map.old ≡ length other.map.now }
    ensures { (n : ℕ) → n + other.entry.places + 64 < 64 * length map.old → has_place map.new n
        ≡ (has_place map.old n || has_place other.entry.map.now (n + other.entry.places)) }
{
    let count = other.len();
    if other.is_aligned() {
        add_words(map, count, |row| other.aligned_word(row));
    } else {
        add_words(map, count, |row| other.word(row));
    }
}

/// Adds the places of another map both there and ahead.
pub(crate) fn add_both(map: &mut [u64], other: Ahead<'_>)
    requires { length map.old ≡ length other.map.now }
    ensures { (n : ℕ) → n + other.entry.places + 64 < 64 * length map.old → has_place map.new n ≡ (has_place map.old n
        || (has_place other.entry.map.now n || has_place other.entry.map.now (n + other.entry.places))) }
{
    let count = other.len();
    if other.is_aligned() {
        add_words(map, count, |row| other.map[row] | other.aligned_word(row));
    } else {
        add_words(map, count, |row| other.map[row] | other.word(row));
    }
}

/// Adds the places that two other maps have.
pub(crate) fn add_common(map: &mut [u64], one: Ahead<'_>, other: Ahead<'_>)
    requires one { length map.old ≡ length one.map.now }
    requires other { length map.old ≡ length other.map.now }
    ensures { (n : ℕ) → n + one.entry.places + 64 < 64 * length map.old → n + other.entry.places + 64 < 64 * length map.old
        → has_place map.new n ≡ (has_place map.old n
        || (has_place one.entry.map.now (n + one.entry.places) && has_place other.entry.map.now (n + other.entry.places))) }
{
    let count = one.len().min(other.len());
    if !one.is_aligned() {
        add_words(map, count, |row| one.word(row) & other.word(row));
    } else if other.is_aligned() {
        add_words(
            map,
            count,
            |row| one.aligned_word(row) & other.aligned_word(row),
        );
    } else {
        add_words(map, count, |row| one.aligned_word(row) & other.word(row));
    }
}

/// Adds the places that three other maps have, the first two of which are read from the same bit on.
fn add_common_of_pair(map: &mut [u64], one: Ahead<'_>, other: Ahead<'_>, last: Ahead<'_>)
    requires one { length map.old ≡ length one.map.now }
    requires other { length map.old ≡ length other.map.now }
    requires last { length map.old ≡ length last.map.now }
    requires both { one.places % 64 ≡ other.places % 64 }
    ensures { (n : ℕ) → n + one.entry.places + 64 < 64 * length map.old → n + other.entry.places + 64 < 64 * length map.old
        → n + last.entry.places + 64 < 64 * length map.old → has_place map.new n ≡ (has_place map.old n
        || ((has_place one.entry.map.now (n + one.entry.places) && has_place other.entry.map.now (n + other.entry.places))
        && has_place last.entry.map.now (n + last.entry.places))) }
{
    let count = one.len().min(other.len()).min(last.len());
    if last.is_aligned() {
        add_words(
            map,
            count,
            |row| one.common_word(other, row) & last.aligned_word(row),
        );
    } else {
        add_words(
            map,
            count,
            |row| one.common_word(other, row) & last.word(row),
        );
    }
}

/// Adds the places that three other maps have.
pub(crate) fn add_common_of_three(
    map: &mut [u64],
    one: Ahead<'_>,
    other: Ahead<'_>,
    last: Ahead<'_>,
)
    requires one { length map.old ≡ length one.map.now }
    requires other { length map.old ≡ length other.map.now }
    requires last { length map.old ≡ length last.map.now }
    ensures { (n : ℕ) → n + one.entry.places + 64 < 64 * length map.old → n + other.entry.places + 64 < 64 * length map.old
        → n + last.entry.places + 64 < 64 * length map.old → has_place map.new n ≡ (has_place map.old n
        || ((has_place one.entry.map.now (n + one.entry.places) && has_place other.entry.map.now (n + other.entry.places))
        && has_place last.entry.map.now (n + last.entry.places))) }
{
    if one.is_aligned_with(other) {
        add_common_of_pair(map, one, other, last);
    } else if other.is_aligned_with(last) {
        add_common_of_pair(map, other, last, one);
    } else {
        let count = one.len().min(other.len()).min(last.len());
        add_words(
            map,
            count,
            |row| one.word(row) & other.word(row) & last.word(row),
        );
    }
}

/// Adds the places of another map, so many words on, but for those of a third one.
pub(crate) fn add_but(map: &mut [u64], other: &[u64], words: usize, but: &[u64])
    requires other { length map.old ≡ length other.now }
    requires but { length map.old ≡ length but.now }
    ensures { (row column : ℕ) → row < length map.old → words ≤ row → has_column map.new row column
        ≡ (has_column map.old row column
        || (has_column other.now (row - words) column && not (has_column but.now row column))) }
{
    for row in words..map.len() {
        let more = other[row - words] & !but[row];
        map[row] |= more;
    }
}
