//! Numbers that lie in a range, such as the limits that users give.
#![tactic(auto)]

ghost use Rattle.std.specs.Prelude.{◌≡◌, max, min};
ghost use Rattle.std.specs.Option.{SomeIff};
ghost use Rattle.std.specs.Range.{range_inclusive_end, range_inclusive_start};
ghost use Rattle.mls_bounded.specs.Ranges.{IsInRange};

use std::marker::Model;
use std::ops::RangeInclusive;

/// A number from `LEAST` to `MOST`, and `DEFAULT` if the user gives none.
///
/// A `MOST` below `LEAST` counts as `LEAST`, and for a `DEFAULT` outside the range stands the nearest number in it, so
/// that there is always a default.
#[derive(Clone, Copy, Debug, PartialEq, Eq)]
pub struct Bounded<const LEAST: u32, const MOST: u32, const DEFAULT: u32> {
    number: u32,
}

impl<const LEAST: u32, const MOST: u32, const DEFAULT: u32> Model
    for Bounded<LEAST, MOST, DEFAULT> {
    ghost use Rattle.std.specs.Prelude.{ℕ, max};
    ghost use Rattle.mls_bounded.specs.Ranges.{IsInRange};

    ghost Value = { ℕ };

    ghost view = { λ bounded. bounded.number };

    ghost invariant = { λ bounded. IsInRange LEAST (max LEAST MOST) bounded.number };

    ghost inverse = { λ number. record { number = number } };
}

impl<const LEAST: u32, const MOST: u32, const DEFAULT: u32> Bounded<LEAST, MOST, DEFAULT> {
    /// Returns this number, or `None` outside the range.
    pub fn new(number: u32) -> Option<Self>
        ensures { SomeIff result (IsInRange LEAST (max LEAST MOST) number) number }
    {
        if !(LEAST..=LEAST.max(MOST)).contains(&number) {
            return None;
        }
        Some(Bounded { number })
    }

    /// Returns the range.
    pub fn range() -> RangeInclusive<u32>
        ensures start { range_inclusive_start result ≡ LEAST }
        ensures end { range_inclusive_end result ≡ max LEAST MOST }
    {
        LEAST..=LEAST.max(MOST)
    }

    /// Returns the number.
    pub fn get(self) -> u32
        ensures value { result ≡ self.entry }
        ensures legal { IsInRange LEAST (max LEAST MOST) self.entry }
    {
        self.number
    }
}

impl<const LEAST: u32, const MOST: u32, const DEFAULT: u32> Default
    for Bounded<LEAST, MOST, DEFAULT> {
    ghost is_default = { λ bounded. bounded ≡ max LEAST (min MOST DEFAULT) };

    /// Returns the default, or the number of the range that is nearest to it.
    fn default() -> Self {
        Bounded {
            number: LEAST.max(MOST.min(DEFAULT)),
        }
    }
}
