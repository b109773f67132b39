//! Slots, and the parts of a segment tree.
ghost use Rattle.std.specs.Prelude.{◌≡◌, ℕ, ◌+◌, ◌-◌, ◌*◌, ◌/◌, ◌^◌, ◌<◌, ◌≤◌, ◌&&◌, nat_lt, nat_le, if◌then◌else◌};

/// Slots from one index up to another.
#[derive(Clone, Copy)]
pub(crate) struct Span {
    pub(crate) first: usize,
    pub(crate) end: usize,
}

/// The slots of a node: a power of two of them.
#[derive(Clone, Copy)]
pub(crate) struct Part {
    pub(crate) first: usize,
    pub(crate) width: usize,
}

impl Part {
    /// Returns the index of the part's topmost node.
    pub(crate) fn node(self) -> usize
        requires some { 0 < self.width }
        requires within { 2 * (self.first + self.width) < 2 ^ 64 }
        ensures { result ≡ 2 * self.first + self.width - 1 }
    {
        2 * self.first + self.width - 1
    }

    /// Returns the left half.
    pub(crate) fn left(self) -> Part
        ensures first { result.first ≡ self.first }
        ensures width { result.width ≡ self.width / 2 }
    {
        Part {
            first: self.first,
            width: self.width / 2,
        }
    }

    /// Returns the right half.
    pub(crate) fn right(self) -> Part
        requires { self.first + self.width < 2 ^ 64 }
        ensures first { result.first ≡ self.first + self.width / 2 }
        ensures width { result.width ≡ self.width / 2 }
    {
        Part {
            first: self.first + self.width / 2,
            width: self.width / 2,
        }
    }

    /// Returns the half that has a slot of the part.
    pub(crate) fn towards(self, slot: usize) -> Part
        requires { self.first + self.width < 2 ^ 64 }
        ensures first { result.first
            ≡ (if nat_lt slot (self.first + self.width / 2) then self.first else self.first + self.width / 2) }
        ensures width { result.width ≡ self.width / 2 }
    {
        let right = self.right();
        if slot < right.first {
            self.left()
        } else {
            right
        }
    }

    /// Returns whether all slots of the part are in the span.
    pub(crate) fn lies_in(self, span: Span) -> bool
        requires { self.first + self.width < 2 ^ 64 }
        ensures { result ≡ (nat_le span.first self.first && nat_le (self.first + self.width) span.end) }
    {
        span.first <= self.first && self.first + self.width <= span.end
    }

    /// Returns whether the part and the span have a slot in common, where the span has one.
    pub(crate) fn meets(self, span: Span) -> bool
        requires { self.first + self.width < 2 ^ 64 }
        ensures { result ≡ (nat_lt span.first (self.first + self.width) && nat_lt self.first span.end) }
    {
        span.first < self.first + self.width && self.first < span.end
    }
}
