//! A bound on the steps of searches.
ghost use Rattle.std.specs.Prelude.{◌≡◌, ◌-◌, ◌/◌, ◌==◌, ◌&&◌, nat_le, nat_lt};

/// Up to how many searches are made however few tiles the plane has.
const FEW_SEARCHES: usize = 64;

/// How many tiles of the plane there are at least for each search, where there are more.
const TILES_FOR_EACH: usize = 4;

/// Returns whether so many searches would be made that one look at each tile of the plane takes less.
pub(crate) fn are_many(searches: usize, tiles: usize) -> bool
    ensures { result ≡ (nat_lt FEW_SEARCHES searches && nat_le (tiles / TILES_FOR_EACH) searches) }
{
    FEW_SEARCHES < searches && tiles / TILES_FOR_EACH <= searches
}

/// How many more steps searches may take: tiles that they go through or look at.
#[derive(Drop)]
pub(crate) struct Steps {
    left: usize,
}

impl Steps {
    /// Creates a bound of this many steps.
    pub(crate) fn up_to(most: usize) -> Steps
        ensures { result.left ≡ most }
    {
        Steps { left: most }
    }

    /// Takes one step.
    pub(crate) fn take(&mut self)
        ensures { self.new.left ≡ self.old.left - 1 }
    {
        self.left = self.left.saturating_sub(1);
    }

    /// Returns whether no step is left.
    pub(crate) fn are_spent(&self) -> bool
        ensures { result ≡ (self.now.left == 0) }
    {
        self.left == 0
    }
}
