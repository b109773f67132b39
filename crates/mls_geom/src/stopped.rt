//! Why a sweep stopped.
ghost use Rattle.std.specs.Prelude.{◌≡◌};

use crate::chain::GaveUp;

/// Why a sweep stopped: there are more strips than its limit, or a list was full.
#[derive(Clone, Copy)]
pub(crate) enum Stopped {
    TooMany,
    GaveUp,
}

impl From<GaveUp> for Stopped {
    ghost use Rattle.mls_geom.specs.declared.stopped.Stopped.TheVariants.{GaveUp as gave_up};

    ghost from_gives = { λ _ e. e ≡ gave_up };

    fn from(_: GaveUp) -> Stopped {
        Stopped::GaveUp
    }
}
