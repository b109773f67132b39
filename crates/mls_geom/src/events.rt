//! Where pieces begin and end, as a sweep upward meets them.
ghost use Rattle.std.specs.Prelude.{◌≡◌, ◌≤◌, ◌<◌, ◌++◌, [], ◌∷◌, IsTrue, OnOk};
ghost use Rattle.mls_geom.specs.Sweep.Events.{AreEvents, line_of};
ghost use Rattle.mls_geom.specs.World.{world};

use crate::Piece;
use crate::chain::{GaveUp, Step};

/// A piece, and the line at which it begins or ends.
#[derive(Clone, Copy)]
pub(crate) struct Event {
    pub(crate) line: u32,
    pub(crate) piece: u32,
}

impl Step {
    /// Returns the line at which a piece does this.
    fn line(self, piece: &Piece) -> u32
        ensures line { result ≡ line_of self piece.now }
        ensures in_world { world.bottom ≤ result }
    {
        let edges = piece.rect.area();
        match self {
            Step::Begins => edges.bottom,
            Step::Ends => edges.top,
        }
    }
}

/// Lists where the pieces begin, or where they end, in order.
pub(crate) fn list_events(
    pieces: &[Piece],
    step: Step,
    events: &mut Vec<Event>,
) -> Result<(), GaveUp>
    ensures { OnOk result (AreEvents (line_of step) world.bottom pieces.now events.new.items) }
{
    events.clear();
    let Ok(_) = u32::try_from(pieces.len()) else {
        return Err(GaveUp);
    };
    if events.capacity() < pieces.len() {
        return Err(GaveUp);
    }
    for (i, piece) in pieces.iter().enumerate() {
        events.push_reserved(Event {
            line: step.line(piece),
            piece: i as u32,
        });
    }
    events.sort_unstable_by_key(|event| u64::from(event.line) << 32 | u64::from(event.piece));
    let ordered = events.is_sorted_by(|event, next| {
        event.line < next.line || (event.line == next.line && event.piece < next.piece)
    });
    if ordered { Ok(()) } else { Err(GaveUp) }
}
