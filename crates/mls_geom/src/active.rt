//! The pieces that a sweep upward meets.
ghost use Rattle.std.specs.Prelude.{◌≡◌, ◌+◌, ◌<◌, ◌≤◌, filter, length, vec_len, vec_capacity};
ghost use Rattle.std.specs.List.Sorted.{IsNonDecreasingBy};
ghost use Rattle.mls_geom.specs.Sweep.ActivePieces.{ArePartedAt, AreStarts, AddsStarted, ends_above};
ghost use Rattle.mls_geom.specs.Sweep.Rows.{AreActive};
ghost use Rattle.mls_geom.specs.World.{AreLegal};

use crate::Piece;

/// The bottom line of a piece, and the index of the piece.
#[derive(Clone, Copy)]
pub(crate) struct Start {
    pub(crate) bottom: u32,
    pub(crate) piece: usize,
}

/// Lists where the pieces start, from the bottom up.
pub(crate) fn list_starts(pieces: &[Piece], starts: &mut Vec<Start>)
    requires { length pieces.now ≤ vec_capacity starts.old }
    ensures starts { AreStarts pieces.now starts.new.items }
    ensures room { vec_capacity starts.new ≡ vec_capacity starts.old }
{
    starts.clear();
    for (i, piece) in pieces.iter().enumerate() {
        let edges = piece.rect.area();
        starts.push_reserved(Start {
            bottom: edges.bottom,
            piece: i,
        });
    }
    starts.sort_unstable_by_key(|start| start.bottom);
}

/// Returns whether the piece at index `i` ends above the line.
fn ends_above(pieces: &[Piece], line: u32, i: usize) -> bool
    ensures { result ≡ ends_above pieces.now line i }
{
    pieces
        .get(i)
        .is_some_and(|piece| line < piece.rect.area().top)
}

/// Fills `active` with the indices of the pieces that have squares in the row above the line, in order, and
/// returns the starts further up.
pub(crate) fn activate<'a>(
    pieces: &[Piece],
    waiting: &'a [Start],
    line: u32,
    active: &mut Vec<usize>,
) -> &'a [Start]
    requires legal { AreLegal pieces.now }
    requires parted { ArePartedAt line pieces.now active.old.items waiting.now }
    requires room { vec_len active.old + length waiting.now ≤ vec_capacity active.old }
    ensures active { AreActive pieces.now line active.new.items }
    ensures parted { ArePartedAt (line + 1) pieces.now active.new.items result.now }
    ensures len { vec_len active.new + length result.now
        ≤ vec_len active.old + length waiting.now }
    ensures room { vec_capacity active.new ≡ vec_capacity active.old }
{
    active.retain(|i| ends_above(pieces, line, *i));
    let reached = waiting.partition_point(|start| start.bottom <= line);
    let (started, rest) = waiting.split_at(reached);
    for start in started {
        active.push_reserved(start.piece);
    }
    active.sort_unstable();
    rest
}
