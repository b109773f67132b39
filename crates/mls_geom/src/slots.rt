//! Painting the slots of a row.
ghost use Rattle.std.specs.Prelude.{◌≡◌, ℕ, ◌+◌, None, length, replicate};
ghost use Rattle.std.specs.List.Sorted.{IsStrictlyIncreasing};
ghost use Rattle.mls_geom.specs.Locality.{laid};
ghost use Rattle.mls_geom.specs.Sweep.Rows.{AreActive};
ghost use Rattle.mls_geom.specs.Sweep.Slots.{AreBetweenLines, AreSlotKinds, HaveBytes};

use crate::Piece;
use crate::lines::find_line;
use mls_kinds::Kind;

/// Paints the slots between the lines, in the row whose pieces are the active ones. A later piece wins, and a slot of no
/// piece stays as it is.
pub(crate) fn paint_slots(
    pieces: &[Piece],
    active: &[usize],
    lines: &[u32],
    kinds: &mut [Option<Kind>],
)
    requires count { length lines.now ≡ length kinds.old + 1 }
    requires blank { kinds.old ≡ replicate (length kinds.old) None }
    requires ascending { IsStrictlyIncreasing lines.now }
    requires between { AreBetweenLines lines.now pieces.now active.now }
    ensures len { length kinds.new ≡ length kinds.old }
    ensures kinds { (y : ℕ) → AreActive pieces.now y active.now
        → AreSlotKinds (laid pieces.now) y lines.now kinds.new }
    ensures bytes { HaveBytes kinds.new }
{
    let mut near = 0;
    for i in active {
        let piece = &pieces[*i];
        let edges = piece.area();
        let first = find_line(lines, edges.left, near).unwrap();
        let end = find_line(lines, edges.right, first).unwrap();
        let kind = Some(piece.kind);
        kinds[first..end].fill(kind);
        near = end;
    }
}
