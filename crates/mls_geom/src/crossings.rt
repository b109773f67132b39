//! How much work it is to find each row anew. It is a guess, which changes no strip.
use crate::Piece;

/// Pieces that cross no more bands than this, each on the whole, are little work. With 64 in its place 8,000 pieces within
/// each other that cross 30 bands take 105 ms instead of 22.
const SHALLOW: usize = 16;

/// One piece in so many shows how many bands they cross. With all of them an erase of 7,744 squares has 8 % more
/// instructions.
const SHOWN: usize = 8;

/// Returns whether many pieces lie beside each other in many of the bands that these lines part.
pub(crate) fn are_deep(lines: &[u32], pieces: &[Piece]) -> bool {
    let mut crossings: usize = 0;
    let mut shown: usize = 0;
    for piece in pieces.iter().step_by(SHOWN) {
        let edges = piece.rect.area();
        let below = lines.partition_point(|line| *line < edges.bottom);
        let above = lines.partition_point(|line| *line < edges.top);
        crossings = crossings.saturating_add(above.saturating_sub(below));
        shown = shown.saturating_add(1);
    }
    crossings / SHALLOW > shown
}
