//! What the lines of a cell file mean.
use crate::cell_rect::CellRect;
use crate::place::Place;

/// What a line of a cell file means for the lines after it.
#[derive(Clone, Copy, Debug, PartialEq, Eq)]
pub(crate) enum Meaning {
    /// Nothing.
    Nothing,
    /// The next line stands in this place.
    Enters(Place),
    /// The rectangle is painted over those before it.
    Paints(CellRect),
    /// The file ends.
    Ends,
}
