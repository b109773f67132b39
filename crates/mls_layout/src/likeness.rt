//! How squares of a rectangle show the same.

/// In which squares of a rectangle a plane shows the same kind.
#[derive(Clone, Copy)]
pub enum Likeness {
    /// In all of them.
    OneKind,
    /// In those of one column, so that what is drawn are bars as high as the rectangle.
    Columns,
    /// In those of one row, so that what is drawn are bars as wide as the rectangle.
    Rows,
}
