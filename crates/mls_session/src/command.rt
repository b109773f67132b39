//! What a user asks of a session.
ghost use Rattle.std.specs.Prelude.{◌≡◌};
ghost use Rattle.mls_session.specs.Designs as spec;

use mls_errorplane::Checked;
use mls_kinds::{Kind, KindSet};
use mls_library::CellId;

/// A command of a session.
#[derive(Clone, Copy, Debug, PartialEq, Eq)]
pub enum Command {
    /// Sets the box to the rectangle between these lines.
    Box {
        left: i32,
        bottom: i32,
        right: i32,
        top: i32,
    },
    /// Paints the box with a type, or with `None` if no type has the name that the user wrote.
    Paint(Option<Kind>),
    /// Erases these types in the box, on each plane, or `None` if some name that the user wrote is of no type.
    Erase(Option<KindSet>),
    /// Paints the squares of a cell that aren't space, moved to the right by `dx` and up by `dy`, on each plane. The
    /// cell is `None` if none has the name that the user wrote.
    Dump {
        cell: Option<CellId>,
        dx: i32,
        dy: i32,
    },
    /// Places a cell, moved to the right by `dx` and up by `dy`, below the own paint and over the cells that were
    /// placed before. The cell is `None` if none has the name that the user wrote.
    GetCell {
        cell: Option<CellId>,
        dx: i32,
        dy: i32,
    },
    /// Asks for the types in the box, in the layout as it is now.
    What,
    /// Asks for the number of lines of the own paint's text as a cell file.
    Save,
    /// Adds the box to the areas that await checking.
    Check,
    /// Checks all areas that await checking, piece by piece.
    CatchUp,
    /// Asks for the rules that forbid some square of the box, in the layout as it is now.
    Why,
    /// Asks for the number of marked squares, and of areas that await checking.
    Count,
}

impl Command {
    /// Returns where marks are known to be right after the command, if they were so here before: there, if it leaves
    /// the layout and the marks as they are, whatever its reply, and else nowhere.
    pub fn known_after(&self, checked: &Option<Checked>) -> Option<Checked>
        ensures { result ≡ spec.known_after self.now checked.now }
    {
        match self {
            Command::Box { .. }
            | Command::What
            | Command::Save
            | Command::Check
            | Command::Why
            | Command::Count => *checked,
            _ => None,
        }
    }
}
