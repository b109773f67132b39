//! Commands that several tests make.
use mls_kinds::Kind;
use mls_session::Command;

/// The number of poly and of n-diffusion in technology M.
pub const POLY: u8 = 1;

pub const DIFFUSION: u8 = 2;

/// A rectangle that is painted with a type.
#[derive(Clone, Copy)]
pub struct Bar {
    pub sides: [i32; 4],
    pub kind: u8,
}

impl Bar {
    /// Returns the commands that set the box to the rectangle and paint it.
    pub fn commands(self) -> [Command; 2] {
        let [left, bottom, right, top] = self.sides;
        let set = Command::Box {
            left,
            bottom,
            right,
            top,
        };
        [set, Command::Paint(Some(Kind::new(self.kind)))]
    }
}

/// A bar of poly, 1 by 10 squares, all of which are forbidden.
pub const THIN_BAR: Bar = Bar {
    sides: [0, 0, 1, 10],
    kind: POLY,
};

/// How many squares the thin bar has.
pub const THIN_BAR_ERRORS: u64 = 10;
