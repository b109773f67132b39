//! What can be looked up of a session outside its journal.
ghost use Rattle.std.specs.Prelude.{◌≡◌, ◌<◌, ◌^◌, IfOk, length, All};
ghost use Rattle.mls_paint.specs.Planes.{HasStrips, layout_in};
ghost use Rattle.mls_session.specs.Looks.{tile_counts};

use crate::{Entry, Listing, Refusal};
use mls_edgerule::RuleSet;
use mls_errorplane::Violation;
use mls_layout::CellUse;
use mls_paint::tile_count;
use mls_stitch::Plane;
use mls_tilepool::Pool;
use std::alloc::{AllocError, Global};
use std::marker::Model;

/// A question about a session as it is now. It is no command: nothing changes, and the journal has no entry of it.
#[derive(Clone, Copy)]
pub enum Look {
    /// The text of the own paint, as a cell file.
    Save,
    /// The rules that forbid some square between these lines of the world.
    Why {
        left: i32,
        bottom: i32,
        right: i32,
        top: i32,
    },
    /// How far the session has come, and how many tiles its planes have.
    Status,
    /// The cells that are placed.
    Uses,
    /// The text of the layout with the areas that await checking and the marks, as a cell file.
    Marks,
    /// The text of the marks and of the areas that await checking between these lines of the world, as a cell file.
    Errors {
        left: i32,
        bottom: i32,
        right: i32,
        top: i32,
    },
    /// What each rule forbids between these lines of the world.
    Violations {
        left: i32,
        bottom: i32,
        right: i32,
        top: i32,
    },
    /// The journal, and how many check steps were done since its last entry.
    Journal,
}

/// The answer to a look.
#[derive(Drop)]
pub enum Looked {
    /// The number of lines of the own paint's text.
    Saved(usize),
    /// The rules that forbid some square of the rectangle.
    Why(RuleSet),
    /// How far the session has come.
    Status(Status),
    /// The cells that are placed, in the order in which they were.
    Uses(Listing<CellUse>),
    /// The number of lines of the text of the layout with the areas that await checking and the marks.
    Marked(usize),
    /// The number of lines of the text of the marks and of the areas that await checking in the rectangle.
    Errors(usize),
    /// What each rule forbids in the rectangle, by rising number.
    Violations(Listing<Violation>),
    /// The journal, and how many check steps were done since its last entry.
    Journal(JournalCopy),
    /// There is no such rectangle, a plane of the layout has more tiles than are listed of one, the rules forbid squares
    /// in more strips than are listed, or memory ran out.
    Refused(Refusal),
}

/// How far a session has come, and how many tiles its planes have.
#[derive(Drop)]
pub struct Status {
    /// How many entries the journal has.
    pub entries: usize,
    /// How many it may have.
    pub limit: usize,
    /// How many check steps were done since the last entry.
    pub steps: u64,
    /// How many areas await checking.
    pub areas: usize,
    /// How many tiles each plane of the own paint has, in the order of the planes.
    pub tiles: Listing<u32>,
    /// How many tiles each plane may have.
    pub quota: u32,
    /// How many tiles the error plane has.
    pub mark_tiles: u32,
}

/// A journal, and how many check steps were done since its last entry.
#[derive(Drop)]
pub struct JournalCopy {
    entries: Vec<Entry>,
    steps: u64,
}

impl Model for JournalCopy {
    ghost use Rattle.mls_session.specs.JournalCopies.{JournalCopy};

    ghost Value = { JournalCopy };

    ghost view = { λ copy. record { entries = copy.entries.items; steps = copy.steps } };
}

impl JournalCopy {
    /// Copies the entries of a journal, beside how many check steps were done since the last one.
    pub(crate) fn copy_of(
        alloc: Global,
        entries: &[Entry],
        steps: u64,
    ) -> Result<JournalCopy, AllocError>
        ensures { IfOk result (λ copy. copy ≡ record { entries = entries.now; steps = steps }) }
    {
        Ok(JournalCopy {
            entries: Vec::from_slice(alloc, entries)?,
            steps,
        })
    }

    /// Returns the entries.
    pub fn entries(&self) -> &[Entry]
        ensures { result.now ≡ self.now.entries }
    {
        self.entries.as_slice()
    }

    /// Returns how many check steps were done since the last entry.
    pub fn steps(&self) -> u64
        ensures value { result ≡ self.now.steps }
        ensures fits { result < 2 ^ 64 }
    {
        self.steps
    }
}

/// Counts the tiles of each of these planes.
pub(crate) fn tile_counts(
    alloc: Global,
    pool: &Pool,
    planes: &[Plane],
) -> Result<Listing<u32>, AllocError>
    requires { All (λ owner. HasStrips pool.now owner) planes.now }
    ensures { IfOk result (λ tiles. tiles
        ≡ tile_counts (length planes.now) (layout_in pool.now planes.now)) }
{
    let mut counts = Vec::with_capacity(alloc, planes.len())?;
    for plane in planes {
        counts.push_reserved(tile_count(pool, plane));
    }
    Ok(Listing::new(counts))
}
