//! The reading of a whole cell file.
ghost use Rattle.std.specs.Prelude.{All, IfOk};
ghost use Rattle.mls_library.specs.CellFiles.{reading_of};
ghost use Rattle.mls_library.specs.Faults.{ReadsUnlessMemory};
ghost use Rattle.mls_library.specs.Inner.{IsTypeOn};

use crate::cell_rect::CellRect;
use crate::lines::line_meaning;
use crate::meaning::Meaning;
use crate::place::Place;
use crate::{CellFault, CellFaultKind};
use mls_tech::Tech;
use mls_text::next_line;
use std::alloc::Global;

/// Reads a cell file, and returns its rectangles in order.
///
/// # Errors
///
/// The first fault of the file, or `Memory` if memory runs out before it is found.
#[tactic(auto, unfolding(crate::specs::CellFiles::reading_of))]
pub(crate) fn read_cell(
    alloc: Global,
    tech: &Tech,
    bytes: &[u8],
) -> Result<Vec<CellRect>, CellFault>
    ensures value { ReadsUnlessMemory (λ rects. rects.items) result (reading_of tech.now bytes.now) }
    ensures known { IfOk result (λ rects. All (λ rect. IsTypeOn tech.now rect.piece.kind rect.plane) rects.items) }
{
    let mut rects = Vec::new(alloc);
    let mut place = Place::Start;
    let mut number = 0;
    let mut rest = bytes;
    while let Some((line, after)) = next_line(rest) {
        rest = after;
        number += 1;
        match line_meaning(tech, &place, line) {
            Ok(Meaning::Nothing) => {}
            Ok(Meaning::Enters(next)) => place = next,
            Ok(Meaning::Paints(rect)) => rects.push(rect)?,
            Ok(Meaning::Ends) => return Ok(rects),
            Err(kind) => return Err(CellFault { line: number, kind }),
        }
    }
    Err(CellFault {
        line: number,
        kind: CellFaultKind::Form,
    })
}
