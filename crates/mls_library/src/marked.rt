//! The writing of what is known of the squares that rules forbid, beside a layout's own sections.
ghost use Rattle.std.specs.Prelude.{◌≡◌, ◌+◌, ◌^◌, ◌<◌, length};
ghost use Rattle.mls_geom.specs.Pictures.{Picture};
ghost use Rattle.mls_geom.specs.StripLists.{strips_of};
ghost use Rattle.mls_geom.specs.World.{world};
ghost use Rattle.mls_library.specs.MarkedCells as spec;
ghost use Rattle.mls_library.specs.SavedCells.{Appends, text_of};
ghost use Rattle.mls_tech.specs.Readings.{Tech};

use crate::CellTiles;
use crate::saved::{
    push_end, push_header, push_rect, push_section, push_strip_section, section_line_count,
};
use mls_geom::{Piece, Rect};
use mls_kinds::Kind;
use mls_tech::Tech;
use std::alloc::AllocError;

/// The number of the kind of a square that is marked.
const MARKED: u8 = 1;

/// The lines of a text that are in no section: the first two, and the last.
const OTHER_LINES: usize = 3;

/// Returns the most tiles that a plane may have together with the cells that are placed on it, where it may have a
/// quota of its own.
pub fn most_flat_tiles(quota: u32, limit: CellTiles) -> usize
    ensures { result ≡ spec.most_flat_tiles quota limit }
{
    quota.max(limit.get()) as usize
}

/// Returns how many lines the section of areas that await checking has in a cell file.
pub fn dirty_line_count(areas: &[Rect]) -> usize
    ensures { result ≡ length (spec.dirty_lines areas.now) }
{
    match areas.len() {
        0 => 0,
        areas => areas + 1,
    }
}

/// Returns how many lines the section of the marks has in a cell file, where their plane has these strips.
pub fn mark_line_count(strips: &[Piece]) -> usize
    ensures { result ≡ length (spec.mark_lines strips.now) }
{
    section_line_count(strips, Kind::new(MARKED))
}

/// Appends the section of areas that await checking, in their order. There is none without an area.
///
/// # Errors
///
/// Out of memory, where the text had no room for all that is appended. What it had before is still in front of it.
pub fn push_dirty(areas: &[Rect], out: &mut Vec<u8>) -> Result<(), AllocError>
    ensures { Appends result out.old out.new (text_of (spec.dirty_lines areas.now)) }
{
    if areas.is_empty() {
        return Ok(());
    }
    push_section(b"checkpaint", out)?;
    push_rects(areas, out)
}

/// Appends a line for each rectangle.
fn push_rects(rects: &[Rect], out: &mut Vec<u8>) -> Result<(), AllocError>
    ensures { Appends result out.old out.new (text_of (spec.rect_lines rects.now)) }
{
    for rect in rects {
        push_rect(*rect, out)?;
    }
    Ok(())
}

/// Appends the section of the marks, where their plane has these strips, by bottom and then left. There is none
/// without a mark.
///
/// # Errors
///
/// Out of memory, where the text had no room for all that is appended. What it had before is still in front of it.
pub fn push_marks(strips: &[Piece], out: &mut Vec<u8>) -> Result<(), AllocError>
    ensures { Appends result out.old out.new (text_of (spec.mark_lines strips.now)) }
{
    push_strip_section(b"error_p", Kind::new(MARKED), strips, out)
}

/// Returns how many lines the text of areas and marks alone has, where the plane of the marks has these strips.
pub fn error_line_count(areas: &[Rect], strips: &[Piece]) -> usize
    requires few { length areas.now + length strips.now < 2 ^ 63 }
    ensures { (tech : Tech) (marks : Picture) → strips.now ≡ strips_of world marks
        → result ≡ spec.marked_line_count tech spec.empty_layout areas.now marks }
{
    OTHER_LINES + dirty_line_count(areas) + mark_line_count(strips)
}

/// Appends the text of areas that await checking, in their order, and of marks, where their plane has these strips, by
/// bottom and then left. It is a cell file without any type's section, and reads as the empty layout.
///
/// # Errors
///
/// Out of memory, where the text had no room for all that is appended. What it had before is still in front of it.
pub fn push_errors(
    tech: &Tech,
    areas: &[Rect],
    strips: &[Piece],
    out: &mut Vec<u8>,
) -> Result<(), AllocError>
    ensures { (marks : Picture) → strips.now ≡ strips_of world marks
        → Appends result out.old out.new (spec.marked_text tech.now spec.empty_layout areas.now marks) }
{
    push_header(tech, out)?;
    push_dirty(areas, out)?;
    push_marks(strips, out)?;
    push_end(out)
}
