//! The writing of cell files.
ghost use Rattle.std.specs.Prelude.{◌≡◌, ℕ, List, ◌+◌, ◌++◌, ◌∷◌, ◌==◌, ◌≤◌, ◌<◌, [], IfSome, OnErr, OnOk, count_by, length, vec_capacity, vec_len};
ghost use Rattle.std.specs.Fmt.{signed_decimal};
ghost use Rattle.mls_library.specs.SavedCells as spec;
ghost use Rattle.mls_tech.specs.Readings.{Tech};
ghost use Rattle.mls_text.specs.Lines.{IsUnbroken};

use itoa::Buffer;
use mls_geom::{Piece, Rect};
use mls_kinds::Kind;
use mls_tech::Tech;
use std::alloc::AllocError;

/// Returns how many lines the section of a type has in a cell file, where the type's plane has these strips.
pub fn layer_line_count(strips: &[Piece], kind: Kind) -> usize
    ensures { (tech : Tech) → result ≡ length (spec.layer_lines tech kind strips.now) }
{
    section_line_count(strips, kind)
}

/// Returns how many lines a section has with the strips of a kind among these.
pub(crate) fn section_line_count(strips: &[Piece], kind: Kind) -> usize
    ensures { (name : List ℕ) → result ≡ length (spec.section_lines name (spec.of_kind kind strips.now)) }
{
    match count_strips(strips, kind) {
        0 => 0,
        strips => strips + 1,
    }
}

/// Returns how many strips are of the kind.
fn count_strips(strips: &[Piece], kind: Kind) -> usize
    ensures value { result ≡ count_by (λ strip. strip.kind == kind) strips.now }
    ensures bound { result ≤ length strips.now }
{
    strips.iter().filter(|strip| strip.kind == kind).count()
}

/// Appends the first lines of a cell file.
///
/// # Errors
///
/// Out of memory, where the text had no room for all that is appended. What it had before is still in front of it.
#[tactic(auto, unfolding(crate::specs::SavedCells::text_of))]
pub fn push_header(tech: &Tech, out: &mut Vec<u8>) -> Result<(), AllocError>
    ensures text { OnOk result (out.new.items ≡ out.old.items ++ spec.text_of (spec.header_lines tech.now)) }
    ensures kept { OnErr result (spec.Extends out.old.items out.new.items) }
    ensures room { OnErr result (vec_capacity out.old
        < vec_len out.old + length (spec.text_of (spec.header_lines tech.now))) }
    ensures capacity { vec_capacity out.old ≤ vec_capacity out.new }
    // The technology's name stands on one line.
    ensures unbroken { IfSome tech.now.name IsUnbroken }
{
    let name = tech.name().unwrap_or(b"none");
    out.extend_from_slice(b"magic\ntech ")?;
    out.extend_from_slice(name)?;
    out.push(b'\n')?;
    Ok(())
}

/// Appends the section of a type, whose plane has these strips, by bottom and then left. There is none without a strip
/// of the type.
///
/// # Errors
///
/// Out of memory, where the text had no room for all that is appended. What it had before is still in front of it.
pub fn push_layer(
    tech: &Tech,
    kind: Kind,
    strips: &[Piece],
    out: &mut Vec<u8>,
) -> Result<(), AllocError>
    ensures { spec.Appends result out.old out.new (spec.text_of (spec.layer_lines tech.now kind strips.now)) }
{
    push_strip_section(first_name(tech, kind), kind, strips, out)
}

/// Appends the section of this name with the strips of a kind among these. There is none without a strip of the kind.
pub(crate) fn push_strip_section(
    name: &[u8],
    kind: Kind,
    strips: &[Piece],
    out: &mut Vec<u8>,
) -> Result<(), AllocError>
    ensures { spec.Appends result out.old out.new (spec.text_of
        (spec.section_lines name.now (spec.of_kind kind strips.now))) }
{
    if section_line_count(strips, kind) == 0 {
        return Ok(());
    }
    push_section(name, out)?;
    push_strips(kind, strips, out)
}

/// Returns the name that is written for a type.
fn first_name(tech: &Tech, kind: Kind) -> &[u8]
    ensures { result.now ≡ spec.first_name tech.now kind }
{
    tech.type_name(kind).unwrap_or(b"")
}

/// Appends the last line of a cell file.
///
/// # Errors
///
/// Out of memory, where the text had no room for all that is appended. What it had before is still in front of it.
pub fn push_end(out: &mut Vec<u8>) -> Result<(), AllocError>
    ensures { spec.Appends result out.old out.new (spec.text_of spec.end_lines) }
{
    push_section(b"end", out)
}

/// Appends the line that begins a section.
#[tactic(auto, unfolding(crate::specs::SavedCells::text_of))]
pub(crate) fn push_section(name: &[u8], out: &mut Vec<u8>) -> Result<(), AllocError>
    ensures { spec.Appends result out.old out.new (spec.text_of (spec.spaced (spec.section_words name.now) ∷ [])) }
{
    push_bytes(b"<< ", out)?;
    push_bytes(name, out)?;
    push_bytes(b" >>\n", out)
}

/// Appends bytes.
fn push_bytes(bytes: &[u8], out: &mut Vec<u8>) -> Result<(), AllocError>
    ensures { spec.Appends result out.old out.new bytes.now }
{
    out.extend_from_slice(bytes)
}

/// Appends a line for each strip of the kind.
fn push_strips(kind: Kind, strips: &[Piece], out: &mut Vec<u8>) -> Result<(), AllocError>
    ensures { spec.Appends result out.old out.new (spec.text_of (spec.strip_lines (spec.of_kind kind strips.now))) }
{
    for strip in strips {
        if strip.kind == kind {
            push_rect(strip.rect, out)?;
        }
    }
    Ok(())
}

/// Appends the line of a rectangle.
pub(crate) fn push_rect(rect: Rect, out: &mut Vec<u8>) -> Result<(), AllocError>
    ensures { spec.Appends result out.old out.new (spec.spaced (spec.rect_words rect) ++ 10 ∷ []) }
{
    push_bytes(b"rect ", out)?;
    push_coordinate(rect.left(), b' ', out)?;
    push_coordinate(rect.bottom(), b' ', out)?;
    push_coordinate(rect.right(), b' ', out)?;
    push_coordinate(rect.top(), b'\n', out)
}

/// Appends a coordinate and the byte that follows it.
fn push_coordinate(coordinate: i32, end: u8, out: &mut Vec<u8>) -> Result<(), AllocError>
    ensures { spec.Appends result out.old out.new (signed_decimal coordinate ++ end ∷ []) }
{
    let mut buffer = Buffer::new();
    push_bytes(buffer.format(coordinate).as_bytes(), out)?;
    push_bytes(&[end], out)
}
