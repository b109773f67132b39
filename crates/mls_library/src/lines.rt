//! What each kind of line of a cell file means.
ghost use Rattle.std.specs.Prelude.{◌≡◌, true, IfOk};
ghost use Rattle.mls_library.specs.Inner.{IsKnownMeaning, IsKnownPlace, IsTypeOn};
ghost use Rattle.mls_library.specs.CellFiles as spec;
ghost use Rattle.mls_text.specs.Words.{words_of};

use crate::CellFaultKind;
use crate::cell_rect::CellRect;
use crate::integer::{is_integer, world_line};
use crate::meaning::Meaning;
use crate::place::Place;
use mls_geom::{Piece, Rect};
use mls_kinds::{Kind, PlaneNumber};
use mls_tech::Tech;
use mls_text::Words;

/// Returns what a line in this place means.
#[tactic(auto, unfolding(crate::specs::CellFiles::line_meaning))]
pub(crate) fn line_meaning(
    tech: &Tech,
    place: &Place,
    line: &[u8],
) -> Result<Meaning, CellFaultKind>
    ensures value { result ≡ spec.line_meaning tech.now place.now (words_of line.now) }
    ensures known { IsKnownPlace (IsTypeOn tech.now) place.now → IfOk result (IsKnownMeaning (IsTypeOn tech.now)) }
{
    let mut words = Words::new(line);
    let Some(keyword) = words.next() else {
        return Ok(Meaning::Nothing);
    };
    if keyword == b"<<".as_slice() && !is_start(place) {
        section_line(tech, &mut words)
    } else {
        plain_line(place, keyword, &mut words)
    }
}

/// Returns whether no line with words stands before the place.
fn is_start(place: &Place) -> bool
    ensures { result ≡ spec.is_start place.now }
{
    match *place {
        Place::Start => true,
        _ => false,
    }
}

/// Returns what a line that begins no section means.
#[tactic(auto, unfolding(crate::specs::CellFiles::plain_line))]
fn plain_line(
    place: &Place,
    keyword: &[u8],
    words: &mut Words<'_>,
) -> Result<Meaning, CellFaultKind>
    ensures { result ≡ spec.plain_line place.now keyword.now words.old }
{
    match *place {
        Place::Start => first_line(keyword, words),
        Place::Header => header_line(keyword, words),
        Place::Skipped { with_uses } => skipped_line(with_uses, keyword),
        Place::Layer { kind, plane } => layer_line(kind, plane, keyword, words),
    }
}

/// Returns what the first line with words means.
#[tactic(auto, unfolding(crate::specs::CellFiles::first_line))]
fn first_line(keyword: &[u8], words: &mut Words<'_>) -> Result<Meaning, CellFaultKind>
    ensures { result ≡ spec.first_line keyword.now words.old }
{
    if words.next().is_none() && keyword == b"magic".as_slice() {
        Ok(Meaning::Enters(Place::Header))
    } else {
        Err(CellFaultKind::Form)
    }
}

/// Returns what a line with these words after `<<` means.
#[tactic(auto, unfolding(crate::specs::CellFiles::section_line))]
fn section_line(tech: &Tech, words: &mut Words<'_>) -> Result<Meaning, CellFaultKind>
    ensures value { result ≡ spec.section_line tech.now words.old }
    ensures known { IfOk result (IsKnownMeaning (IsTypeOn tech.now)) }
{
    let (Some(name), Some(closing), None) = (words.next(), words.next(), words.next()) else {
        return Err(CellFaultKind::Form);
    };
    if closing != b">>".as_slice() {
        return Err(CellFaultKind::Form);
    }
    section_named(tech, name)
}

/// Returns what the line of a section with this name means.
#[tactic(auto, unfolding(crate::specs::CellFiles::section_named))]
fn section_named(tech: &Tech, name: &[u8]) -> Result<Meaning, CellFaultKind>
    ensures value { result ≡ spec.section_named tech.now name.now }
    ensures known { IfOk result (IsKnownMeaning (IsTypeOn tech.now)) }
{
    if name == b"end".as_slice() {
        Ok(Meaning::Ends)
    } else if is_text_section(name) {
        Ok(Meaning::Enters(Place::Skipped { with_uses: true }))
    } else if is_check_section(name) {
        Ok(Meaning::Enters(Place::Skipped { with_uses: false }))
    } else {
        layer_named(tech, name)
    }
}

/// Returns whether a section of this name is skipped with all its lines.
fn is_text_section(name: &[u8]) -> bool
    ensures { result ≡ spec.is_text_section name.now }
{
    name == b"labels".as_slice()
        || name == b"properties".as_slice()
        || name == b"elements".as_slice()
}

/// Returns whether a section of this name is skipped but for lines that begin with `use`.
fn is_check_section(name: &[u8]) -> bool
    ensures { result ≡ spec.is_check_section name.now }
{
    name == b"checkpaint".as_slice()
        || name == b"checksubcell".as_slice()
        || name.starts_with(b"error_")
}

/// Returns what the line of a type's section means, if there is such a type other than `space`.
#[tactic(auto, unfolding(crate::specs::CellFiles::layer_named))]
fn layer_named(tech: &Tech, name: &[u8]) -> Result<Meaning, CellFaultKind>
    ensures value { result ≡ spec.layer_named tech.now name.now }
    ensures known { IfOk result (IsKnownMeaning (IsTypeOn tech.now)) }
{
    let Some(kind) = tech.type_of(name) else {
        return Err(CellFaultKind::UnknownLayer);
    };
    let Some(plane) = tech.plane_of(kind) else {
        return Err(CellFaultKind::UnknownLayer);
    };
    Ok(Meaning::Enters(Place::Layer { kind, plane }))
}

/// Returns what a line before the first section means.
#[tactic(auto, unfolding(crate::specs::CellFiles::header_line))]
fn header_line(keyword: &[u8], words: &mut Words<'_>) -> Result<Meaning, CellFaultKind>
    ensures { result ≡ spec.header_line keyword.now words.old }
{
    if keyword == b"use".as_slice() {
        Err(CellFaultKind::Hierarchy)
    } else if keyword == b"tri".as_slice() {
        Err(CellFaultKind::Triangle)
    } else if keyword == b"magscale".as_slice() {
        scale_line(words)
    } else {
        Ok(Meaning::Nothing)
    }
}

/// Returns what a line with these words after `magscale` means.
#[tactic(auto, unfolding(crate::specs::CellFiles::scale_line))]
fn scale_line(words: &mut Words<'_>) -> Result<Meaning, CellFaultKind>
    ensures { result ≡ spec.scale_line words.old }
{
    let (Some(x), Some(y), None) = (words.next(), words.next(), words.next()) else {
        return Err(CellFaultKind::Scale);
    };
    if x == b"1".as_slice() && y == b"1".as_slice() {
        Ok(Meaning::Nothing)
    } else {
        Err(CellFaultKind::Scale)
    }
}

/// Returns what a line of a section that is skipped means.
#[tactic(auto, unfolding(crate::specs::CellFiles::skipped_line))]
fn skipped_line(with_uses: bool, keyword: &[u8]) -> Result<Meaning, CellFaultKind>
    ensures { result ≡ spec.skipped_line with_uses keyword.now }
{
    if keyword == b"use".as_slice() && !with_uses {
        Err(CellFaultKind::Hierarchy)
    } else {
        Ok(Meaning::Nothing)
    }
}

/// Returns what a line of a type's section means.
#[tactic(auto, unfolding(crate::specs::CellFiles::layer_line))]
fn layer_line(
    kind: Kind,
    plane: PlaneNumber,
    keyword: &[u8],
    words: &mut Words<'_>,
) -> Result<Meaning, CellFaultKind>
    ensures { result ≡ spec.layer_line kind plane keyword.now words.old }
{
    if keyword == b"rect".as_slice() {
        rect_line(kind, plane, words)
    } else if keyword == b"use".as_slice() {
        Err(CellFaultKind::Hierarchy)
    } else if keyword == b"tri".as_slice() {
        Err(CellFaultKind::Triangle)
    } else {
        Err(CellFaultKind::Form)
    }
}

/// Returns what a line with these words after `rect` means in a type's section.
#[tactic(auto, unfolding(crate::specs::CellFiles::rect_line))]
fn rect_line(
    kind: Kind,
    plane: PlaneNumber,
    words: &mut Words<'_>,
) -> Result<Meaning, CellFaultKind>
    ensures { result ≡ spec.rect_line kind plane words.old }
{
    let (Some(left), Some(bottom), Some(right), Some(top), None) = (
        words.next(),
        words.next(),
        words.next(),
        words.next(),
        words.next(),
    ) else {
        return Err(CellFaultKind::Form);
    };
    if is_integer(left) && is_integer(bottom) && is_integer(right) && is_integer(top) {
        rect_between(kind, plane, left, bottom, right, top)
    } else {
        Err(CellFaultKind::Form)
    }
}

/// Returns what a rectangle between these integers means.
#[tactic(auto, unfolding(crate::specs::CellFiles::rect_between))]
fn rect_between(
    kind: Kind,
    plane: PlaneNumber,
    left: &[u8],
    bottom: &[u8],
    right: &[u8],
    top: &[u8],
) -> Result<Meaning, CellFaultKind>
    requires left { spec.is_integer left.now ≡ true }
    requires bottom { spec.is_integer bottom.now ≡ true }
    requires right { spec.is_integer right.now ≡ true }
    requires top { spec.is_integer top.now ≡ true }
    ensures { result ≡ spec.rect_between kind plane left.now bottom.now right.now top.now }
{
    let left = world_line(left)?;
    let bottom = world_line(bottom)?;
    let right = world_line(right)?;
    let top = world_line(top)?;
    match Rect::new(left, bottom, right, top) {
        Ok(rect) => Ok(Meaning::Paints(CellRect {
            plane,
            piece: Piece { rect, kind },
        })),
        Err(_) => Err(CellFaultKind::Form),
    }
}
