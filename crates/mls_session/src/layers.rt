//! The strips of a layout's planes, listed one plane after another, and the text of a layout with its marks.
ghost use Rattle.std.specs.Prelude.{◌≡◌, ◌^◌, ◌≤◌, ◌++◌, IfErr, IfOk, OnErr, OnOk, [], false, true, length, All};
ghost use Rattle.std.specs.Option.{option_map_or};
ghost use Rattle.mls_session.specs.Common.{Extends, FitsWorkspace, HasPlane, IfTooMany, IsHome, Layout, Picture, flat_layout, layers_lines, marked_line_count, marked_text, plane_of_type, strips_of, strips_on, text_of, type_numbers, world};
ghost use Rattle.mls_session.specs.Inner.{ListsPlanes};
ghost use Rattle.mls_session.specs.Own.{exceeds_tiles};

use mls_geom::{Piece, Rect};
use mls_kinds::Kind;
use mls_layout::{FlatStrips, Unlisted, Uses, Workspace, flat_strips};
use mls_library::{
    dirty_line_count, layer_line_count, mark_line_count, push_dirty, push_end, push_header,
    push_layer, push_marks,
};
use mls_stitch::Plane;
use mls_tech::Tech;
use std::alloc::{AllocError, Global};

/// The lines of each text that are in no section with rectangles: the first two, and the last.
pub(crate) const OTHER_LINES: usize = 3;

/// Lists the strips of each plane of the layout on these planes with the uses.
///
/// Fails where a plane has more than `limit` strips, or memory runs out.
pub(crate) fn list_layers(
    alloc: Global,
    planes: &[Plane],
    uses: &Uses<'_>,
    limit: usize,
    workspace: &mut Workspace,
) -> Result<Vec<FlatStrips>, Unlisted>
    requires planes { All (HasPlane workspace.old.pool) planes.now }
    requires planes_fit { All (FitsWorkspace workspace.old.pool) planes.now }
    requires cells { IsHome workspace.old.pool uses.now.library.now }
    ensures listed { IfOk result (λ layers.
        ListsPlanes (flat_layout workspace.old.pool uses.now planes.now) layers.items) }
    ensures count { IfOk result (λ layers. length layers.items ≡ length planes.now) }
    ensures few { OnOk result (exceeds_tiles limit (length planes.now)
        (flat_layout workspace.old.pool uses.now planes.now) ≡ false) }
    ensures too_many { IfErr result (λ fault. IfTooMany fault (exceeds_tiles limit (length planes.now)
        (flat_layout workspace.old.pool uses.now planes.now) ≡ true)) }
    ensures pool { workspace.new.pool ≡ workspace.old.pool }
{
    let mut layers = Vec::with_capacity(alloc, planes.len())?;
    for number in 0..planes.len() {
        let strips = flat_strips(alloc, number, &planes[number], uses, limit, workspace)?;
        layers.push_reserved(strips);
    }
    Ok(layers)
}

/// Returns the strips of a type's plane, where these are those of each plane.
fn strips_for<'a>(tech: &Tech, layers: &'a [FlatStrips], kind: Kind) -> &'a [Piece]
    requires count { length layers.now ≡ tech.now.plane_count }
    ensures { (layout : Layout) → ListsPlanes layout layers.now
        → result.now ≡ option_map_or (strips_on layout) (plane_of_type tech.now.type_planes kind) [] }
{
    match tech.plane_of(kind) {
        Some(plane) => layers[plane.index()].as_slice(),
        None => &[],
    }
}

/// Appends the sections of all types. Out of memory, leaves the beginning of them.
fn push_layers(tech: &Tech, layers: &[FlatStrips], out: &mut Vec<u8>) -> Result<(), AllocError>
    requires count { length layers.now ≡ tech.now.plane_count }
    ensures text { OnOk result ((layout : Layout) → ListsPlanes layout layers.now → out.new.items
        ≡ out.old.items ++ text_of (layers_lines tech.now (strips_on layout) (type_numbers tech.now))) }
    ensures kept { Extends out.old.items out.new.items }
{
    let types = tech.types() as u8;
    for number in 1..types + 1 {
        let kind = Kind::new(number);
        push_layer(tech, kind, strips_for(tech, layers, kind), out)?;
    }
    Ok(())
}

/// Returns the number of lines of the sections of all types.
fn count_layers(tech: &Tech, layers: &[FlatStrips]) -> usize
    requires count { length layers.now ≡ tech.now.plane_count }
    requires listed { (layout : Layout) × ListsPlanes layout layers.now }
    ensures count { (layout : Layout) → ListsPlanes layout layers.now
        → result ≡ length (layers_lines tech.now (strips_on layout) (type_numbers tech.now)) }
    ensures few { result ≤ 2 ^ 49 }
{
    let types = tech.types() as u8;
    let mut lines = 0;
    for number in 1..types + 1 {
        let kind = Kind::new(number);
        lines += layer_line_count(strips_for(tech, layers, kind), kind);
    }
    lines
}

/// Appends the text of a layout whose planes have these strips, with the areas that await checking, and the marks by
/// their strips. Out of memory, leaves the beginning of it.
fn push_marked(
    tech: &Tech,
    layers: &[FlatStrips],
    areas: &[Rect],
    marks: &[Piece],
    out: &mut Vec<u8>,
) -> Result<(), AllocError>
    requires count { length layers.now ≡ tech.now.plane_count }
    ensures text { OnOk result ((layout : Layout) (picture : Picture) → ListsPlanes layout layers.now
        → marks.now ≡ strips_of world picture
        → out.new.items ≡ out.old.items ++ marked_text tech.now layout areas.now picture) }
    ensures kept { OnErr result (Extends out.old.items out.new.items) }
{
    push_header(tech, out)?;
    push_dirty(areas, out)?;
    push_marks(marks, out)?;
    push_layers(tech, layers, out)?;
    push_end(out)
}

/// Appends such a text, and returns the number of its lines. Out of memory, appends nothing.
pub(crate) fn add_marked(
    tech: &Tech,
    layers: &[FlatStrips],
    areas: &[Rect],
    marks: &[Piece],
    out: &mut Vec<u8>,
) -> Result<usize, AllocError>
    requires count { length layers.now ≡ tech.now.plane_count }
    requires listed { (layout : Layout) × ListsPlanes layout layers.now }
    requires marks { (picture : Picture) × (marks.now ≡ strips_of world picture) }
    requires areas { length areas.now ≤ 65 }
    ensures count { IfOk result (λ lines. (layout : Layout) (picture : Picture) → ListsPlanes layout layers.now
        → marks.now ≡ strips_of world picture
        → lines ≡ marked_line_count tech.now layout areas.now picture) }
    ensures text { OnOk result ((layout : Layout) (picture : Picture) → ListsPlanes layout layers.now
        → marks.now ≡ strips_of world picture
        → out.new.items ≡ out.old.items ++ marked_text tech.now layout areas.now picture) }
    ensures refused { OnErr result (out.new.items ≡ out.old.items) }
{
    let len = out.len();
    if let Err(error) = push_marked(tech, layers, areas, marks, out) {
        out.truncate(len);
        return Err(error);
    }
    let others = OTHER_LINES + dirty_line_count(areas) + mark_line_count(marks);
    Ok(others + count_layers(tech, layers))
}
