//! The list of the areas of a layout that await checking.
ghost use Rattle.std.specs.Prelude.{◌≡◌, ◌<◌, ◌≤◌, [], IfNone, IfOk, IfSome, length};
ghost use Rattle.std.specs.VecDeque.{deque_capacity, deque_len};
ghost use Rattle.mls_errorplane.specs.Common.{IsRectangleIn, world};
ghost use Rattle.mls_errorplane.specs.MarkPlanes.{most_pieces};
ghost use Rattle.mls_errorplane.specs.DirtyLists as spec;
ghost use Rattle.mls_errorplane.specs.DirtyLists.{IsDirtyList, added, dropped, first_piece_of, united, zone_round};
ghost use Rattle.mls_errorplane.specs.Stretches.{DropsAll, DropsKnown, IsNext, with_rest};

use crate::checked::Checked;
use crate::stretch::Stretch;
use mls_geom::Rect;
use mls_layout::MARK_ROOM;
use std::alloc::{AllocError, Global};
use std::collections::VecDeque;
use std::marker::Model;

/// A list to which an area is added becomes one area where it has more than these.
const MOST_AREAS: usize = 64;

/// A piece is at most this wide and this high.
pub(crate) const PIECE_SIDE: u32 = 256;

/// The areas of a layout that await checking, which are checked piece by piece, those added first before others.
///
/// All memory is reserved when the list is made.
#[derive(Drop)]
pub struct Dirty {
    areas: VecDeque<Rect>,
}

impl Model for Dirty {
    ghost use Rattle.std.specs.Prelude.{◌≤◌, List};
    ghost use Rattle.std.specs.VecDeque.{deque_capacity};
    ghost use Rattle.mls_geom.specs.Rects.{Rect};
    ghost use Rattle.mls_errorplane.specs.DirtyLists.{IsDirtyList};

    ghost Value = { List Rect };

    ghost view = { λ d. d.areas.items };

    ghost invariant = { λ d. IsDirtyList d.areas.items × (66 ≤ deque_capacity d.areas) };
}

impl Dirty {
    /// Creates an empty list, and reserves all memory that it takes.
    pub fn new(alloc: Global) -> Result<Dirty, AllocError>
        ensures { IfOk result (λ d. d ≡ []) }
    {
        Ok(Dirty {
            areas: VecDeque::with_capacity(alloc, MOST_AREAS + 2)?,
        })
    }

    /// Adds the squares of the world that lie in the rectangle or at most `halo` squares away from it, as an area at
    /// the end.
    ///
    /// If there are then more than 64 areas, the smallest rectangle round all of them takes their place.
    pub fn add(&mut self, rect: Rect, halo: u32)
        ensures { self.new ≡ added self.old (zone_round halo rect) }
    {
        let zone = rect.grow(halo);
        // For its contract alone: the zone lies in the world.
        zone.area();
        self.areas.push_back_reserved(zone);
        if self.areas.len() > MOST_AREAS {
            unite(&mut self.areas);
        }
    }

    /// Returns the piece that is to be checked next: the lower-left part of the first area, at most 256 by 256.
    pub fn first_piece(&self) -> Option<Rect>
        ensures piece { result ≡ first_piece_of self.now }
        ensures legal { IfSome result (IsRectangleIn world) }
        ensures few { IfSome result (λ piece. most_pieces piece ≤ MARK_ROOM) }
        ensures kept { IsDirtyList self.now }
    {
        let first = self.areas.front()?;
        Some(piece_of(*first))
    }

    /// Takes the first piece out of the list. What it leaves of the first area stays in the area's place: the part to
    /// the right, as high as the piece, and then the part above, as wide as the area, unless they are empty.
    pub fn drop_piece(&mut self)
        ensures { self.new ≡ dropped self.old }
    {
        drop_piece(&mut self.areas);
    }

    /// Returns the next pieces as a stretch: `most` pieces of the first area, if it is no higher than a piece, and else
    /// `most` rows of them. If the area has fewer, returns all of it.
    pub(crate) fn next_stretch(&self, most: u32) -> Option<Stretch>
        requires { 1 ≤ most }
        ensures next { IfSome result (λ stretch. IsNext self.now stretch) }
        ensures kept { IsDirtyList self.now }
    {
        let first = self.areas.front()?;
        Some(Stretch::of(*first, most))
    }

    /// Takes the pieces of a stretch out of the list, which are its next ones.
    pub(crate) fn drop_stretch(&mut self, stretch: &Stretch)
        requires { IsNext self.old stretch.now }
        ensures { DropsAll stretch.now.rect stretch.now.pieces self.old self.new }
    {
        replace_first(&mut self.areas, stretch.rest);
    }

    /// Takes the first piece out of the list, and returns it, where it lies in a block of checked pieces.
    pub(crate) fn drop_known(&mut self, checked: &Checked) -> Option<Stretch>
        ensures known { IfSome result (DropsKnown checked.now self.old self.new) }
        ensures none { IfNone result (self.new ≡ self.old) }
        ensures kept { IsDirtyList self.old }
    {
        let piece = self.first_piece()?;
        if !checked.encloses(piece) {
            return None;
        }
        self.drop_piece();
        Some(Stretch {
            rect: piece,
            pieces: 1,
            rest: self.areas.front().copied(),
        })
    }

    /// Copies the areas, in their order.
    pub fn to_vec(&self, alloc: Global) -> Result<Vec<Rect>, AllocError>
        ensures { IfOk result (λ areas. areas.items ≡ self.now) }
    {
        let (first, last) = self.areas.as_slices();
        let mut areas = Vec::with_capacity(alloc, self.areas.len())?;
        areas.extend_from_slice(first)?;
        areas.extend_from_slice(last)?;
        Ok(areas)
    }

    /// Returns how many areas there are.
    pub fn len(&self) -> usize
        ensures value { result ≡ length self.now }
        ensures kept { IsDirtyList self.now }
    {
        self.areas.len()
    }
}

/// Each rectangle lies in the world. Does nothing: the contract is the law.
pub(crate) fn lies_in_world(rect: Rect)
    ensures { IsRectangleIn world rect }
{
    rect.area();
}

/// Returns the lower-left part of an area that is checked at once.
#[tactic(auto, using(crate::proofs::AreaSizes::few_pieces))]
pub(crate) fn piece_of(area: Rect) -> Rect
    ensures value { result ≡ spec.piece_of area }
    ensures legal { IsRectangleIn world result }
    ensures few { most_pieces result ≤ MARK_ROOM }
{
    let lines = area.area();
    Rect::between(
        lines.left,
        lines.bottom,
        lines.right.min(lines.left + PIECE_SIDE),
        lines.top.min(lines.bottom + PIECE_SIDE),
    )
}

/// Puts the smallest rectangle round all areas in their place.
fn unite(areas: &mut VecDeque<Rect>)
    ensures items { areas.new.items ≡ united areas.old.items }
    ensures room { deque_capacity areas.new ≡ deque_capacity areas.old }
{
    let Some(first) = areas.pop_front() else {
        return;
    };
    let all = areas.iter().fold(first, |all, area| all.joined(*area));
    areas.clear();
    areas.push_back_reserved(all);
}

/// Puts what the first piece leaves of the first area in that area's place.
fn drop_piece(areas: &mut VecDeque<Rect>)
    requires { deque_len areas.old < deque_capacity areas.old }
    ensures items { areas.new.items ≡ dropped areas.old.items }
    ensures room { deque_capacity areas.new ≡ deque_capacity areas.old }
{
    let Some(first) = areas.pop_front() else {
        return;
    };
    let area = first.area();
    let piece = piece_of(first).area();
    if piece.top < area.top {
        areas.push_front_reserved(Rect::between(area.left, piece.top, area.right, area.top));
    }
    if piece.right < area.right {
        areas.push_front_reserved(Rect::between(piece.right, area.bottom, area.right, piece.top));
    }
}

/// Puts what is left of the first area, if anything is, in its place.
fn replace_first(areas: &mut VecDeque<Rect>, rest: Option<Rect>)
    requires { deque_len areas.old < deque_capacity areas.old }
    ensures items { areas.new.items ≡ with_rest rest areas.old.items }
    ensures room { deque_capacity areas.new ≡ deque_capacity areas.old }
{
    if areas.pop_front().is_none() {
        return;
    }
    if let Some(rest) = rest {
        areas.push_front_reserved(rest);
    }
}
