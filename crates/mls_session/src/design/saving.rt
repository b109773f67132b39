//! The text of a design's own paint, as a cell file.
ghost use Rattle.std.specs.Prelude.{◌≡◌, ◌+◌, ◌≤◌, ◌<◌, ◌^◌, ◌++◌, IfOk, IfSome, OnOk, OnErr, length, vec_capacity, vec_len};
ghost use Rattle.mls_library.specs.SavedCells.{Extends, HoldsOwnTypes, ReadsAs, saved_line_count, saved_text};
ghost use Rattle.mls_session.specs.Inner.{IsListing, IsSection};
ghost use Rattle.mls_session.specs.Saving.{SavesText};

use super::Design;
use crate::layers::OTHER_LINES;
use crate::{Refusal, Reply};
use mls_kinds::{Kind, PlaneNumber};
use mls_layout::Workspace;
use mls_library::{layer_line_count, push_end, push_header, push_layer};
use mls_tech::Tech;
use std::alloc::AllocError;

impl Design {
    ghost use Rattle.mls_session.specs.Designs.{IsHome, OnRefused, drawn_of};

    /// Carries out [`Command::Save`](crate::Command::Save), and appends the text of the own paint, as a cell file.
    ///
    /// Out of memory, appends nothing and returns a refusal. Where there is room for the text, no memory is taken.
    pub fn save(&self, tech: &Tech, out: &mut Vec<u8>, workspace: &mut Workspace) -> Reply
        requires home { IsHome workspace.old.pool self.now }
        requires made_for { length self.now.planes ≡ tech.now.plane_count }
        ensures saves { SavesText tech.now (drawn_of workspace.old.pool self.now).paint result out.old.items
            out.new.items }
        ensures room { OnRefused result (vec_capacity out.old < vec_len out.old
            + length (saved_text tech.now (drawn_of workspace.old.pool self.now).paint)) }
        ensures reads_back { HoldsOwnTypes tech.now (drawn_of workspace.old.pool self.now).paint
            → ReadsAs tech.now (saved_text tech.now (drawn_of workspace.old.pool self.now).paint)
            (drawn_of workspace.old.pool self.now).paint }
        ensures pool { workspace.new.pool ≡ workspace.old.pool }
    {
        // For its contract alone: the text reads as the own paint.
        self.reads_back(tech);
        let len = out.len();
        match self.push_text(tech, out, workspace) {
            Ok(lines) => Reply::Saved(lines),
            Err(_) => {
                out.truncate(len);
                Reply::Refused(Refusal::Memory)
            }
        }
    }

    /// Returns the number of lines of the own paint's text.
    pub fn count_lines(&self, tech: &Tech, workspace: &mut Workspace) -> usize
        requires home { IsHome workspace.old.pool self.now }
        requires made_for { length self.now.planes ≡ tech.now.plane_count }
        ensures count { result ≡ saved_line_count tech.now (drawn_of workspace.old.pool self.now).paint }
        ensures pool { workspace.new.pool ≡ workspace.old.pool }
    {
        let types = tech.types() as u8;
        let mut lines = OTHER_LINES;
        let mut listed = None;
        for number in 1..types + 1 {
            let kind = Kind::new(number);
            lines += self.list_section(tech, kind, &mut listed, workspace);
        }
        lines
    }

    /// Appends the text of the own paint, as a cell file, and returns the number of its lines.
    ///
    /// Out of memory, leaves its beginning. Where there is room for the text, no memory is taken.
    pub fn push_text(
        &self,
        tech: &Tech,
        out: &mut Vec<u8>,
        workspace: &mut Workspace,
    ) -> Result<usize, AllocError>
        requires home { IsHome workspace.old.pool self.now }
        requires made_for { length self.now.planes ≡ tech.now.plane_count }
        ensures count { IfOk result (λ lines. lines
            ≡ saved_line_count tech.now (drawn_of workspace.old.pool self.now).paint) }
        ensures text { OnOk result (out.new.items ≡ out.old.items ++ saved_text tech.now
            (drawn_of workspace.old.pool self.now).paint) }
        ensures room { OnErr result (vec_capacity out.old < vec_len out.old
            + length (saved_text tech.now (drawn_of workspace.old.pool self.now).paint)) }
        ensures kept { OnErr result (Extends out.old.items out.new.items) }
        ensures pool { workspace.new.pool ≡ workspace.old.pool }
    {
        let types = tech.types() as u8;
        push_header(tech, out)?;
        let mut lines = OTHER_LINES;
        let mut listed = None;
        for number in 1..types + 1 {
            let kind = Kind::new(number);
            lines += self.list_section(tech, kind, &mut listed, workspace);
            push_layer(tech, kind, &workspace.pieces, out)?;
        }
        push_end(out)?;
        Ok(lines)
    }

    /// Lists the strips of a type's plane in the list of pieces, and returns the number of lines of the type's section.
    fn list_section(
        &self,
        tech: &Tech,
        kind: Kind,
        listed: &mut Option<PlaneNumber>,
        workspace: &mut Workspace,
    ) -> usize
        requires made_for { length self.now.planes ≡ tech.now.plane_count }
        requires is_type { (1 ≤ kind) × (kind ≤ length tech.now.type_planes) }
        requires lists { IsListing workspace.old.pool self.now listed.old workspace.old.pieces.items }
        ensures section { IsSection tech.now (drawn_of workspace.old.pool self.now).paint kind
            workspace.new.pieces.items result }
        ensures few { result ≤ 2 ^ 42 + 1 }
        ensures lists { IsListing workspace.new.pool self.now listed.new workspace.new.pieces.items }
        ensures pool { workspace.new.pool ≡ workspace.old.pool }
    {
        self.list_plane(tech.plane_of(kind), listed, workspace);
        layer_line_count(&workspace.pieces, kind)
    }

    /// Lists the strips of a plane in the list of pieces, unless they are those that it lists already.
    fn list_plane(
        &self,
        plane: Option<PlaneNumber>,
        listed: &mut Option<PlaneNumber>,
        workspace: &mut Workspace,
    )
        requires is_plane { IfSome plane (λ number. number < length self.now.planes) }
        requires lists { IsListing workspace.old.pool self.now listed.old workspace.old.pieces.items }
        ensures plane { listed.new ≡ plane }
        ensures lists { IsListing workspace.new.pool self.now listed.new workspace.new.pieces.items }
        ensures pool { workspace.new.pool ≡ workspace.old.pool }
    {
        if plane == *listed {
            return;
        }
        if let Some(number) = plane {
            workspace.list_strips(&self.planes[number.index()]);
        }
        *listed = plane;
    }
}
