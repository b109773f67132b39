//! The text of a design's layout with what is known of the squares that rules forbid there, as a cell file.
ghost use Rattle.std.specs.Prelude.{◌≡◌, ◌++◌, IfErr, IfOk, OnErr, OnOk, false, true};
ghost use Rattle.mls_session.specs.Common.{HoldsOwnTypes, IfTooMany, Layout, Picture, ReadsAs, areas_in, checking_of, empty_layout, marked_line_count, marked_text, marks_picture, saved_text, squares_in};
ghost use Rattle.mls_session.specs.Inner.{layout_shown};
ghost use Rattle.mls_session.specs.Own.{exceeds_listed};
ghost use Rattle.mls_session.specs.Setups.{config_of};

use super::Design;
use crate::Setup;
use crate::layers::{add_marked, list_layers};
use mls_geom::Rect;
use mls_layout::{Unlisted, Workspace};
use mls_library::{error_line_count, most_flat_tiles, push_errors};
use mls_tech::Tech;
use std::alloc::{AllocError, Global};

impl Design {
    ghost use Rattle.mls_session.specs.Designs.{IsHome, IsReady};

    /// Appends the text of the layout, with the areas that await checking and the marks, as a cell file, and returns
    /// the number of its lines.
    ///
    /// Fails where a plane of the layout has more tiles than are listed of one, or memory runs out, and then appends
    /// nothing.
    pub fn mark_text(
        &self,
        alloc: Global,
        setup: &Setup,
        out: &mut Vec<u8>,
        workspace: &mut Workspace,
    ) -> Result<usize, Unlisted>
        requires ready { IsReady setup.now workspace.old.pool self.now }
        ensures count { IfOk result (λ lines. lines ≡ marked_line_count setup.now.tech
            (layout_shown setup.now workspace.old.pool self.now) self.now.errors.dirty
            (marks_picture (checking_of workspace.old.pool self.now.errors).marks)) }
        ensures text { OnOk result (out.new.items ≡ out.old.items ++ marked_text setup.now.tech
            (layout_shown setup.now workspace.old.pool self.now) self.now.errors.dirty
            (marks_picture (checking_of workspace.old.pool self.now.errors).marks)) }
        ensures few { OnOk result (exceeds_listed (config_of setup.now workspace.old.pool)
            (layout_shown setup.now workspace.old.pool self.now) ≡ false) }
        ensures too_many { IfErr result (λ fault. IfTooMany fault (exceeds_listed
            (config_of setup.now workspace.old.pool) (layout_shown setup.now workspace.old.pool self.now) ≡ true)) }
        ensures refused { OnErr result (out.new.items ≡ out.old.items) }
        ensures pool { workspace.new.pool ≡ workspace.old.pool }
    {
        // For its contract alone: the areas are few.
        self.errors.areas();
        let most = most_flat_tiles(self.quota.get(), setup.cell_tiles);
        let context = setup.context(&self.uses);
        let layers = list_layers(alloc, &self.planes, &context.uses, most, workspace)?;
        let areas = self.errors.copy_areas(alloc)?;
        self.errors.list_marks(workspace);
        let lines = add_marked(&setup.tech, &layers, &areas, &workspace.pieces, out)?;
        Ok(lines)
    }

    /// Appends the text of the marks and of the areas that await checking in a rectangle, as a cell file, and returns
    /// the number of its lines.
    ///
    /// Fails if memory runs out, and then appends nothing.
    pub fn error_text(
        &self,
        alloc: Global,
        tech: &Tech,
        rect: Rect,
        out: &mut Vec<u8>,
        workspace: &mut Workspace,
    ) -> Result<usize, AllocError>
        requires home { IsHome workspace.old.pool self.now }
        ensures count { IfOk result (λ lines. lines ≡ marked_line_count tech.now empty_layout
            (areas_in rect self.now.errors.dirty)
            (marks_picture (squares_in rect (checking_of workspace.old.pool self.now.errors).marks))) }
        ensures text { OnOk result (out.new.items ≡ out.old.items ++ marked_text tech.now empty_layout
            (areas_in rect self.now.errors.dirty)
            (marks_picture (squares_in rect (checking_of workspace.old.pool self.now.errors).marks))) }
        ensures refused { OnErr result (out.new.items ≡ out.old.items) }
        ensures pool { workspace.new.pool ≡ workspace.old.pool }
    {
        // For its contract alone: the areas are few.
        self.errors.areas();
        let areas = self.errors.areas_in(alloc, rect)?;
        let marks = self.errors.marks_in(alloc, rect, workspace)?;
        let len = out.len();
        if let Err(error) = push_errors(tech, &areas, &marks, out) {
            out.truncate(len);
            return Err(error);
        }
        Ok(error_line_count(&areas, &marks))
    }

    /// The text of any layout, also with the areas of this design and any marks, reads as that layout, where each of
    /// its squares is space or of a type whose plane that is; and that of the areas in any rectangle and any marks as
    /// an empty one. Does nothing: the contract is the law.
    pub fn reads_back(&self, tech: &Tech)
        ensures saved { (layout : Layout) → HoldsOwnTypes tech.now layout
            → ReadsAs tech.now (saved_text tech.now layout) layout }
        ensures marked { (layout : Layout) (marks : Picture) → HoldsOwnTypes tech.now layout
            → ReadsAs tech.now (marked_text tech.now layout self.now.errors.dirty marks) layout }
        ensures errors { (rect : Rect) (marks : Picture)
            → ReadsAs tech.now (marked_text tech.now empty_layout (areas_in rect self.now.errors.dirty) marks)
            empty_layout }
    {
        // For their contracts alone: the names are words, and the areas lie in the world.
        tech.types();
        tech.name();
        self.errors.areas();
    }
}
