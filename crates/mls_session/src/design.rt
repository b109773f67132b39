//! One design: a box, the planes of its own paint, its uses, its error plane, and what each command does to them.
ghost use Rattle.std.specs.Prelude.{◌≡◌, ◌*◌, ◌+◌, ◌≤◌, IfOk, OnErr, length};
ghost use Rattle.mls_session.specs.Common.{AddsOwners, IsDirtyList, RemovesOwners, layout_in, unreserved};
ghost use Rattle.mls_session.specs.Designs.{AreAtHome};
ghost use Rattle.mls_session.specs.Inner.{Counts};
ghost use Rattle.mls_session.specs.Own.{blank, opening};
ghost use Rattle.mls_session.specs.OwnSteps.{DesignSteps};
ghost use Rattle.mls_session.specs.Quotas.{plane_reserve};
ghost use Rattle.mls_session.specs.Setups.{config_of};

mod changing;
mod checking;
mod marking;
mod painting;
mod saving;

use crate::executed::Executed;
use crate::{Command, Quota, Reply, Setup};
use mls_errorplane::{ErrorPlane, opening_areas};
use mls_geom::Rect;
use mls_layout::{CellUse, MOST_USES, Workspace};
use mls_paint::{release_plane, space_plane};
use mls_stitch::Plane;
use mls_tilepool::Pool;
use std::alloc::{AllocError, Global};
use std::marker::Model;

/// A design: a box, the planes of its own paint, the cells that are placed, and what is known of which squares of the
/// layout that they make the rules forbid. The tiles of its planes lie in the pool of a workspace.
#[derive(Drop)]
pub(crate) struct Design {
    pub(crate) quota: Quota,
    box_rect: Option<Rect>,
    pub(crate) planes: Vec<Plane>,
    /// The cells that are placed, in the order in which they were. There is room for as many as there may be.
    pub(crate) uses: Vec<CellUse>,
    pub(crate) errors: ErrorPlane,
}

impl Model for Design {
    ghost use Rattle.std.specs.Prelude.{◌≤◌, vec_capacity};
    ghost use Rattle.mls_layout.specs.Uses.{most_uses};
    ghost use Rattle.mls_session.specs.Designs.{Design};
    ghost use Rattle.mls_session.specs.Quotas.{IsQuota};

    ghost Value = { Design };

    ghost view = { λ s. record {
      box = s.box_rect;
      planes = s.planes.items;
      uses = s.uses.items;
      quota = s.quota;
      errors = s.errors;
    } };

    ghost invariant = { λ s. IsQuota s.quota × (most_uses ≤ vec_capacity s.uses) };
}

impl Design {
    ghost use Rattle.mls_session.specs.Designs.{HasRightMarks, IsHome, IsMadeFor, IsReady, KeepsPlanes, OnRefused, designed_of, owners_of};

    /// Opens a design with no box, no paint, no uses and no marks. Nothing awaits checking, unless the rules forbid
    /// squares of the empty layout.
    ///
    /// Each plane, and the error plane, reserves 64 tiles more than the quota. The pool must have room for them.
    pub fn open(
        alloc: Global,
        setup: &Setup,
        workspace: &mut Workspace,
    ) -> Result<Design, AllocError>
        requires room { (setup.now.tech.plane_count + 1) * plane_reserve setup.now.quota
            ≤ unreserved workspace.old.pool }
        ensures opening { IfOk result (λ design. designed_of workspace.new.pool design ≡ opening setup.now.rules) }
        ensures marks_right { IfOk result (λ design. HasRightMarks (config_of setup.now workspace.new.pool)
            (designed_of workspace.new.pool design)) }
        ensures areas { IfOk result (λ design. IsDirtyList design.errors.dirty) }
        ensures home { IfOk result (λ design. IsHome workspace.new.pool design) }
        ensures made_for { IfOk result (λ design. IsMadeFor setup.now design) }
        ensures added { IfOk result (λ design. AddsOwners workspace.old.pool workspace.new.pool (owners_of design)
            (length (owners_of design) * plane_reserve setup.now.quota)) }
        ensures refused { OnErr result (workspace.new.pool ≡ workspace.old.pool) }
    {
        let dirty = opening_areas(alloc, &setup.rules)?;
        let uses = Vec::with_capacity(alloc, MOST_USES)?;
        let planes = space_planes(alloc, setup, workspace)?;
        let errors = ErrorPlane::new(dirty, setup.plane_reserve(), workspace);
        // For its contract alone: the areas lie in the world, and are few.
        errors.areas();
        Ok(Design {
            quota: setup.quota,
            box_rect: None,
            planes,
            uses,
            errors,
        })
    }

    /// Gives the tiles and the reserves of the own paint's planes and of the error plane back to the pool.
    pub fn close(self, pool: &mut Pool)
        requires home { IsHome pool.old self }
        ensures removed { RemovesOwners pool.old pool.new (owners_of self)
            (length (owners_of self) * plane_reserve self.quota) }
    {
        let Design { planes, errors, .. } = self;
        for plane in planes {
            release_plane(pool, plane);
        }
        errors.close(pool);
    }

    /// Carries out a command, or refuses it and changes nothing. Only catching up that stops before its end keeps
    /// what it did.
    pub fn command(
        &mut self,
        alloc: Global,
        setup: &Setup,
        command: Command,
        workspace: &mut Workspace,
    ) -> Executed
        requires ready { IsReady setup.now workspace.old.pool self.old }
        requires areas { IsDirtyList self.old.errors.dirty }
        ensures step { DesignSteps (config_of setup.now workspace.old.pool)
            (designed_of workspace.old.pool self.old) command result.reply
            (designed_of workspace.new.pool self.new) }
        ensures counts { Counts (config_of setup.now workspace.old.pool)
            (designed_of workspace.old.pool self.old) command result (designed_of workspace.new.pool self.new) }
        ensures keeps { KeepsPlanes workspace.old.pool workspace.new.pool self.old self.new }
        ensures refused { OnRefused result.reply ((self.new ≡ self.old)
            × (workspace.new.pool ≡ workspace.old.pool)) }
    {
        match command {
            Command::Box {
                left,
                bottom,
                right,
                top,
            } => Executed::with(self.set_box(Rect::new(left, bottom, right, top))),
            Command::Paint(kind) => Executed::with(self.paint(setup, kind, workspace)),
            Command::Erase(kinds) => Executed::with(self.erase(setup, kinds, workspace)),
            Command::Dump { cell, dx, dy } => {
                Executed::with(self.dump(setup, cell, dx, dy, workspace))
            }
            Command::GetCell { cell, dx, dy } => {
                Executed::with(self.get_cell(setup, cell, dx, dy, workspace))
            }
            Command::What => Executed::with(self.what(alloc, setup, workspace)),
            Command::Save => {
                Executed::with(Reply::Saved(self.count_lines(&setup.tech, workspace)))
            }
            Command::Check => Executed::with(self.check(setup)),
            Command::CatchUp => self.catch_up(alloc, setup, workspace),
            Command::Why => Executed::with(self.why(alloc, setup, workspace)),
            Command::Count => Executed::with(self.count()),
        }
    }
}

/// Adds an empty plane for each of the technology's to the pool.
fn space_planes(
    alloc: Global,
    setup: &Setup,
    workspace: &mut Workspace,
) -> Result<Vec<Plane>, AllocError>
    requires room { setup.now.tech.plane_count * plane_reserve setup.now.quota ≤ unreserved workspace.old.pool }
    ensures blank { IfOk result (λ planes. layout_in workspace.new.pool planes.items ≡ blank.paint) }
    ensures home { IfOk result (λ planes. AreAtHome workspace.new.pool setup.now.quota planes.items) }
    ensures count { IfOk result (λ planes. length planes.items ≡ setup.now.tech.plane_count) }
    ensures added { IfOk result (λ planes. AddsOwners workspace.old.pool workspace.new.pool planes.items
        (length planes.items * plane_reserve setup.now.quota)) }
    ensures refused { OnErr result (workspace.new.pool ≡ workspace.old.pool) }
{
    let mut planes = Vec::with_capacity(alloc, setup.tech.planes())?;
    let reserve = setup.plane_reserve();
    for _plane in 0..setup.tech.planes() {
        let Workspace { pool, scratch, .. } = workspace;
        planes.push_reserved(space_plane(pool, reserve, scratch).unwrap());
    }
    Ok(planes)
}
