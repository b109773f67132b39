//! Planes of stitched tiles in one pool.
ghost use Rattle.std.specs.Prelude.{◌≡◌, IfOk, OnOk, Some};
ghost use Rattle.std.specs.List.{All};
ghost use Rattle.mls_paint.specs.Planes.{HasStrips};
ghost use Rattle.mls_tilepool.specs.Pools.{room_of};

use mls_checker::Snapshot;
use mls_geom::{Piece, Rect};
use mls_layout::{Uses, Workspace};
use mls_library::Library;
use mls_paint::{overlay, space_plane};
use mls_stitch::Plane;
use std::alloc::{AllocError, Global};
use std::marker::Model;
use std::test::Fail;

/// How many tiles each plane may have.
const ROOM: u32 = 16_384;

/// Adds a plane to those of a layout, over which pieces are painted.
fn add_plane(
    workspace: &mut Workspace,
    planes: &mut Vec<Plane>,
    pieces: &[Piece],
) -> Result<(), Fail>
    requires strips { All (λ owner. HasStrips workspace.old.pool owner) planes.old.items }
    requires rooms { All (λ owner. room_of workspace.old.pool owner ≡ Some 16384) planes.old.items }
    ensures strips { OnOk result (All (λ owner. HasStrips workspace.new.pool owner) planes.new.items) }
    ensures rooms { OnOk result (All (λ owner. room_of workspace.new.pool owner ≡ Some 16384) planes.new.items) }
{
    let Workspace { pool, scratch, .. } = workspace;
    if pieces.len() > scratch.pieces() {
        return Err(Fail::new("too many pieces"));
    }
    let mut plane = space_plane(pool, ROOM, scratch)?;
    overlay(pool, &mut plane, pieces, ROOM, scratch)?;
    planes.push(plane)?;
    Ok(())
}

/// The planes of a layout, in a pool with room for four. No cell is placed in it.
#[derive(Drop)]
pub struct Layout {
    workspace: Workspace,
    planes: Vec<Plane>,
    library: Library,
}

impl Model for Layout {
    ghost use Rattle.std.specs.Prelude.{◌≡◌, Some, []};
    ghost use Rattle.std.specs.List.{All};
    ghost use Rattle.mls_paint.specs.Planes.{HasStrips};
    ghost use Rattle.mls_tilepool.specs.Pools.{Pool, room_of};

    ghost Value = { Pool };

    ghost view = { λ l. l.workspace.pool };

    ghost invariant = { λ l. All (λ owner. HasStrips l.workspace.pool owner) l.planes.items
        × All (λ owner. room_of l.workspace.pool owner ≡ Some 16384) l.planes.items × (l.library ≡ []) };
}

impl Layout {
    /// A layout without planes.
    pub fn new(alloc: Global) -> Result<Layout, AllocError> {
        Ok(Layout {
            workspace: Workspace::new(alloc, 4 * ROOM)?,
            planes: Vec::new(alloc),
            library: Library::new(alloc),
        })
    }

    /// The layout with one plane more, over which pieces are painted.
    pub fn with(self, pieces: &[Piece]) -> Result<Layout, Fail> {
        let Layout {
            mut workspace,
            mut planes,
            library,
        } = self;
        add_plane(&mut workspace, &mut planes, pieces)?;
        Ok(Layout {
            workspace,
            planes,
            library,
        })
    }

    /// Copies the squares of a zone.
    pub fn snapshot(&mut self, alloc: Global, zone: Rect) -> Result<Snapshot, AllocError>
        ensures { IfOk result (λ snapshot. snapshot.zone ≡ zone) }
    {
        let uses = Uses {
            library: &self.library,
            list: &[],
        };
        Snapshot::read(alloc, &self.planes, &uses, zone, &mut self.workspace)
    }

    /// Whether the layout still shows what was copied.
    pub fn same(&mut self, snapshot: &Snapshot) -> bool {
        let uses = Uses {
            library: &self.library,
            list: &[],
        };
        snapshot.same(&self.planes, &uses, &mut self.workspace)
    }
}
