//! The maximal strips of what a plane shows with the cells that are placed in its layout.
ghost use Rattle.std.specs.Prelude.{◌≡◌, ◌<◌, ◌≤◌, IfErr, IfOk, OnOk};
ghost use Rattle.mls_geom.specs.Pictures.{picture_of};
ghost use Rattle.mls_geom.specs.StripLists.{strips_of};
ghost use Rattle.mls_geom.specs.TileCounts.{tile_count};
ghost use Rattle.mls_geom.specs.World.{world};
ghost use Rattle.mls_layout.specs.Strips.{IfTooMany};
ghost use Rattle.mls_layout.specs.declared.strips.Unlisted.TheVariants.{Memory, TooMany};
ghost use Rattle.mls_layout.specs.Uses.{HasFlatPlane, flat_plane};

use crate::{Uses, Workspace, push_flat};
use mls_geom::{Piece, Rect, Scratch, TooMany, strips};
use mls_stitch::Plane;
use std::alloc::{AllocError, Global};
use std::marker::Model;
use thiserror::Error;

/// Why strips weren't listed.
#[derive(Clone, Copy, Debug, PartialEq, Eq, Error)]
pub enum Unlisted {
    /// There are more of them than the limit.
    #[error("too many tiles")]
    TooMany,
    /// Memory ran out.
    #[error("out of memory")]
    Memory,
}

impl From<AllocError> for Unlisted {
    ghost from_gives = { λ _ fault. fault ≡ Memory };

    fn from(_error: AllocError) -> Unlisted {
        Unlisted::Memory
    }
}

impl From<TooMany> for Unlisted {
    ghost from_gives = { λ _ fault. fault ≡ TooMany };

    fn from(_error: TooMany) -> Unlisted {
        Unlisted::TooMany
    }
}

/// The maximal strips of what a plane shows with the uses, by bottom and then left.
#[derive(Drop)]
pub struct FlatStrips {
    strips: Vec<Piece>,
}

impl Model for FlatStrips {
    ghost use Rattle.std.specs.Prelude.{List};
    ghost use Rattle.mls_geom.specs.declared.piece.Piece.{Piece};

    ghost Value = { List Piece };

    ghost view = { λ flat. flat.strips.items };
}

impl FlatStrips {
    /// Returns the strips.
    pub fn as_slice(&self) -> &[Piece]
        ensures { result.now ≡ self.now }
    {
        self.strips.as_slice()
    }
}

/// Returns the maximal strips of what a plane shows with the uses, by bottom and then left. The plane has this number
/// among those of its layout.
///
/// Fails if there are more than `limit` strips, or memory runs out.
pub fn flat_strips(
    alloc: Global,
    number: usize,
    plane: &Plane,
    uses: &Uses<'_>,
    limit: usize,
    workspace: &mut Workspace,
) -> Result<FlatStrips, Unlisted>
    requires flat { HasFlatPlane workspace.old.pool plane.now uses.now.library.now }
    ensures strips { IfOk result (λ flat. flat
        ≡ strips_of world (flat_plane workspace.old.pool uses.now number plane.now)) }
    ensures within { OnOk result (tile_count world (flat_plane workspace.old.pool uses.now number plane.now) ≤ limit) }
    ensures too_many { IfErr result (λ fault. IfTooMany fault
        (limit < tile_count world (flat_plane workspace.old.pool uses.now number plane.now))) }
    ensures pool { workspace.new.pool ≡ workspace.old.pool }
{
    let mut pieces = Vec::new(alloc);
    push_flat(number, plane, uses, Rect::world(), workspace, &mut pieces)?;
    find_strips(alloc, &pieces, limit)
}

/// Returns the maximal strips of what pieces show, by bottom and then left.
///
/// Fails if there are more than `limit` strips, or memory runs out.
fn find_strips(alloc: Global, pieces: &[Piece], limit: usize) -> Result<FlatStrips, Unlisted>
    ensures strips { IfOk result (λ flat. flat ≡ strips_of world (picture_of pieces.now)) }
    ensures within { OnOk result (tile_count world (picture_of pieces.now) ≤ limit) }
    ensures too_many { IfErr result (λ fault. IfTooMany fault (limit < tile_count world (picture_of pieces.now))) }
{
    let mut scratch = Scratch::new(alloc, pieces.len().max(limit))?;
    strips(pieces, &[], limit, &mut scratch)?;
    Ok(FlatStrips {
        strips: Vec::from_slice(alloc, scratch.strips())?,
    })
}
