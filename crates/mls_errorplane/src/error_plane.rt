//! Checking a layout piece by piece, after it was edited.
ghost use Rattle.std.specs.Prelude.{◌≡◌, ◌≤◌, ◌↔◌, ℕ, true, IfOk, IfSome, IsTrue, OnErr, Some, List, ◌+◌, ◌-◌, [], ◌∷◌, length};
ghost use Rattle.mls_errorplane.specs.Common.{AddsOwner, ChangesOnly, EdgeRule, FitsWorkspace, HasLayout, IsExact, IsOwner, Layout, Pool, RemovesOwners, flat_layout, forbidden, holds, marks, no_squares, room_of, size_of, strips_of, tile_count, unreserved, world};
ghost use Rattle.mls_errorplane.specs.Checkings.{dirtied};
ghost use Rattle.mls_errorplane.specs.DirtyLists.{IsDirtyList, first_piece_of};
ghost use Rattle.mls_errorplane.specs.MarkPlanes.{most_pieces};

use crate::{CheckContext, Dirty, Recount, mark};
use mls_checker::{Finding, Snapshot, check_here};
use mls_edgerule::Rules;
use mls_geom::Rect;
use mls_layout::{MARK_ROOM, Workspace};
use mls_paint::{TooManyTiles, release_plane, space_plane, tile_count};
use mls_stitch::Plane;
use mls_tilepool::Pool;
use std::alloc::{AllocError, Global};
use std::marker::Model;

/// How a check step ended.
#[derive(Clone, Copy, Debug, PartialEq, Eq)]
pub enum Stepped {
    /// No area awaits checking.
    Idle,
    /// The first piece was checked.
    Done,
    /// The error plane would have more tiles than the limit.
    Full,
    /// Memory ran out.
    Memory,
}

/// How finishing ended, where a finding was made outside.
#[derive(Clone, Copy, Debug, PartialEq, Eq)]
pub enum Outcome {
    /// The finding was marked, and its piece no longer awaits checking.
    Finished,
    /// The finding is by other rules, of another piece than the first, or of a layout that has changed since.
    Stale,
    /// The error plane would have more tiles than the limit.
    Full,
}

/// The marks of a layout, as tiles of a plane in a pool, and the areas of the layout that await checking.
#[derive(Drop)]
pub struct ErrorPlane {
    pub(crate) plane: Plane,
    // How many squares are marked.
    pub(crate) marked: u64,
    pub(crate) dirty: Dirty,
}

impl Model for ErrorPlane {
    ghost use Rattle.mls_errorplane.specs.ErrorPlanes.{ErrorPlane};

    ghost Value = { ErrorPlane };

    ghost view = { λ e. record { owner = e.plane; marked = e.marked; dirty = e.dirty } };
}

impl ErrorPlane {
    ghost use Rattle.mls_errorplane.specs.ErrorPlanes.{HasMarks, HasStepped, ShowsMarks, UnlessDone, checking_of, marks_picture, stepped_of};
    ghost use Rattle.mls_errorplane.specs.Outcomes.{HasFinished, IsFresh, UnlessFinished};
    ghost use Rattle.mls_errorplane.specs.Stretches.{AreRight};

    /// Creates an error plane without marks, which reserves this many tiles of the pool, with these areas.
    ///
    /// The pool must have room for the tiles. No memory is taken.
    pub fn new(dirty: Dirty, reserve: u32, workspace: &mut Workspace) -> ErrorPlane
        requires some { 1 ≤ reserve }
        requires room { reserve ≤ unreserved workspace.old.pool }
        ensures marks { ShowsMarks workspace.new.pool result }
        ensures begins { checking_of workspace.new.pool result ≡ record { marks = no_squares; dirty = dirty } }
        ensures added { AddsOwner workspace.old.pool workspace.new.pool result.owner reserve }
        ensures taken { unreserved workspace.new.pool + reserve ≡ unreserved workspace.old.pool }
    {
        let Workspace { pool, scratch, .. } = workspace;
        let plane = space_plane(pool, reserve, scratch).unwrap();
        ErrorPlane {
            plane,
            marked: 0,
            dirty,
        }
    }

    /// Adds a rectangle that was edited, and the squares round it that the rules can tell from it, to the areas that
    /// await checking.
    pub fn add(&mut self, rules: &Rules, rect: Rect)
        ensures added { (pool : Pool) → checking_of pool self.new
            ≡ dirtied rules.now rect (checking_of pool self.old) }
        ensures owner { self.new.owner ≡ self.old.owner }
        ensures marked { self.new.marked ≡ self.old.marked }
    {
        self.dirty.add(rect, rules.halo());
    }

    /// Checks the first piece of the areas in a layout on these planes with the uses, and takes it out of them.
    ///
    /// Unless this is done, nothing changes.
    pub fn step(
        &mut self,
        alloc: Global,
        planes: &[Plane],
        context: &CheckContext<'_>,
        limit: u32,
        workspace: &mut Workspace,
    ) -> Stepped
        requires layout { HasLayout workspace.old.pool planes.now context.now.uses.library.now }
        requires marks { HasMarks workspace.old.pool limit self.old }
        ensures stepped { HasStepped context.now.rules.now
            (flat_layout workspace.old.pool context.now.uses planes.now) limit
            (checking_of workspace.old.pool self.old) result (checking_of workspace.new.pool self.new) }
        ensures marks { ShowsMarks workspace.new.pool self.new }
        ensures same { UnlessDone result ((self.new ≡ self.old) × (workspace.new.pool ≡ workspace.old.pool)) }
        ensures only { ChangesOnly workspace.old.pool workspace.new.pool self.old.owner }
        ensures owner { self.new.owner ≡ self.old.owner }
    {
        let Some(piece) = self.dirty.first_piece() else {
            return Stepped::Idle;
        };
        let Ok(finding) = check_piece(alloc, planes, context, piece, workspace) else {
            return Stepped::Memory;
        };
        match self.mark_first(&finding, limit, workspace) {
            Ok(()) => Stepped::Done,
            Err(TooManyTiles) => Stepped::Full,
        }
    }

    /// Marks a finding that was made outside, and takes its piece out of the areas.
    ///
    /// Returns [`Outcome::Stale`] unless the finding is by these rules, of the first piece, and of the layout on these
    /// planes with the uses as it is now in the finding's zone, and then [`Outcome::Full`] if the error plane would
    /// have more than `limit` tiles. In both cases nothing changes.
    ///
    /// No memory is taken.
    pub fn finish(
        &mut self,
        planes: &[Plane],
        context: &CheckContext<'_>,
        finding: &Finding,
        limit: u32,
        workspace: &mut Workspace,
    ) -> Outcome
        requires layout { HasLayout workspace.old.pool planes.now context.now.uses.library.now }
        requires marks { HasMarks workspace.old.pool limit self.old }
        ensures finished { HasFinished context.now.rules.now (length planes.now)
            (flat_layout workspace.old.pool context.now.uses planes.now) limit
            (checking_of workspace.old.pool self.old) finding.now result (checking_of workspace.new.pool self.new) }
        ensures marks { ShowsMarks workspace.new.pool self.new }
        ensures same { UnlessFinished result ((self.new ≡ self.old) × (workspace.new.pool ≡ workspace.old.pool)) }
        ensures only { ChangesOnly workspace.old.pool workspace.new.pool self.old.owner }
        ensures owner { self.new.owner ≡ self.old.owner }
    {
        if !self.is_fresh(planes, context, finding, workspace) {
            return Outcome::Stale;
        }
        match self.mark_first(finding, limit, workspace) {
            Ok(()) => Outcome::Finished,
            Err(TooManyTiles) => Outcome::Full,
        }
    }

    /// Marks a finding of the first piece, and takes that out of the areas.
    ///
    /// Fails if the error plane would then have more than `limit` tiles, and changes nothing.
    fn mark_first(
        &mut self,
        finding: &Finding,
        limit: u32,
        workspace: &mut Workspace,
    ) -> Result<(), TooManyTiles>
        requires marks { HasMarks workspace.old.pool limit self.old }
        requires few { most_pieces finding.now.piece ≤ MARK_ROOM }
        ensures exact { IsExact finding.now.piece finding.now.snapshot finding.now.rules finding.now.marks }
        ensures stepped { (rules : List EdgeRule) (layout : Layout)
            → first_piece_of self.old.dirty ≡ Some finding.now.piece
            → AreRight rules layout (marks finding.now.marks) finding.now.piece
            → HasStepped rules layout limit (checking_of workspace.old.pool self.old) (stepped_of result)
            (checking_of workspace.new.pool self.new) }
        ensures same { OnErr result ((self.new ≡ self.old) × (workspace.new.pool ≡ workspace.old.pool)) }
        ensures marks { ShowsMarks workspace.new.pool self.new }
        ensures only { ChangesOnly workspace.old.pool workspace.new.pool self.old.owner }
        ensures owner { self.new.owner ≡ self.old.owner }
    {
        let Workspace {
            pool,
            scratch,
            pieces,
            ..
        } = workspace;
        let recount = mark(pool, &mut self.plane, finding, limit, pieces, scratch)?;
        self.marked = recounted(self.marked, recount);
        self.dirty.drop_piece();
        Ok(())
    }

    /// Returns whether the finding is by these rules, of the first piece, and of the layout on these planes with the
    /// uses as it is now in the finding's zone.
    fn is_fresh(
        &self,
        planes: &[Plane],
        context: &CheckContext<'_>,
        finding: &Finding,
        workspace: &mut Workspace,
    ) -> bool
        requires layout { HasLayout workspace.old.pool planes.now context.now.uses.library.now }
        ensures fresh { IsTrue result ↔ IsFresh context.now.rules.now (length planes.now)
            (flat_layout workspace.old.pool context.now.uses planes.now)
            (checking_of workspace.old.pool self.now) finding.now }
        ensures few { IsTrue result → most_pieces finding.now.piece ≤ MARK_ROOM }
        ensures pool { workspace.new.pool ≡ workspace.old.pool }
    {
        let Some(piece) = self.dirty.first_piece() else {
            return false;
        };
        if !is_of(finding, piece, context.rules) {
            return false;
        }
        finding.snapshot().same(planes, &context.uses, workspace)
    }

    /// Returns how many squares are marked.
    pub fn marked(&self) -> u64
        ensures { result ≡ self.now.marked }
    {
        self.marked
    }

    /// Returns how many tiles the plane has.
    pub fn tiles(&self, pool: &Pool) -> u32
        requires { ShowsMarks pool.now self.now }
        ensures { result ≡ tile_count world (marks_picture (checking_of pool.now self.now).marks) }
    {
        tile_count(pool, &self.plane)
    }

    /// Gives the tiles and the reserve back to the pool.
    pub fn close(self, pool: &mut Pool)
        requires live { IsOwner pool.old self.owner }
        ensures removed { IfSome (room_of pool.old self.owner)
            (λ room. RemovesOwners pool.old pool.new (self.owner ∷ []) room) }
    {
        release_plane(pool, self.plane);
    }

    /// Returns how many areas await checking.
    pub fn areas(&self) -> usize
        ensures value { result ≡ length self.now.dirty }
        ensures kept { IsDirtyList self.now.dirty }
    {
        self.dirty.len()
    }

    /// Copies the areas that await checking, those to be checked first before others.
    pub fn copy_areas(&self, alloc: Global) -> Result<Vec<Rect>, AllocError>
        ensures { IfOk result (λ areas. areas.items ≡ self.now.dirty) }
    {
        self.dirty.to_vec(alloc)
    }

    /// Lists the maximal strips of the marks, and of the squares without marks, in the workspace's list of pieces, by
    /// bottom and then left. Marks have kind 1, other squares kind 0. No memory is taken.
    pub fn list_marks(&self, workspace: &mut Workspace)
        requires marks { ShowsMarks workspace.old.pool self.now }
        requires marks_fit { FitsWorkspace workspace.old.pool self.now.owner }
        ensures strips { workspace.new.pieces.items
            ≡ strips_of world (marks_picture (checking_of workspace.old.pool self.now).marks) }
        ensures pool { workspace.new.pool ≡ workspace.old.pool }
    {
        workspace.list_strips(&self.plane);
    }
}

/// Returns how many squares are marked, once those of a piece were marked anew.
pub(crate) fn recounted(marked: u64, recount: Recount) -> u64
    requires before { recount.before ≤ marked }
    requires few { (marked - recount.before) + recount.after ≤ size_of world }
    ensures { result + recount.before ≡ marked + recount.after }
{
    marked - recount.before + recount.after
}

/// Finds the squares of a piece that the rules forbid in the layout on these planes with the uses.
fn check_piece(
    alloc: Global,
    planes: &[Plane],
    context: &CheckContext<'_>,
    piece: Rect,
    workspace: &mut Workspace,
) -> Result<Finding, AllocError>
    requires layout { HasLayout workspace.old.pool planes.now context.now.uses.library.now }
    ensures piece { IfOk result (λ finding. finding.piece ≡ piece) }
    ensures marks { IfOk result (λ finding. (x y : ℕ) → holds piece x y ≡ true → marks finding.marks x y
        ≡ forbidden context.now.rules.now (flat_layout workspace.old.pool context.now.uses planes.now) x y) }
    ensures pool { workspace.new.pool ≡ workspace.old.pool }
{
    let zone = piece.grow(context.rules.halo());
    let snapshot = Snapshot::read(alloc, planes, &context.uses, zone, workspace)?;
    check_here(alloc, context.rules, snapshot, piece)
}

/// Returns whether the finding is of this piece and by these rules.
fn is_of(finding: &Finding, piece: Rect, rules: &Rules) -> bool
    ensures { IsTrue result ↔ ((finding.now.piece ≡ piece) × (finding.now.rules ≡ rules.now)) }
{
    finding.piece() == piece && are_same(finding.rules(), rules)
}

/// Returns whether the rules are the same, in the same order.
fn are_same(one: &Rules, other: &Rules) -> bool
    ensures { IsTrue result ↔ (one.now ≡ other.now) }
{
    one.as_slice() == other.as_slice()
}
