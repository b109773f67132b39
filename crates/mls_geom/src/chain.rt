//! The chains of the nodes of a segment tree: which of the present pieces that have a node can lie on top there.
ghost use Rattle.std.specs.Prelude.{◌≡◌, ◌≢◌, ℕ, ◌+◌, ◌^◌, ◌<◌, ◌≤◌, ◌++◌, IfOk, OnOk, OnErr, Option, Some, IfSome, IsNone, List, [], ◌∷◌, length};
ghost use Rattle.mls_geom.specs.Sweep.Chains.{Each, HasChain, IsChain, IsFalling, IsSplitAt, entry_at, linked, outliving, rank_of, stepped, under_of, unlinked};
ghost use Rattle.mls_geom.specs.Sweep.Trees.{end_of};

use crate::segment::Segment;

/// A list was full.
#[derive(Clone, Copy)]
pub(crate) struct GaveUp;

/// A present piece of a node, and the entry of the next one under it in the node's chain.
#[derive(Clone, Copy)]
pub(crate) struct Entry {
    pub(crate) node: usize,
    pub(crate) piece: u32,
    pub(crate) under: Option<u32>,
}

/// What a piece does at a line.
#[derive(Clone, Copy)]
pub(crate) enum Step {
    /// It begins, and is linked into the chains of its nodes.
    Begins,
    /// It ends, and is unlinked from those of them in which it is the first one.
    Ends,
}

/// Returns the last entry of the chain from `head` on down to which all pieces lie over this one and end before it, and
/// the entry under it, or `None` if the piece of that lies over this one until it ends.
fn place(
    segments: &[Segment],
    entries: &[Entry],
    head: Option<u32>,
    piece: u32,
) -> Option<(Option<u32>, Option<u32>)>
    requires known { piece < length segments.now }
    requires chain { (node : ℕ) × HasChain entries.now (length segments.now) node head }
    ensures hidden { IsNone result → (node : ℕ) (chain : List ℕ) → IsChain entries.now node head chain
        → linked (end_of segments.now) piece chain ≡ chain }
    ensures split { IfSome result (λ at. (node : ℕ) (chain : List ℕ) → IsChain entries.now node head chain
        → IsSplitAt (end_of segments.now) piece entries.now node head chain at.0) }
    ensures under { IfSome result (λ at. (at.1 ≡ under_of entries.now head at.0)
        × IfSome at.1 (λ e. (entry_at entries.now e).piece ≤ piece)) }
{
    let end = segments[piece as usize].end;
    let mut over = None;
    let mut under = head;
    while let Some(entry) = under {
        let at = entries[entry as usize];
        if at.piece <= piece {
            break;
        }
        if end <= segments[at.piece as usize].end {
            return None;
        }
        over = under;
        under = at.under;
    }
    Some((over, under))
}

/// Returns the first entry of the chain from `head` on whose piece ends after this one.
fn first_after(
    segments: &[Segment],
    entries: &[Entry],
    head: Option<u32>,
    piece: u32,
) -> Option<u32>
    requires known { piece < length segments.now }
    requires chain { (node : ℕ) × HasChain entries.now (length segments.now) node head }
    ensures { (node : ℕ) (chain : List ℕ) → IsChain entries.now node head chain
        → IsChain entries.now node result (outliving (end_of segments.now) piece chain) }
{
    let end = segments[piece as usize].end;
    let mut next = head;
    while let Some(entry) = next {
        let at = entries[entry as usize];
        if end < segments[at.piece as usize].end {
            break;
        }
        next = at.under;
    }
    next
}

/// Links a piece into the chain of a node from `head` on, unless one of the chain lies over it until it ends, and
/// unlinks those over which it does. Returns the chain's first entry.
fn link(
    segments: &[Segment],
    entries: &mut Vec<Entry>,
    node: usize,
    head: Option<u32>,
    piece: u32,
) -> Result<Option<u32>, GaveUp>
    requires known { piece < length segments.now }
    requires chain { HasChain entries.old.items (length segments.now) node head }
    ensures chain { (chain : List ℕ) → IsChain entries.old.items node head chain → IsFalling chain
        → IfOk result (λ head. IsChain entries.new.items node head (linked (end_of segments.now) piece chain)) }
    ensures others { (other : ℕ) (next : Option ℕ) (chain : List ℕ) → other ≢ node
        → IsChain entries.old.items other next chain → IsChain entries.new.items other next chain }
{
    let Some((over, under)) = place(segments, entries, head, piece) else {
        return Ok(head);
    };
    let under = first_after(segments, entries, under, piece);
    let Ok(added) = u32::try_from(entries.len()) else {
        return Err(GaveUp);
    };
    if entries.len() == entries.capacity() {
        return Err(GaveUp);
    }
    entries.push_reserved(Entry { node, piece, under });
    let Some(over) = over else {
        return Ok(Some(added));
    };
    entries[over as usize].under = Some(added);
    Ok(head)
}

/// Changes the chain of a node from `head` on for a piece that begins or ends, and returns its first entry.
pub(crate) fn change(
    segments: &[Segment],
    entries: &mut Vec<Entry>,
    node: usize,
    head: Option<u32>,
    piece: u32,
    step: Step,
) -> Result<Option<u32>, GaveUp>
    requires known { piece < length segments.now }
    requires chain { HasChain entries.old.items (length segments.now) node head }
    ensures chain { (chain : List ℕ) → IsChain entries.old.items node head chain → IsFalling chain
        → IfOk result (λ head. IsChain entries.new.items node head (stepped step (end_of segments.now) piece chain)) }
    ensures others { (other : ℕ) (next : Option ℕ) (chain : List ℕ) → other ≢ node
        → IsChain entries.old.items other next chain → IsChain entries.new.items other next chain }
{
    if let Step::Begins = step {
        return link(segments, entries, node, head, piece);
    }
    match head {
        Some(entry) if entries[entry as usize].piece == piece => Ok(entries[entry as usize].under),
        _ => Ok(head),
    }
}

/// Returns the rank of the first piece of the chain from `head` on: its index and 1, or 0 where there is none.
pub(crate) fn top(entries: &[Entry], head: Option<u32>) -> u32
    requires chain { (node : ℕ) × ((chain : List ℕ) × IsChain entries.now node head chain
        × Each (λ piece. piece + 1 < 2 ^ 32) chain) }
    ensures { (node : ℕ) (chain : List ℕ) → IsChain entries.now node head chain → result ≡ rank_of chain }
{
    match head {
        Some(entry) => entries[entry as usize].piece + 1,
        None => 0,
    }
}
