//! A segment tree on slots (Bentley 1977): which of the present pieces lies on top in each slot.
ghost use Rattle.std.specs.Prelude.{◌≡◌, ◌≢◌, ℕ, ◌+◌, ◌*◌, ◌^◌, ◌==◌, suc, nat_lt, ◌<◌, ◌≤◌, ◌++◌, Option, [], ◌∷◌, Bool, true, false, if◌then◌else◌, List, OnOk, length};
ghost use Rattle.mls_geom.specs.Sweep.Chains.{Each, IsChain, rank_of, stepped};
ghost use Rattle.mls_geom.specs.Sweep.Events.{IsNext, moved};
ghost use Rattle.mls_geom.specs.Sweep.Trees.{AreLinked, Bounds, EndsFirst, HasChanged, HasHeight, HasWidth, IsSummed, IsSummedUp, IsTop, IsTree, end_of, has_node, kind_shown, node_at, node_of, none, shown, span_of, with_piece, without_piece};

use crate::chain::{Entry, GaveUp, Step, change, top};
use crate::node::{Node, kind_shown};
use crate::part::{Part, Span};
use crate::segment::Segment;
use mls_kinds::Kind;
use std::alloc::{AllocError, Global};

/// A segment tree. Its nodes stand in the order of their middles.
#[derive(Drop)]
pub(crate) struct Tree {
    pub(crate) width: usize,
    pub(crate) segments: Vec<Segment>,
    pub(crate) nodes: Vec<Node>,
    pub(crate) entries: Vec<Entry>,
}

/// What a slot and those after it, up to an end, show: a kind, or nothing.
#[derive(Clone, Copy)]
pub(crate) struct Stretch {
    pub(crate) kind: Option<Kind>,
    pub(crate) end: usize,
}

/// Whether a piece may lie on top in a slot and those after it, up to an end.
#[derive(Clone, Copy)]
pub(crate) struct Reach {
    pub(crate) shows: bool,
    pub(crate) end: usize,
}

impl Tree {
    /// Creates a tree without room.
    pub(crate) fn new(alloc: Global) -> Tree {
        Tree {
            width: 0,
            segments: Vec::new(alloc),
            nodes: Vec::new(alloc),
            entries: Vec::new(alloc),
        }
    }

    /// Reserves room for so many pieces.
    pub(crate) fn reserve(&mut self, pieces: usize) -> Result<(), AllocError> {
        self.segments.reserve_exact(pieces)?;
        self.nodes
            .reserve_exact(pieces.saturating_mul(8).saturating_add(8))?;
        self.entries.reserve_exact(pieces.saturating_mul(34))
    }

    /// Begins a tree of at least this many slots, without pieces.
    pub(crate) fn begin(&mut self, slots: usize) -> Result<(), GaveUp>
        ensures tree { OnOk result (IsTree self.new none) }
        ensures slots { OnOk result (slots ≤ self.new.width) }
        ensures segments { OnOk result (self.new.segments.items ≡ []) }
    {
        self.segments.clear();
        self.entries.clear();
        self.nodes.clear();
        let Some(width) = slots.checked_next_power_of_two() else {
            return Err(GaveUp);
        };
        if self.nodes.capacity() / 2 < width {
            return Err(GaveUp);
        }
        self.width = width;
        // Their room is reserved, so the call succeeds.
        self.nodes.resize(2 * width - 1, Node::empty()).unwrap();
        Ok(())
    }

    /// Changes the chain of a node for a piece that begins or ends.
    fn change_at(&mut self, node: usize, piece: u32, step: Step) -> Result<(), GaveUp>
        requires few { length self.old.segments.items < 2 ^ 32 }
        requires known { piece < length self.old.segments.items }
        requires node { node < length self.old.nodes.items }
        requires linked { (chains : ℕ → List ℕ) × AreLinked self.old chains }
        ensures linked { OnOk result ((chains : ℕ → List ℕ) → AreLinked self.old chains
            → AreLinked self.new (λ n. if n == node then stepped step (end_of self.old.segments.items) piece (chains n) else chains n)) }
        ensures others { (n : ℕ) → n ≢ node → node_at self.new.nodes.items n ≡ node_at self.old.nodes.items n }
        ensures nodes { length self.new.nodes.items ≡ length self.old.nodes.items }
        ensures segments { self.new.segments ≡ self.old.segments }
        ensures width { self.new.width ≡ self.old.width }
    {
        let head = self.nodes[node].head;
        let head = change(&self.segments, &mut self.entries, node, head, piece, step)?;
        let top = top(&self.entries, head);
        let at = &mut self.nodes[node];
        at.head = head;
        at.top = top;
        Ok(())
    }

    /// Sets what a part's topmost node says of its slots, once the nodes below it say what theirs show.
    fn sum_up(&mut self, part: Part)
        requires width { (height : ℕ) × HasWidth height part }
        requires within { 2 * (part.first + part.width) ≤ length self.old.nodes.items + 1 }
        requires few { length self.old.segments.items < 2 ^ 32 }
        requires linked { (chains : ℕ → List ℕ) × AreLinked self.old chains }
        ensures summed { (height : ℕ) → HasWidth height part → IsSummedUp self.old self.new height part.first }
        ensures nodes { length self.new.nodes.items ≡ length self.old.nodes.items }
        ensures segments { self.new.segments ≡ self.old.segments }
        ensures width { self.new.width ≡ self.old.width }
    {
        let below = self.below(part);
        let top = self.nodes[part.node()].top;
        let shown = below.under(&self.segments, top);
        let node = &mut self.nodes[part.node()];
        node.least = top.max(below.least);
        node.most = top.max(below.most);
        node.shown = shown;
    }

    /// Returns a node that bounds what the slots of a part show of the nodes below its topmost one.
    fn below(&self, part: Part) -> Node
        requires width { (height : ℕ) × HasWidth height part }
        requires within { 2 * (part.first + part.width) ≤ length self.now.nodes.items + 1 }
        ensures leaf { part.width ≡ 1 → Bounds self.now.segments.items result 0 }
        ensures halves { (height : ℕ) (ranks : ℕ → ℕ) (s : ℕ) → HasWidth (suc height) part → part.first ≤ s → s < part.first + part.width
            → IsSummed self.now.segments.items self.now.nodes.items ranks height part.first
            → IsSummed self.now.segments.items self.now.nodes.items ranks height (part.first + 2 ^ height)
            → Bounds self.now.segments.items result
            (if nat_lt s (part.first + 2 ^ height) then shown ranks height part.first s else shown ranks height (part.first + 2 ^ height) s) }
    {
        if part.width == 1 {
            return Node::empty();
        }
        let left = self.nodes[part.left().node()];
        let right = self.nodes[part.right().node()];
        Node {
            head: None,
            top: 0,
            least: left.least.min(right.least),
            most: left.most.max(right.most),
            shown: left.shown.with(right.shown),
        }
    }

    /// Changes the chains of the part's topmost nodes that lie in the span of a piece that begins or ends.
    fn change_in(&mut self, part: Part, piece: u32, step: Step) -> Result<(), GaveUp>
        requires width { (height : ℕ) × HasWidth height part }
        requires within { 2 * (part.first + part.width) ≤ length self.old.nodes.items + 1 }
        requires few { length self.old.segments.items < 2 ^ 32 }
        requires known { piece < length self.old.segments.items }
        requires some { (span_of self.old.segments.items piece).first < (span_of self.old.segments.items piece).end }
        requires linked { (chains : ℕ → List ℕ) × AreLinked self.old chains }
        ensures changed { OnOk result ((height : ℕ) → HasWidth height part
            → HasChanged self.old self.new (span_of self.old.segments.items piece) (stepped step (end_of self.old.segments.items) piece) height part.first) }
        ensures nodes { length self.new.nodes.items ≡ length self.old.nodes.items }
        ensures segments { self.new.segments ≡ self.old.segments }
        ensures width { self.new.width ≡ self.old.width }
    {
        let span = self.segments[piece as usize].span;
        if !part.meets(span) {
            return Ok(());
        }
        if part.lies_in(span) {
            self.change_at(part.node(), piece, step)?;
            self.sum_up(part);
            return Ok(());
        }
        self.change_in(part.left(), piece, step)?;
        self.change_in(part.right(), piece, step)?;
        self.sum_up(part);
        Ok(())
    }

    /// Makes a piece present that isn't, or makes one absent that ends before all others that are present, or with them
    /// and lies under them.
    pub(crate) fn change(&mut self, piece: u32, step: Step) -> Result<(), GaveUp>
        requires tree { (present : ℕ → Bool) × IsTree self.old present }
        requires known { piece < length self.old.segments.items }
        ensures tree { OnOk result ((present : ℕ → Bool) → IsTree self.old present → IsNext step self.old.segments.items present piece
            → IsTree self.new (moved step present piece)) }
        ensures segments { self.new.segments ≡ self.old.segments }
        ensures width { self.new.width ≡ self.old.width }
    {
        let whole = Part {
            first: 0,
            width: self.width,
        };
        self.change_in(whole, piece, step)
    }

    /// Returns what the slot and those after it, up to an end, show.
    pub(crate) fn shown_from(&self, slot: usize) -> Stretch
        requires slot { slot < self.now.width }
        requires tree { (present : ℕ → Bool) × IsTree self.now present }
        ensures wide { slot < result.end }
        ensures shows { (present : ℕ → Bool) (s : ℕ) → IsTree self.now present → slot ≤ s → s < result.end
            → (rank : ℕ) × IsTop self.now.segments.items present s rank × (result.kind ≡ kind_shown self.now.segments.items rank) }
    {
        let mut part = Part {
            first: 0,
            width: self.width,
        };
        let mut above = 0;
        while part.width > 1 {
            let node = self.nodes[part.node()];
            if let Some(kind) = node.decided(&self.segments, above) {
                return Stretch {
                    kind,
                    end: part.first + part.width,
                };
            }
            above = above.max(node.top);
            part = part.towards(slot);
        }
        let rank = above.max(self.nodes[part.node()].top);
        Stretch {
            kind: kind_shown(&self.segments, rank),
            end: part.first + part.width,
        }
    }

    /// Returns whether a piece may lie on top in the slot and those after it, up to an end. Where it doesn't, pieces
    /// over it do.
    pub(crate) fn shows_from(&self, slot: usize, piece: u32) -> Reach
        requires slot { slot < self.now.width }
        requires known { piece < length self.now.segments.items }
        requires tree { (present : ℕ → Bool) × IsTree self.now present }
        ensures wide { slot < result.end }
        ensures hidden { result.shows ≡ false → (present : ℕ → Bool) (s rank : ℕ) → IsTree self.now present
            → slot ≤ s → s < result.end → IsTop self.now.segments.items present s rank → piece + 1 < rank }
    {
        let rank = piece + 1;
        let segment = self.segments[piece as usize];
        let mut part = Part {
            first: 0,
            width: self.width,
        };
        let mut above = 0;
        while part.width > 1 {
            let node = self.nodes[part.node()];
            if let Some(shows) = node.may_show(above, rank, segment.kind) {
                return Reach {
                    shows,
                    end: part.first + part.width,
                };
            }
            above = above.max(node.top);
            part = part.towards(slot);
        }
        Reach {
            shows: above.max(self.nodes[part.node()].top) <= rank,
            end: part.first + part.width,
        }
    }
}
