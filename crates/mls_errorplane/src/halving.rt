//! Where a large rectangle is cut in two, so that few tiles lie in each part.
ghost use Rattle.std.specs.Prelude.{◌≡◌, ◌+◌, ◌<◌, ◌⊎◌, IfSome};
ghost use Rattle.mls_layout.specs.Uses.{HasPlanes};
ghost use Rattle.mls_errorplane.specs.Halves.{AreHalves};

use mls_geom::{Area, Rect};
use mls_layout::{Uses, Workspace};
use mls_paint::find_meeting;
use mls_stitch::{LaidTile, Plane};

/// A rectangle that is at most this wide and this high isn't cut.
const SMALL: u32 = 65_536;

/// A rectangle in which at most this many tiles lie, and uses show nothing, isn't cut.
const FEW_TILES: usize = 1024;

/// A side of at most this many squares isn't cut.
const SHORT: u32 = 256;

/// How many tiles lie in a rectangle, and how many of them across the line in the middle of its columns, and of its
/// rows. It says where to cut: nothing is promised of it.
#[derive(Clone, Copy, Default)]
struct Crossing {
    tiles: usize,
    columns: usize,
    rows: usize,
}

impl Crossing {
    /// Returns whether a rectangle this wide and this high is better cut between two rows than between two columns.
    fn cuts_rows(self, width: u32, height: u32) -> bool {
        if self.tiles > FEW_TILES && self.rows != self.columns {
            return self.rows < self.columns;
        }
        height >= width
    }

    /// Counts these tiles too, which lie in the rectangle between the lines.
    fn count(&mut self, tiles: &[LaidTile], lines: Area) {
        let column = middle(lines.left, lines.right);
        let row = middle(lines.bottom, lines.top);
        self.tiles = self.tiles.saturating_add(tiles.len());
        for tile in tiles {
            let area = tile.piece.rect.area();
            if area.left < column && column < area.right {
                self.columns = self.columns.saturating_add(1);
            }
            if area.bottom < row && row < area.top {
                self.rows = self.rows.saturating_add(1);
            }
        }
    }
}

/// Returns the halves of a rectangle in which many tiles lie or uses may show something, unless it is small. No memory
/// is taken.
pub(crate) fn halves(
    planes: &[Plane],
    uses: &Uses<'_>,
    rect: Rect,
    workspace: &mut Workspace,
) -> Option<(Rect, Rect)>
    requires planes { HasPlanes workspace.old.pool planes.now }
    ensures halves { IfSome result (λ halves. AreHalves rect halves.0 halves.1) }
    ensures pool { workspace.new.pool ≡ workspace.old.pool }
{
    let lines = rect.area();
    let longer = (lines.right - lines.left).max(lines.top - lines.bottom);
    if longer <= SMALL {
        return None;
    }
    let crossing = crossing_in(planes, rect, workspace);
    if crossing.tiles <= FEW_TILES && !uses.meet(rect) {
        return None;
    }
    Some(better_halves(rect, crossing))
}

/// Returns the left and the right half of a rectangle, or the lower and the upper one: where many tiles lie those that
/// fewer of them cross, and else the halves of the longer side. A side of at most 256 squares isn't cut.
fn better_halves(rect: Rect, crossing: Crossing) -> (Rect, Rect)
    requires large { (rect.left + 256 < rect.right) ⊎ (rect.bottom + 256 < rect.top) }
    ensures halves { AreHalves rect result.0 result.1 }
{
    let lines = rect.area();
    let width = lines.right - lines.left;
    let height = lines.top - lines.bottom;
    if width <= SHORT {
        return below_and_above(rect);
    }
    if height > SHORT && crossing.cuts_rows(width, height) {
        return below_and_above(rect);
    }
    left_and_right(rect)
}

/// Returns the halves of the longer side of a rectangle.
pub(crate) fn longer_halves(rect: Rect) -> (Rect, Rect)
    requires { (rect.left + 256 < rect.right) ⊎ (rect.bottom + 256 < rect.top) }
    ensures { AreHalves rect result.0 result.1 }
{
    better_halves(rect, Crossing::default())
}

/// Returns how many tiles of the planes lie in the rectangle, and how many across its middle.
fn crossing_in(planes: &[Plane], rect: Rect, workspace: &mut Workspace) -> Crossing
    requires planes { HasPlanes workspace.old.pool planes.now }
    ensures pool { workspace.new.pool ≡ workspace.old.pool }
{
    let lines = rect.area();
    let mut crossing = Crossing::default();
    for index in 0..planes.len() {
        let Workspace { pool, scratch, .. } = workspace;
        find_meeting(pool, &planes[index], rect, scratch);
        crossing.count(scratch.tiles(), lines);
    }
    crossing
}

/// Returns the line in the middle between two others.
fn middle(from: u32, to: u32) -> u32
    ensures { from + 1 < to → (from < result) × (result < to) }
{
    from + to.saturating_sub(from) / 2
}

/// Returns the left and the right half of a rectangle.
fn left_and_right(rect: Rect) -> (Rect, Rect)
    requires { rect.left + 1 < rect.right }
    ensures { AreHalves rect result.0 result.1 }
{
    let lines = rect.area();
    let column = middle(lines.left, lines.right);
    (
        Rect::between(lines.left, lines.bottom, column, lines.top),
        Rect::between(column, lines.bottom, lines.right, lines.top),
    )
}

/// Returns the lower and the upper half of a rectangle.
fn below_and_above(rect: Rect) -> (Rect, Rect)
    requires { rect.bottom + 1 < rect.top }
    ensures { AreHalves rect result.0 result.1 }
{
    let lines = rect.area();
    let row = middle(lines.bottom, lines.top);
    (
        Rect::between(lines.left, lines.bottom, lines.right, row),
        Rect::between(lines.left, row, lines.right, lines.top),
    )
}
