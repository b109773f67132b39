//! Lines in ascending order.
ghost use Rattle.std.specs.Prelude.{◌≡◌, ◌<◌, ◌≤◌, ◌↔◌, ℕ, IfNone, IfSome, IsTrue, length, slice_index, vec_len, vec_capacity};
ghost use Rattle.std.specs.List.{Contains};
ghost use Rattle.std.specs.List.Sorted.{IsStrictlyIncreasing};

/// Sorts lines and removes duplicates.
pub(crate) fn sort_dedup(lines: &mut Vec<u32>)
    ensures ascending { IsStrictlyIncreasing lines.new.items }
    ensures members { (line : ℕ) → Contains lines.new.items line ↔ Contains lines.old.items line }
    ensures len { vec_len lines.new ≤ vec_len lines.old }
    ensures room { vec_capacity lines.new ≡ vec_capacity lines.old }
{
    lines.sort_unstable();
    lines.dedup();
}

/// Returns whether each line stands to the left of the next, or below it.
pub(crate) fn are_ascending(lines: &[u32]) -> bool
    ensures { IsTrue result → IsStrictlyIncreasing lines.now }
{
    for i in 1..lines.len() {
        if lines[i] <= lines[i - 1] {
            return false;
        }
    }
    true
}

/// Returns whether the line stands at the index.
fn is_at(lines: &[u32], line: u32, index: usize) -> bool
    ensures { IsTrue result → (index < length lines.now) × (slice_index lines.now index ≡ line) }
{
    index < lines.len() && lines[index] == line
}

/// Returns the index of a line in an ascending list, or `None` where it isn't listed. Looks at `near` and next to it
/// first.
pub(crate) fn find_line(lines: &[u32], line: u32, near: usize) -> Option<usize>
    requires { IsStrictlyIncreasing lines.now }
    ensures found { IfSome result (λ index. (index < length lines.now) × (slice_index lines.now index ≡ line)) }
    ensures none { IfNone result (¬ (Contains lines.now line)) }
{
    let before = near.saturating_sub(1);
    if is_at(lines, line, before) {
        return Some(before);
    }
    if is_at(lines, line, near) {
        return Some(near);
    }
    let after = near.saturating_add(1);
    if is_at(lines, line, after) {
        return Some(after);
    }
    lines.binary_search(&line).ok()
}
