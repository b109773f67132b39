//! Rows of up to 64 columns, where many rows above each other gain the same columns at once.
ghost use Rattle.std.specs.Prelude.{◌≡◌, ◌≤◌, ◌||◌, ◌&&◌, ℕ, false, not, length, IfOk};
ghost use Rattle.mls_checker.specs.Grids.{has_column, has_square, is_between, stacked};
ghost use Rattle.mls_kinds.specs.KindSets.{has_bit};

use crate::words::{STACK, clear, fill, join, lay_out, stack};
use std::alloc::{AllocError, Global};
use std::marker::Model;

/// A word for each row. What a tall part gains is kept as stacks, which are laid out late: once for all parts.
#[derive(Drop)]
pub(crate) struct RowWords {
    words: Vec<u64>,
    /// For each row the columns that it gains together with the rows above it, a stack.
    stacks: Vec<u64>,
    has_stacks: bool,
}

impl Model for RowWords {
    ghost use Rattle.std.specs.Prelude.{◌≡◌, ℕ, false, length};
    ghost use Rattle.mls_checker.specs.Grids.{RowWords, stacked};

    ghost Value = { RowWords };

    ghost view = { λ r. record { words = r.words.items; stacks = r.stacks.items } };

    ghost invariant = { λ r. (length r.words.items ≡ length r.stacks.items)
        × (r.has_stacks ≡ false → (row column : ℕ) → stacked 16 r.stacks.items row column ≡ false) };
}

impl RowWords {
    /// Creates so many rows, which have no columns.
    pub fn new(alloc: Global, rows: usize) -> Result<RowWords, AllocError>
        ensures length { IfOk result (λ r. length r.words ≡ rows) }
        ensures none { IfOk result (λ r. (row column : ℕ) → has_square r row column ≡ false) }
    {
        let words = vec![in alloc; 0; rows]?;
        let stacks = vec![in alloc; 0; rows]?;
        Ok(RowWords {
            words,
            stacks,
            has_stacks: false,
        })
    }

    /// Adds the columns of a word to each row from one line up to another.
    pub fn fill(&mut self, from: usize, to: usize, columns: u64)
        requires ordered { from ≤ to }
        requires within { to ≤ length self.old.words }
        ensures length { length self.new.words ≡ length self.old.words }
        ensures squares { (row column : ℕ) → has_square self.new row column
            ≡ (has_square self.old row column || (is_between from to row && has_bit columns column)) }
    {
        if to - from < STACK {
            fill(&mut self.words, from, to, columns);
        } else {
            stack(&mut self.stacks, from, to, columns);
            self.has_stacks = true;
        }
    }

    /// Takes the columns of a word away from each row from one line up to another.
    pub fn clear(&mut self, from: usize, to: usize, columns: u64)
        requires ordered { from ≤ to }
        requires within { to ≤ length self.old.words }
        ensures length { length self.new.words ≡ length self.old.words }
        ensures squares { (row column : ℕ) → has_square self.new row column
            ≡ (has_square self.old row column && not (is_between from to row && has_bit columns column)) }
    {
        self.lay_out();
        clear(&mut self.words, from, to, columns);
    }

    /// Adds the columns of each row to other words, and begins anew with none.
    pub fn move_to(&mut self, words: &mut [u64])
        requires { length words.old ≡ length self.old.words }
        ensures length { length self.new.words ≡ length self.old.words }
        ensures none { (row column : ℕ) → has_square self.new row column ≡ false }
        ensures moved { (row column : ℕ) → has_column words.new row column
            ≡ (has_column words.old row column || has_square self.old row column) }
    {
        self.lay_out();
        join(words, &self.words);
        self.words.fill(0);
    }

    /// Lays the stacks out.
    fn lay_out(&mut self)
        ensures length { length self.new.words ≡ length self.old.words }
        ensures squares { (row column : ℕ) → has_column self.new.words row column ≡ has_square self.old row column }
        ensures none { (row column : ℕ) → stacked 16 self.new.stacks row column ≡ false }
    {
        if self.has_stacks {
            lay_out(&mut self.words, &self.stacks);
            self.stacks.fill(0);
            self.has_stacks = false;
        }
    }
}
