ghost use Rattle.std.specs.Prelude.{◌≡◌, ◌-◌, ◌≤◌};
ghost use Rattle.lq_undo.specs.Ago.{ago};

use crate::undo::{Undo, undo_to};

/// Rows, with the number that the next of them gets.
#[derive(Drop)]
pub struct Numbered<R> {
    pub rows: R,
    pub next: u64,
}

impl<R: Undo> Numbered<R> {
    /// Gives the rows and the next number as they were.
    pub fn go_back(&mut self, mark: u64, next: u64)
        requires { mark ≤ R.changes self.old.rows }
        ensures rows { self.new.rows
            ≡ ago R.before (R.changes self.old.rows - mark) self.old.rows }
        ensures next { self.new.next ≡ next }
    {
        undo_to(&mut self.rows, mark);
        self.next = next;
    }
}
