ghost use Rattle.std.specs.Prelude.{◌≡◌, ◌+◌, ◌-◌, ◌<◌, ◌≤◌, ℕ};
ghost use Rattle.lq_undo.specs.Ago.{ago};

/// What keeps all that it was before each of its changes.
pub trait Undo {
    /// The number of changes that are not undone.
    ghost changes: { Self → ℕ };

    /// What was there before the last change.
    ghost before: { Self → Self };

    /// The number of changes that are not undone.
    fn mark(&self) -> u64
        ensures { result ≡ changes self.now };

    /// Undoes the last change, if there is one.
    fn step_back(&mut self)
        ensures { self.new ≡ before self.old };

    /// An undone change is one less to be undone.
    ghost one_less: { (it : Self) → 0 < changes it → changes (before it) + 1 ≡ changes it };
}

/// Gives what was there when `mark` answered this number.
pub fn undo_to<H: Undo>(held: &mut H, mark: u64)
    requires { mark ≤ H.changes held.old }
    ensures { held.new ≡ ago H.before (H.changes held.old - mark) held.old }
{
    while mark < held.mark() {
        held.step_back();
    }
}
