ghost use Rattle.lq_players.specs.AnyCommand.{NamesAreApart};

/// No lock is that of two commands whose names differ.
pub fn names_are_apart()
    ensures { NamesAreApart }
{}
