ghost use Rattle.lq_turns.specs.Set.{IsKept};
ghost use Rattle.lq_seen.specs.View.{StatementsAreSpelled, ViewsAreRead, any_meaning};

/// Changes of any type keep what changes promise, so that the laws of turns hold of the changesets.
pub fn meaning_is_kept()
    ensures { IsKept any_meaning }
{}

/// What the commands see of a changelog was read for the dialect that the changelog was read for.
pub fn views_are_read()
    ensures { ViewsAreRead }
{}

/// The statements of changes that were read for a dialect are statements of it.
pub fn statements_are_spelled()
    ensures { StatementsAreSpelled }
{}
