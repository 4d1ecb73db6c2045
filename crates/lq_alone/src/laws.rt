ghost use Rattle.lq_alone.specs.Plain.{OneFrees, OneIsFull, OneLeaves, OneStands, OneEnds, OneRests, OneSteps, OneStops};

/// One runner stands at one of the places of its script.
pub fn one_stands<A>()
    ensures { OneStands A }
{}

/// Each front of its entries is what a stop of its script may leave.
pub fn one_leaves<A>()
    ensures { OneLeaves A }
{}

/// Where it meets a full journal the next call of its script has no room, or the one that frees the lock.
pub fn one_is_full<A>()
    ensures { OneIsFull A }
{}

/// Behind a fault it leaves the lock free, or with its mark.
pub fn one_frees<A>()
    ensures { OneFrees A }
{}

/// Its answer is by the refusal table, and what it leaves is what its script leaves.
pub fn one_ends<A>()
    ensures { OneEnds A }
{}

/// What it leaves that a fault ended is what a stop of its script may leave.
pub fn one_stops<A>()
    ensures { OneStops A }
{}

/// And where the journal's room ended it, how its lock is left.
pub fn one_rests<A>()
    ensures { OneRests A }
{}

/// Without a fault its steps are those of the schedule of this one runner.
pub fn one_steps<A>()
    ensures { OneSteps A }
{}
