ghost use Rattle.lq_plan.specs.Told.{HeadsTell};

/// The heads of changesets tell their faults, their turns and which of them a status lists.
pub fn heads_tell<K>()
    ensures { HeadsTell K }
{}
