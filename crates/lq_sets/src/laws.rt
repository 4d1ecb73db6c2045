ghost use Rattle.lq_sets.specs.Counting.{ConditionsSee};

/// What a condition tells of a catalogue that stands for a database it tells of the users' objects.
pub fn conditions_see_users()
    ensures { ConditionsSee }
{}
