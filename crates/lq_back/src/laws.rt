ghost use Rattle.lq_back.specs.Laws.{PlacesAreKnown, TurnsBackAreSpelled};

/// The place by which a row is taken back is that of the changeset of its identity.
pub fn places_are_known()
    ensures { PlacesAreKnown }
{}

/// The statements of the turns that take rows back are statements of the dialect, and each deletes
/// its row.
pub fn turns_back_are_spelled()
    ensures { TurnsBackAreSpelled }
{}
