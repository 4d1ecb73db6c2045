ghost use Rattle.lq_stand.specs.Stays.{CleanStands, PlacesAreSmall, CallsStayClean, CleanIsFound, ClearIsFirst, ReleaseIsFirst, RollbackIsFirst, StatementsStayApart, StopsStayClean, SyncIsFirst, TagIsFirst, UpdateIsFirst};
ghost use Rattle.lq_turns.specs.Set.{meaning};

use lq_model::Change;

/// A sound catalogue that is clean, as one that was loaded is, stands for a database.
pub fn clean_stands()
    ensures { CleanStands }
{}

/// Each place in run order has 31 bits, in a database that a sound catalogue stands for.
pub fn places_are_small()
    ensures { PlacesAreSmall }
{}

/// A user's statement leaves the users' objects apart from the tracking tables.
pub fn statements_stay_apart()
    ensures { StatementsStayApart }
{}

/// A catalogue that stands for a clean database is clean.
pub fn clean_is_found()
    ensures { CleanIsFound }
{}

/// Calls whose new rows are the first of their identities, and stand behind all others, leave a clean
/// database where a catalogue stands for it.
pub fn calls_stay_clean()
    ensures { CallsStayClean }
{}

/// And so does a stop of them.
pub fn stops_stay_clean()
    ensures { StopsStayClean }
{}

/// The new rows of an update are the first of their identities, and stand behind all others.
pub fn update_is_first<C: Change>()
    ensures { UpdateIsFirst (meaning C.is_for C.gives C.effect C.fresh C.inverse) }
{}

/// Those of a changelog-sync too.
pub fn sync_is_first<K>()
    ensures { SyncIsFirst K }
{}

/// A rollback has none.
pub fn rollback_is_first()
    ensures { RollbackIsFirst }
{}

/// A tag has none.
pub fn tag_is_first()
    ensures { TagIsFirst }
{}

/// A clear-checksums has none.
pub fn clear_is_first()
    ensures { ClearIsFirst }
{}

/// A release-locks has none.
pub fn release_is_first()
    ensures { ReleaseIsFirst }
{}
