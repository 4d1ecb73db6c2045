//! What is accepted one after another. The functions are empty: their contracts are the laws.

ghost use Rattle.laws_stages.specs.Making.{ForeignKeysAreAdded, SequencesAreMade, TablesAreFilled, ViewsAreMade};

/// The sequences of a sound catalogue are made where nothing stands.
pub fn sequences_are_made()
    ensures { SequencesAreMade }
{}

/// Its tables, as CREATE TABLE makes them, get their keys, unique constraints and indexes, table by
/// table.
pub fn tables_are_filled()
    ensures { TablesAreFilled }
{}

/// Then they get their foreign keys, to themselves and in circles as well.
pub fn foreign_keys_are_added()
    ensures { ForeignKeysAreAdded }
{}

/// And the views over them are made.
pub fn views_are_made()
    ensures { ViewsAreMade }
{}
