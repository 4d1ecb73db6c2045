//! What holds of a part of a change. The functions are empty: their contracts are the laws.

ghost use Rattle.laws_partial.specs.Parts.{ColumnsAreLoosened, AddColumnParts, AddNotNullParts, SingleParts};

/// A column that was added and then made NOT NULL is made nullable again, and stays the last of its
/// table.
pub fn columns_are_loosened()
    ensures { ColumnsAreLoosened }
{}

/// However many of an addColumn's statements ran, what takes each back gives the catalogue back.
pub fn parts_of_columns()
    ensures { AddColumnParts }
{}

/// The same of an addNotNullConstraint.
pub fn parts_of_not_null()
    ensures { AddNotNullParts }
{}

/// The same of each type that gives one statement.
pub fn parts_of_singles()
    ensures { SingleParts }
{}
