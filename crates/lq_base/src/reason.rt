ghost use Rattle.std.specs.Prelude.{◌≡◌};
ghost use Rattle.lq_base.specs.Name.{reason_text};

/// Why the engine refuses a statement or a query. Where several apply, the engine's rules say which.
#[derive(Clone, Copy, Debug, PartialEq, Eq)]
pub enum Reason {
    /// A name that is made is taken, or made twice.
    Exists = 1,
    /// Something that is named is not there.
    Missing,
    /// Something else needs what would change.
    Depends,
    /// A null in a NOT NULL column.
    NullFound,
    /// Two rows equal in a key, a unique constraint or a unique index.
    Duplicate,
    /// A row without its parent.
    NoParent,
    /// A row of another table would lose its parent, or after a Delete one of the same table.
    HasChildren,
    /// A value that is out of its kind.
    TooWide,
    /// Kinds or numbers of columns that differ.
    WrongKind,
    /// A tracking table, named by a user's statement.
    Reserved,
    /// More than 100,000 rows in a table.
    TooManyRows,
    /// A query that does not answer one value.
    NotOne,
}

impl Reason {
    /// The text of the reason, as messages have it.
    pub fn text(self) -> &'static str
        ensures { result.now ≡ reason_text self }
    {
        match self {
            Reason::Exists => "exists",
            Reason::Missing => "missing",
            Reason::Depends => "depends",
            Reason::NullFound => "null found",
            Reason::Duplicate => "duplicate",
            Reason::NoParent => "no parent",
            Reason::HasChildren => "has children",
            Reason::TooWide => "too wide",
            Reason::WrongKind => "wrong kind",
            Reason::Reserved => "reserved",
            Reason::TooManyRows => "too many rows",
            Reason::NotOne => "not one value",
        }
    }
}
