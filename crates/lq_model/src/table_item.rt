use crate::column::ColumnDef;
use crate::constraint::{ForeignKey, Key, Unique};
use lq_base::{Kind, Literal, Name};

/// A constraint that an SQL text states apart from its columns.
#[derive(Drop)]
pub enum TableConstraint {
    Key(Key),
    Unique(Unique),
    Foreign(ForeignKey),
}

/// What stands between two commas of CREATE TABLE. A column has the constraints that its clauses state.
pub enum TableItem {
    Column {
        column: ColumnDef,
        key: Option<Key>,
        unique: Option<Unique>,
        foreign: Option<ForeignKey>,
    },
    Constraint(TableConstraint),
}

// Written out, so that each place that lets one go is one call.
impl Drop for TableItem {
    fn drop(self) {
        match self {
            TableItem::Column {
                column,
                key,
                unique,
                foreign,
            } => {
                drop(column);
                drop(key);
                drop(unique);
                drop(foreign);
            }
            TableItem::Constraint(it) => drop(it),
        }
    }
}

/// The table and column that a column's REFERENCES names.
#[derive(Drop)]
pub struct Target {
    pub table: Name,
    pub column: Name,
}

/// What one clause of a column states.
#[derive(Drop)]
pub enum ColumnClause {
    /// True for NULL, false for NOT NULL.
    Nullable(bool),
    Default(Literal),
    /// The column gets the next number where a row states none.
    Numbered,
    PrimaryKey,
    Unique,
    References(Target),
}

/// A column with what its clauses in an SQL text state of it.
#[derive(Drop)]
pub struct StatedColumn {
    pub name: Name,
    pub kind: Kind,
    /// True for NULL, false for NOT NULL.
    pub nullable: Option<bool>,
    pub default: Option<Literal>,
    pub numbered: bool,
    pub key: bool,
    pub unique: bool,
    pub target: Option<Target>,
}
