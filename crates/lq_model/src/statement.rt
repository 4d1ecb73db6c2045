ghost use Rattle.std.specs.Prelude.{◌≡◌};
ghost use Rattle.lq_model.specs.Step.{commits_itself};

use crate::column::ColumnDef;
use crate::constraint::{ForeignKey, Key, Unique};
use crate::index::Index;
use crate::query::Query;
use crate::test::Test;
use lq_base::{Dialect, Items, Kind, Literal, Name};

/// What the engine runs. Which of these a dialect has, and how they are spelled, the spellings say.
pub enum Statement {
    CreateTable {
        table: Name,
        columns: Items<ColumnDef>,
        key: Option<Key>,
        uniques: Items<Unique>,
        foreign: Items<ForeignKey>,
    },
    DropTable {
        table: Name,
    },
    RenameTable {
        table: Name,
        to: Name,
    },
    AddColumn {
        table: Name,
        column: ColumnDef,
    },
    DropColumn {
        table: Name,
        column: Name,
    },
    RenameColumn {
        table: Name,
        column: Name,
        to: Name,
    },
    /// PostgreSQL alone.
    SetNotNull {
        table: Name,
        column: Name,
    },
    /// PostgreSQL alone.
    DropNotNull {
        table: Name,
        column: Name,
    },
    /// MySQL alone: sets the kind and whether null is allowed, and clears default and numbering.
    Modify {
        table: Name,
        column: Name,
        kind: Kind,
        nullable: bool,
    },
    SetDefault {
        table: Name,
        column: Name,
        value: Literal,
    },
    DropDefault {
        table: Name,
        column: Name,
    },
    AddPrimaryKey {
        table: Name,
        key: Key,
    },
    AddUnique {
        table: Name,
        unique: Unique,
    },
    AddForeignKey {
        table: Name,
        foreign: ForeignKey,
    },
    /// PostgreSQL alone: the constraint of that name, of whichever sort.
    DropConstraint {
        table: Name,
        name: Name,
    },
    /// MySQL alone.
    DropPrimaryKey {
        table: Name,
    },
    /// MySQL alone.
    DropUnique {
        table: Name,
        name: Name,
    },
    /// MySQL alone.
    DropForeignKey {
        table: Name,
        name: Name,
    },
    CreateIndex {
        table: Name,
        index: Index,
    },
    /// Under PostgreSQL without a table, under MySQL with its table.
    DropIndex {
        name: Name,
        table: Option<Name>,
    },
    CreateView {
        view: Name,
        query: Query,
        replace: bool,
    },
    DropView {
        view: Name,
    },
    /// PostgreSQL alone.
    RenameView {
        view: Name,
        to: Name,
    },
    /// PostgreSQL alone.
    CreateSequence {
        name: Name,
        start: i128,
        step: i128,
    },
    /// PostgreSQL alone.
    DropSequence {
        name: Name,
    },
    /// PostgreSQL alone.
    RenameSequence {
        name: Name,
        to: Name,
    },
    /// Without columns, the values are those of all columns in order.
    Insert {
        table: Name,
        columns: Items<Name>,
        values: Items<Literal>,
    },
    Update {
        table: Name,
        sets: Items<(Name, Literal)>,
        test: Option<Test>,
    },
    Delete {
        table: Name,
        test: Option<Test>,
    },
}

// Written out, so that each place that lets one go is one call.
impl Drop for Statement {
    fn drop(self) {
        match self {
            Statement::CreateTable {
                table,
                columns,
                key,
                uniques,
                foreign,
            } => {
                drop(table);
                drop(columns);
                drop(key);
                drop(uniques);
                drop(foreign);
            }
            Statement::DropTable { table } => drop(table),
            Statement::RenameTable { table, to } => {
                drop(table);
                drop(to);
            }
            Statement::AddColumn { table, column } => {
                drop(table);
                drop(column);
            }
            Statement::DropColumn { table, column } => {
                drop(table);
                drop(column);
            }
            Statement::RenameColumn { table, column, to } => {
                drop(table);
                drop(column);
                drop(to);
            }
            Statement::SetNotNull { table, column } => {
                drop(table);
                drop(column);
            }
            Statement::DropNotNull { table, column } => {
                drop(table);
                drop(column);
            }
            Statement::Modify {
                table,
                column,
                kind: _,
                nullable: _,
            } => {
                drop(table);
                drop(column);
            }
            Statement::SetDefault {
                table,
                column,
                value,
            } => {
                drop(table);
                drop(column);
                drop(value);
            }
            Statement::DropDefault { table, column } => {
                drop(table);
                drop(column);
            }
            Statement::AddPrimaryKey { table, key } => {
                drop(table);
                drop(key);
            }
            Statement::AddUnique { table, unique } => {
                drop(table);
                drop(unique);
            }
            Statement::AddForeignKey { table, foreign } => {
                drop(table);
                drop(foreign);
            }
            Statement::DropConstraint { table, name } => {
                drop(table);
                drop(name);
            }
            Statement::DropPrimaryKey { table } => drop(table),
            Statement::DropUnique { table, name } => {
                drop(table);
                drop(name);
            }
            Statement::DropForeignKey { table, name } => {
                drop(table);
                drop(name);
            }
            Statement::CreateIndex { table, index } => {
                drop(table);
                drop(index);
            }
            Statement::DropIndex { name, table } => {
                drop(name);
                drop(table);
            }
            Statement::CreateView {
                view,
                query,
                replace: _,
            } => {
                drop(view);
                drop(query);
            }
            Statement::DropView { view } => drop(view),
            Statement::RenameView { view, to } => {
                drop(view);
                drop(to);
            }
            Statement::CreateSequence {
                name,
                start: _,
                step: _,
            } => drop(name),
            Statement::DropSequence { name } => drop(name),
            Statement::RenameSequence { name, to } => {
                drop(name);
                drop(to);
            }
            Statement::Insert {
                table,
                columns,
                values,
            } => {
                drop(table);
                drop(columns);
                drop(values);
            }
            Statement::Update { table, sets, test } => {
                drop(table);
                drop(sets);
                drop(test);
            }
            Statement::Delete { table, test } => {
                drop(table);
                drop(test);
            }
        }
    }
}

impl Statement {
    /// Whether it commits by itself: under MySQL, unless it is of rows.
    pub fn commits_itself(&self, dialect: Dialect) -> bool
        ensures { result ≡ commits_itself dialect self.now }
    {
        match self {
            Statement::Insert { .. } | Statement::Update { .. } | Statement::Delete { .. } => false,
            _ => dialect == Dialect::Mysql,
        }
    }
}
