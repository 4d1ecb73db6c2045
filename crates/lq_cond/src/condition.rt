use lq_base::{Items, Name, Text};
use lq_model::Query;

/// A condition of one of the thirteen kinds (Liquibase's documentation, "Preconditions"). No kind
/// sees the tracking tables as tables.
pub enum Condition {
    /// The dialect is one of those that the names mean: `postgresql`, `mysql`, `all`, each also with
    /// `!`, which excludes it.
    Dbms {
        names: Items<Text>,
    },
    TableExists {
        table_name: Name,
    },
    ViewExists {
        view_name: Name,
    },
    ColumnExists {
        table_name: Name,
        column_name: Name,
    },
    SequenceExists {
        sequence_name: Name,
    },
    IndexExists {
        table_name: Name,
        index_name: Name,
    },
    UniqueConstraintExists {
        table_name: Name,
        constraint_name: Name,
    },
    ForeignKeyConstraintExists {
        foreign_key_table_name: Name,
        foreign_key_name: Name,
    },
    /// The table has a primary key, of that name where one is given.
    PrimaryKeyExists {
        table_name: Name,
        primary_key_name: Option<Name>,
    },
    /// A row tracks the changeset.
    ChangeSetExecuted {
        id: Text,
        author: Text,
        change_log_file: Text,
    },
    /// The query answers one value, which prints as the text.
    SqlCheck {
        expected_result: Text,
        sql: Query,
    },
    RowCount {
        table_name: Name,
        expected_rows: i128,
    },
    TableIsEmpty {
        table_name: Name,
    },
}

// Written out, so that each place that lets one go is one call.
impl Drop for Condition {
    fn drop(self) {
        match self {
            Condition::Dbms { names } => drop(names),
            Condition::TableExists { table_name } => drop(table_name),
            Condition::ViewExists { view_name } => drop(view_name),
            Condition::ColumnExists {
                table_name,
                column_name,
            } => {
                drop(table_name);
                drop(column_name);
            }
            Condition::SequenceExists { sequence_name } => drop(sequence_name),
            Condition::IndexExists {
                table_name,
                index_name,
            } => {
                drop(table_name);
                drop(index_name);
            }
            Condition::UniqueConstraintExists {
                table_name,
                constraint_name,
            } => {
                drop(table_name);
                drop(constraint_name);
            }
            Condition::ForeignKeyConstraintExists {
                foreign_key_table_name,
                foreign_key_name,
            } => {
                drop(foreign_key_table_name);
                drop(foreign_key_name);
            }
            Condition::PrimaryKeyExists {
                table_name,
                primary_key_name,
            } => {
                drop(table_name);
                drop(primary_key_name);
            }
            Condition::ChangeSetExecuted {
                id,
                author,
                change_log_file,
            } => {
                drop(id);
                drop(author);
                drop(change_log_file);
            }
            Condition::SqlCheck {
                expected_result,
                sql,
            } => {
                drop(expected_result);
                drop(sql);
            }
            Condition::RowCount {
                table_name,
                expected_rows: _,
            } => drop(table_name),
            Condition::TableIsEmpty { table_name } => drop(table_name),
        }
    }
}
