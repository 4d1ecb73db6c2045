ghost use Rattle.std.specs.Prelude.{◌≡◌};
ghost use Rattle.lq_tree.specs.Look.{Reads, within};
ghost use Rattle.lq_cond.specs.Kinds.{a_condition, a_query, changeset_executed, column_exists, condition_at, dbms, foreign_key_exists, index_exists, kind_named, primary_key_exists, row_count, sequence_exists, sql_check, table_exists, table_is_empty, unique_exists, view_exists};

use crate::condition::Condition;
use crate::dialects::dialect_names;
use lq_base::{KindFault, Text};
use lq_model::{ParseFault, Query, SqlText};
use lq_tree::{
    Given, Node, Reader, bad, known, optional, placed, public, required, required_by, unknown,
};
use std::alloc::Global;

/// The kinds of conditions.
#[derive(Clone, Copy, PartialEq, Eq)]
pub(crate) enum ConditionKind {
    Dbms,
    TableExists,
    ViewExists,
    ColumnExists,
    SequenceExists,
    IndexExists,
    UniqueConstraintExists,
    ForeignKeyConstraintExists,
    PrimaryKeyExists,
    ChangeSetExecuted,
    SqlCheck,
    RowCount,
    TableIsEmpty,
}

#[tactic(auto, unfolding(crate::specs::Kinds::kind_named))]
fn kind_named(name: &str) -> Option<ConditionKind>
    ensures { result ≡ kind_named name.now }
{
    match name {
        "dbms" => Some(ConditionKind::Dbms),
        "tableExists" => Some(ConditionKind::TableExists),
        "viewExists" => Some(ConditionKind::ViewExists),
        "columnExists" => Some(ConditionKind::ColumnExists),
        "sequenceExists" => Some(ConditionKind::SequenceExists),
        "indexExists" => Some(ConditionKind::IndexExists),
        "uniqueConstraintExists" => Some(ConditionKind::UniqueConstraintExists),
        "foreignKeyConstraintExists" => Some(ConditionKind::ForeignKeyConstraintExists),
        "primaryKeyExists" => Some(ConditionKind::PrimaryKeyExists),
        "changeSetExecuted" => Some(ConditionKind::ChangeSetExecuted),
        "sqlCheck" => Some(ConditionKind::SqlCheck),
        "rowCount" => Some(ConditionKind::RowCount),
        "tableIsEmpty" => Some(ConditionKind::TableIsEmpty),
        _ => None,
    }
}

#[tactic(auto, unfolding(crate::specs::Kinds::dbms))]
fn dbms(alloc: Global, node: &Node) -> Result<Condition, KindFault>
    ensures { Reads (dbms node.now) result }
{
    known(alloc, node, &["type"])?;
    let text: Text = required(alloc, node, "type")?;
    let names = dialect_names(alloc, text.as_str())?;
    Ok(Condition::Dbms { names })
}

#[tactic(auto, unfolding(crate::specs::Kinds::table_exists))]
fn table_exists(alloc: Global, node: &Node) -> Result<Condition, KindFault>
    ensures { Reads (table_exists node.now) result }
{
    known(alloc, node, &["tableName", "schemaName", "catalogName"])?;
    let table_name = required(alloc, node, "tableName")?;
    public(alloc, node)?;
    Ok(Condition::TableExists { table_name })
}

#[tactic(auto, unfolding(crate::specs::Kinds::view_exists))]
fn view_exists(alloc: Global, node: &Node) -> Result<Condition, KindFault>
    ensures { Reads (view_exists node.now) result }
{
    known(alloc, node, &["viewName", "schemaName", "catalogName"])?;
    let view_name = required(alloc, node, "viewName")?;
    public(alloc, node)?;
    Ok(Condition::ViewExists { view_name })
}

#[tactic(auto, unfolding(crate::specs::Kinds::column_exists))]
fn column_exists(alloc: Global, node: &Node) -> Result<Condition, KindFault>
    ensures { Reads (column_exists node.now) result }
{
    known(
        alloc,
        node,
        &["tableName", "columnName", "schemaName", "catalogName"],
    )?;
    let table_name = required(alloc, node, "tableName")?;
    let column_name = required(alloc, node, "columnName")?;
    public(alloc, node)?;
    Ok(Condition::ColumnExists {
        table_name,
        column_name,
    })
}

#[tactic(auto, unfolding(crate::specs::Kinds::sequence_exists))]
fn sequence_exists(alloc: Global, node: &Node) -> Result<Condition, KindFault>
    ensures { Reads (sequence_exists node.now) result }
{
    known(alloc, node, &["sequenceName", "schemaName", "catalogName"])?;
    let sequence_name = required(alloc, node, "sequenceName")?;
    public(alloc, node)?;
    Ok(Condition::SequenceExists { sequence_name })
}

#[tactic(auto, unfolding(crate::specs::Kinds::index_exists))]
fn index_exists(alloc: Global, node: &Node) -> Result<Condition, KindFault>
    ensures { Reads (index_exists node.now) result }
{
    known(
        alloc,
        node,
        &["tableName", "indexName", "schemaName", "catalogName"],
    )?;
    let table_name = required(alloc, node, "tableName")?;
    let index_name = required(alloc, node, "indexName")?;
    public(alloc, node)?;
    Ok(Condition::IndexExists {
        table_name,
        index_name,
    })
}

#[tactic(auto, unfolding(crate::specs::Kinds::unique_exists))]
fn unique_exists(alloc: Global, node: &Node) -> Result<Condition, KindFault>
    ensures { Reads (unique_exists node.now) result }
{
    known(
        alloc,
        node,
        &["tableName", "constraintName", "schemaName", "catalogName"],
    )?;
    let table_name = required(alloc, node, "tableName")?;
    let constraint_name = required(alloc, node, "constraintName")?;
    public(alloc, node)?;
    Ok(Condition::UniqueConstraintExists {
        table_name,
        constraint_name,
    })
}

#[tactic(auto, unfolding(crate::specs::Kinds::foreign_key_exists))]
fn foreign_key_exists(alloc: Global, node: &Node) -> Result<Condition, KindFault>
    ensures { Reads (foreign_key_exists node.now) result }
{
    known(
        alloc,
        node,
        &[
            "foreignKeyTableName",
            "foreignKeyName",
            "schemaName",
            "catalogName",
        ],
    )?;
    let foreign_key_table_name = required(alloc, node, "foreignKeyTableName")?;
    let foreign_key_name = required(alloc, node, "foreignKeyName")?;
    public(alloc, node)?;
    Ok(Condition::ForeignKeyConstraintExists {
        foreign_key_table_name,
        foreign_key_name,
    })
}

#[tactic(auto, unfolding(crate::specs::Kinds::primary_key_exists))]
fn primary_key_exists(alloc: Global, node: &Node) -> Result<Condition, KindFault>
    ensures { Reads (primary_key_exists node.now) result }
{
    known(
        alloc,
        node,
        &["tableName", "primaryKeyName", "schemaName", "catalogName"],
    )?;
    let table_name = required(alloc, node, "tableName")?;
    let primary_key_name = optional(alloc, node, "primaryKeyName")?;
    public(alloc, node)?;
    Ok(Condition::PrimaryKeyExists {
        table_name,
        primary_key_name,
    })
}

#[tactic(auto, unfolding(crate::specs::Kinds::changeset_executed))]
fn changeset_executed(alloc: Global, node: &Node) -> Result<Condition, KindFault>
    ensures { Reads (changeset_executed node.now) result }
{
    known(alloc, node, &["id", "author", "changeLogFile"])?;
    let id = required(alloc, node, "id")?;
    let author = required(alloc, node, "author")?;
    let change_log_file = required(alloc, node, "changeLogFile")?;
    Ok(Condition::ChangeSetExecuted {
        id,
        author,
        change_log_file,
    })
}

/// Reads the query that a scalar spells.
#[derive(Drop)]
struct Queries<'a, P> {
    sql: &'a P,
}

impl<'a, P: SqlText> Reader for Queries<'a, P> {
    ghost use Rattle.std.specs.Prelude.{true};
    ghost use Rattle.lq_cond.specs.Kinds.{a_query};

    type Read = Query;

    ghost of = { λ _. a_query P.dialect };

    ghost fits = { λ _ _. true };

    fn read(&self, alloc: Global, node: &Node) -> Result<Query, KindFault> {
        let text = Text::given(alloc, node)?;
        match self.sql.parse_query(alloc, text.as_str()) {
            Ok(query) => Ok(query),
            Err(ParseFault::NotSql) => Err(bad(alloc)),
            Err(ParseFault::OutOfMemory) => Err(KindFault::OutOfMemory),
        }
    }
}

#[tactic(auto, unfolding(crate::specs::Kinds::sql_check))]
fn sql_check<P: SqlText>(alloc: Global, node: &Node, sql: &P) -> Result<Condition, KindFault>
    ensures { Reads (sql_check P.dialect node.now) result }
{
    known(alloc, node, &["expectedResult", "sql"])?;
    let expected_result = required(alloc, node, "expectedResult")?;
    let query = required_by(alloc, node, "sql", &Queries { sql })?;
    Ok(Condition::SqlCheck {
        expected_result,
        sql: query,
    })
}

#[tactic(auto, unfolding(crate::specs::Kinds::row_count))]
fn row_count(alloc: Global, node: &Node) -> Result<Condition, KindFault>
    ensures { Reads (row_count node.now) result }
{
    known(
        alloc,
        node,
        &["tableName", "expectedRows", "schemaName", "catalogName"],
    )?;
    let table_name = required(alloc, node, "tableName")?;
    let expected_rows = required(alloc, node, "expectedRows")?;
    public(alloc, node)?;
    Ok(Condition::RowCount {
        table_name,
        expected_rows,
    })
}

#[tactic(auto, unfolding(crate::specs::Kinds::table_is_empty))]
fn table_is_empty(alloc: Global, node: &Node) -> Result<Condition, KindFault>
    ensures { Reads (table_is_empty node.now) result }
{
    known(alloc, node, &["tableName", "schemaName", "catalogName"])?;
    let table_name = required(alloc, node, "tableName")?;
    public(alloc, node)?;
    Ok(Condition::TableIsEmpty { table_name })
}

fn of_kind<P: SqlText>(
    alloc: Global,
    kind: ConditionKind,
    node: &Node,
    sql: &P,
) -> Result<Condition, KindFault>
    ensures { Reads (a_condition P.dialect kind node.now) result }
{
    match kind {
        ConditionKind::Dbms => dbms(alloc, node),
        ConditionKind::TableExists => table_exists(alloc, node),
        ConditionKind::ViewExists => view_exists(alloc, node),
        ConditionKind::ColumnExists => column_exists(alloc, node),
        ConditionKind::SequenceExists => sequence_exists(alloc, node),
        ConditionKind::IndexExists => index_exists(alloc, node),
        ConditionKind::UniqueConstraintExists => unique_exists(alloc, node),
        ConditionKind::ForeignKeyConstraintExists => foreign_key_exists(alloc, node),
        ConditionKind::PrimaryKeyExists => primary_key_exists(alloc, node),
        ConditionKind::ChangeSetExecuted => changeset_executed(alloc, node),
        ConditionKind::SqlCheck => sql_check(alloc, node, sql),
        ConditionKind::RowCount => row_count(alloc, node),
        ConditionKind::TableIsEmpty => table_is_empty(alloc, node),
    }
}

/// The condition that stands at a key, which is the name of its kind: `Unknown` where it is none.
pub(crate) fn condition_at<P: SqlText>(
    alloc: Global,
    key: &str,
    node: &Node,
    sql: &P,
) -> Result<Condition, KindFault>
    ensures { Reads (condition_at P.dialect key.now node.now) result }
{
    let Some(kind) = kind_named(key) else {
        return Err(unknown(alloc, key));
    };
    match of_kind(alloc, kind, node, sql) {
        Ok(condition) => Ok(condition),
        Err(fault) => Err(placed(alloc, key, fault)),
    }
}
