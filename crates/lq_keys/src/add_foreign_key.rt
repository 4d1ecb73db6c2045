ghost use Rattle.std.specs.Prelude.{◌≡◌, ◌++◌, IfOk, true};
ghost use Rattle.lq_base.specs.Number.{if_there};
ghost use Rattle.lq_tree.specs.Look.{Reads, value_at};
ghost use Rattle.lq_tree.specs.Keys.{known};
ghost use Rattle.lq_keys.specs.AddForeignKey.{add_foreign_key, foreign_of, ignored, is_false, is_for, is_idle, is_true, key_names, or_remarks};

use crate::on_delete::{OnDelete, cascades, on_delete_field};
use lq_base::{Dialect, Duplicate, Items, KindFault, Name, NoMemory, both};
use lq_drops::foreign_drop;
use lq_model::{
    Canon, Change, Field, ForeignKey, Look, SqlText, Statement, Undo, schema_field, write_change,
};
use lq_tree::{Node, catalogue, in_schema, known, optional, required, schema};
use std::alloc::Global;

/// A table gets a foreign key (Liquibase's documentation, "addForeignKeyConstraint").
pub struct AddForeignKeyConstraint {
    pub constraint_name: Name,
    pub base_table_name: Name,
    pub base_column_names: Items<Name>,
    pub referenced_table_name: Name,
    pub referenced_column_names: Items<Name>,
    pub on_delete: Option<OnDelete>,
}

// Written out, so that each place that lets one go is one call.
impl Drop for AddForeignKeyConstraint {
    fn drop(self) {
        let AddForeignKeyConstraint {
            constraint_name,
            base_table_name,
            base_column_names,
            referenced_table_name,
            referenced_column_names,
            on_delete,
        } = self;
        drop(constraint_name);
        drop(base_table_name);
        drop(base_column_names);
        drop(referenced_table_name);
        drop(referenced_column_names);
        drop(on_delete);
    }
}

// Whether a key has the truth value false, where it is there.
fn is_false_at(node: &Node, key: &str) -> bool
    ensures { result ≡ if_there is_false (value_at key.now node.now) }
{
    match node.value_at(key) {
        Some(value) => !value.as_truth().unwrap_or(true),
        None => true,
    }
}

// Whether a key has the truth value true, where it is there.
fn is_true_at(node: &Node, key: &str) -> bool
    ensures { result ≡ if_there is_true (value_at key.now node.now) }
{
    match node.value_at(key) {
        Some(value) => value.as_truth().unwrap_or(false),
        None => true,
    }
}

fn is_idle(value: &Node) -> bool
    ensures { result ≡ is_idle value.now }
{
    match value.as_text() {
        Some(text) => text == "NO ACTION" || text == "RESTRICT",
        None => false,
    }
}

// Whether a key has an action that does nothing, where it is there.
fn is_idle_at(node: &Node, key: &str) -> bool
    ensures { result ≡ if_there is_idle (value_at key.now node.now) }
{
    match node.value_at(key) {
        Some(value) => is_idle(value),
        None => true,
    }
}

// The key, or `remarks`, which is known anyway.
fn or_remarks(is_accepted: bool, key: &'static str) -> &'static str
    ensures { result.now ≡ or_remarks is_accepted key.now }
{
    if is_accepted { key } else { "remarks" }
}

// Tests that the map has no other keys, nor one of those that it knows only at some values at another.
fn only_known(alloc: Global, node: &Node) -> Result<(), KindFault>
    ensures { Reads (known (key_names ++ ignored node.now) node.now) result }
{
    let keys = [
        "constraintName",
        "baseTableName",
        "baseColumnNames",
        "referencedTableName",
        "referencedColumnNames",
        "onDelete",
        "baseTableSchemaName",
        "referencedTableSchemaName",
        "catalogName",
        "remarks",
        or_remarks(is_false_at(node, "deferrable"), "deferrable"),
        or_remarks(is_false_at(node, "initiallyDeferred"), "initiallyDeferred"),
        or_remarks(is_true_at(node, "validate"), "validate"),
        or_remarks(is_idle_at(node, "onUpdate"), "onUpdate"),
    ];
    known(alloc, node, &keys)
}

impl AddForeignKeyConstraint {
    /// What a node states, or the first fault in the order of the keys. Some keys are known only where
    /// their value changes nothing.
    #[tactic(auto, unfolding(crate::specs::AddForeignKey::add_foreign_key))]
    pub fn read<P: SqlText>(
        alloc: Global,
        node: &Node,
        dialect: Dialect,
        _sql: &P,
    ) -> Result<AddForeignKeyConstraint, KindFault>
        ensures read { Reads (add_foreign_key dialect node.now) result }
        ensures right { IfOk result (λ x. is_for dialect x ≡ true) }
    {
        only_known(alloc, node)?;
        let constraint_name = required(alloc, node, "constraintName")?;
        let table: Name = required(alloc, node, "baseTableName")?;
        let base_column_names = required(alloc, node, "baseColumnNames")?;
        let target: Name = required(alloc, node, "referencedTableName")?;
        let referenced_column_names = required(alloc, node, "referencedColumnNames")?;
        let on_delete = optional(alloc, node, "onDelete")?;
        let base = schema(alloc, node, dialect, "baseTableSchemaName")?;
        let referenced = schema(alloc, node, dialect, "referencedTableSchemaName")?;
        catalogue(alloc, node)?;
        let (base_table_name, referenced_table_name) = both(
            in_schema(alloc, dialect, &base, &table),
            in_schema(alloc, dialect, &referenced, &target),
        )?;
        Ok(AddForeignKeyConstraint {
            constraint_name,
            base_table_name,
            base_column_names,
            referenced_table_name,
            referenced_column_names,
            on_delete,
        })
    }

    fn foreign(&self, alloc: Global) -> Result<ForeignKey, NoMemory>
        ensures { IfOk result (λ foreign. foreign ≡ foreign_of self.now) }
    {
        Ok(ForeignKey {
            name: self.constraint_name.duplicate(alloc)?,
            columns: self.base_column_names.duplicate(alloc)?,
            table: self.referenced_table_name.duplicate(alloc)?,
            targets: self.referenced_column_names.duplicate(alloc)?,
            cascade: cascades(self.on_delete),
        })
    }
}

impl Change for AddForeignKeyConstraint {
    ghost use Rattle.lq_keys.specs.AddForeignKey.{canonical_of, effect, gives, inverse, is_for, is_fresh, does, restores, returned, spelled, told};
    ghost use Rattle.lq_keys.specs.declared.add_foreign_key.AddForeignKeyConstraint.{AddForeignKeyConstraint};

    ghost Key = { AddForeignKeyConstraint };

    ghost key = { λ change. change };

    ghost is_for = { is_for };

    ghost effect = { effect };

    ghost fresh = { is_fresh };

    ghost gives = { gives };

    ghost inverse = { inverse };

    ghost canonical = { canonical_of };

    fn statements(
        &self,
        alloc: Global,
        _dialect: Dialect,
        to: &mut Items<Statement>,
    ) -> Result<(), NoMemory> {
        to.push(Statement::AddForeignKey {
            table: self.base_table_name.duplicate(alloc)?,
            foreign: self.foreign(alloc)?,
        })?;
        Ok(())
    }

    fn undo(&self, alloc: Global, dialect: Dialect) -> Result<Undo, NoMemory> {
        let mut statements = Items::new(alloc);
        statements.push(foreign_drop(
            alloc,
            dialect,
            &self.base_table_name,
            &self.constraint_name,
        )?)?;
        Ok(Undo::Generated(statements))
    }

    fn is_fresh<K: Look>(&self, _dialect: Dialect, _look: &K) -> bool {
        true
    }

    fn canon(&self, to: &mut Canon) -> Result<(), NoMemory> {
        write_change(
            to,
            "addForeignKeyConstraint",
            &[
                (
                    "constraintName",
                    Some(Field::Text(self.constraint_name.as_key())),
                ),
                (
                    "baseTableName",
                    Some(Field::Text(self.base_table_name.text())),
                ),
                (
                    "baseColumnNames",
                    Some(Field::Names(self.base_column_names.as_slice())),
                ),
                (
                    "referencedTableName",
                    Some(Field::Text(self.referenced_table_name.text())),
                ),
                (
                    "referencedColumnNames",
                    Some(Field::Names(self.referenced_column_names.as_slice())),
                ),
                ("onDelete", on_delete_field(self.on_delete)),
                ("baseTableSchemaName", schema_field(&self.base_table_name)),
                (
                    "referencedTableSchemaName",
                    schema_field(&self.referenced_table_name),
                ),
            ],
        )
    }

    ghost spelled = { spelled };

    ghost returned = { returned };

    ghost does = { does };

    ghost restores = { restores };

    ghost told = { told };
}
