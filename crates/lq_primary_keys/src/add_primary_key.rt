ghost use Rattle.std.specs.List.{list_all};
ghost use Rattle.std.specs.Prelude.{◌≡◌, ◌||◌, IfOk, not, true};
ghost use Rattle.lq_model.specs.Catalogue.{is_in};
ghost use Rattle.lq_tree.specs.Look.{Reads};
ghost use Rattle.lq_primary_keys.specs.AddPrimaryKey.{add_primary_key, is_for, key_of, name_of};
ghost use Rattle.lq_primary_keys.specs.Drops.{drops_key};

use crate::drops::key_drop;
use lq_base::{Dialect, Duplicate, Items, KindFault, Name, NoMemory, both};
use lq_model::{
    Canon, Change, Column, Field, Key, Look, SqlText, Statement, Undo, key_name, name_field,
    schema_field, write_change,
};
use lq_tree::{Node, catalogue, in_schema, known, optional, required, schema};
use std::alloc::Global;

/// A table gets a primary key (Liquibase's documentation, "addPrimaryKey").
pub struct AddPrimaryKey {
    pub table_name: Name,
    pub column_names: Items<Name>,
    /// Without effect under MySQL.
    pub constraint_name: Option<Name>,
}

// Written out, so that each place that lets one go is one call.
impl Drop for AddPrimaryKey {
    fn drop(self) {
        let AddPrimaryKey {
            table_name,
            column_names,
            constraint_name,
        } = self;
        drop(table_name);
        drop(column_names);
        drop(constraint_name);
    }
}

const KEYS: [&str; 6] = [
    "tableName",
    "columnNames",
    "constraintName",
    "schemaName",
    "catalogName",
    "remarks",
];

fn is_among(names: &[Name], name: &Name) -> bool
    ensures { result ≡ is_in name.now names.now }
{
    for one in names {
        if *name == *one {
            return true;
        }
    }
    false
}

// Whether none of the columns of these names takes null.
fn are_firm(columns: &[Column], names: &[Name]) -> bool
    ensures { result ≡ list_all (λ x. not (is_in x.name names.now) || not x.nullable)
        columns.now }
{
    for column in columns {
        if is_among(names, &column.name) && column.nullable {
            return false;
        }
    }
    true
}

impl AddPrimaryKey {
    /// What a node states, or the first fault in the order of the keys.
    #[tactic(auto, unfolding(crate::specs::AddPrimaryKey::add_primary_key))]
    pub fn read<P: SqlText>(
        alloc: Global,
        node: &Node,
        dialect: Dialect,
        _sql: &P,
    ) -> Result<AddPrimaryKey, KindFault>
        ensures read { Reads (add_primary_key dialect node.now) result }
        ensures right { IfOk result (λ x. is_for dialect x ≡ true) }
    {
        known(alloc, node, &KEYS)?;
        let table: Name = required(alloc, node, "tableName")?;
        let column_names = required(alloc, node, "columnNames")?;
        let constraint_name = optional(alloc, node, "constraintName")?;
        let schema = schema(alloc, node, dialect, "schemaName")?;
        catalogue(alloc, node)?;
        let table_name = in_schema(alloc, dialect, &schema, &table)?;
        Ok(AddPrimaryKey {
            table_name,
            column_names,
            constraint_name,
        })
    }

    fn name(&self, alloc: Global, dialect: Dialect) -> Result<Name, NoMemory>
        ensures { IfOk result (λ name. name ≡ name_of dialect self.now) }
    {
        match (dialect, &self.constraint_name) {
            (Dialect::Postgresql, Some(name)) => name.duplicate(alloc),
            _ => key_name(alloc, dialect, &self.table_name),
        }
    }

    fn key(&self, alloc: Global, dialect: Dialect) -> Result<Key, NoMemory>
        ensures { IfOk result (λ key. key ≡ key_of dialect self.now) }
    {
        let (name, columns) = both(
            self.name(alloc, dialect),
            self.column_names.duplicate(alloc),
        )?;
        Ok(Key { name, columns })
    }

    // Drops the key.
    fn dropped(&self, alloc: Global, dialect: Dialect) -> Result<Statement, NoMemory>
        ensures { IfOk result
            (λ made. made ≡ drops_key dialect self.now.table_name (name_of dialect self.now)) }
    {
        let name = self.name(alloc, dialect)?;
        key_drop(alloc, dialect, &self.table_name, &name)
    }
}

impl Change for AddPrimaryKey {
    ghost use Rattle.lq_primary_keys.specs.AddPrimaryKey.{canonical_of, effect, gives, inverse, is_for, is_fresh, does, restores, returned, spelled, told};
    ghost use Rattle.lq_primary_keys.specs.declared.add_primary_key.AddPrimaryKey.{AddPrimaryKey};

    ghost Key = { AddPrimaryKey };

    ghost key = { λ change. change };

    ghost is_for = { is_for };

    ghost effect = { effect };

    ghost fresh = { is_fresh };

    ghost gives = { gives };

    ghost inverse = { inverse };

    ghost canonical = { canonical_of };

    fn statements(
        &self,
        alloc: Global,
        dialect: Dialect,
        to: &mut Items<Statement>,
    ) -> Result<(), NoMemory> {
        let (table, key) = both(self.table_name.duplicate(alloc), self.key(alloc, dialect))?;
        to.push(Statement::AddPrimaryKey { table, key })?;
        Ok(())
    }

    fn undo(&self, alloc: Global, dialect: Dialect) -> Result<Undo, NoMemory> {
        let dropped = self.dropped(alloc, dialect)?;
        let mut statements = Items::new(alloc);
        statements.push(dropped)?;
        Ok(Undo::Generated(statements))
    }

    fn is_fresh<K: Look>(&self, _dialect: Dialect, look: &K) -> bool {
        match look.columns(&self.table_name) {
            Some(columns) => are_firm(columns, self.column_names.as_slice()),
            None => true,
        }
    }

    fn canon(&self, to: &mut Canon) -> Result<(), NoMemory> {
        write_change(
            to,
            "addPrimaryKey",
            &[
                ("tableName", Some(Field::Text(self.table_name.text()))),
                (
                    "columnNames",
                    Some(Field::Names(self.column_names.as_slice())),
                ),
                ("constraintName", name_field(&self.constraint_name)),
                ("schemaName", schema_field(&self.table_name)),
            ],
        )
    }

    ghost spelled = { spelled };

    ghost returned = { returned };

    ghost does = { does };

    ghost restores = { restores };

    ghost told = { told };
}
