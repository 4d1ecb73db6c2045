ghost use Rattle.std.specs.Prelude.{◌≡◌, IfOk, true};
ghost use Rattle.lq_tree.specs.Look.{Reads};
ghost use Rattle.lq_uniques.specs.AddUnique.{add_unique, is_for, name_of, unique_of};
ghost use Rattle.lq_uniques.specs.Drops.{drops_unique};

use crate::drops::unique_drop;
use lq_base::{Dialect, Duplicate, Items, KindFault, Name, NoMemory, both};
use lq_model::{
    Canon, Change, Field, Look, SqlText, Statement, Undo, Unique, name_field, schema_field,
    unique_name, write_change,
};
use lq_tree::{Node, catalogue, in_schema, known, optional, required, schema};
use std::alloc::Global;

/// A table gets a unique constraint (Liquibase's documentation, "addUniqueConstraint").
pub struct AddUniqueConstraint {
    pub table_name: Name,
    pub column_names: Items<Name>,
    pub constraint_name: Option<Name>,
}

// Written out, so that each place that lets one go is one call.
impl Drop for AddUniqueConstraint {
    fn drop(self) {
        let AddUniqueConstraint {
            table_name,
            column_names,
            constraint_name,
        } = self;
        drop(table_name);
        drop(column_names);
        drop(constraint_name);
    }
}

const KEYS: [&str; 6] = [
    "tableName",
    "columnNames",
    "constraintName",
    "schemaName",
    "catalogName",
    "remarks",
];

impl AddUniqueConstraint {
    /// What a node states, or the first fault in the order of the keys.
    #[tactic(auto, unfolding(crate::specs::AddUnique::add_unique))]
    pub fn read<P: SqlText>(
        alloc: Global,
        node: &Node,
        dialect: Dialect,
        _sql: &P,
    ) -> Result<AddUniqueConstraint, KindFault>
        ensures read { Reads (add_unique dialect node.now) result }
        ensures right { IfOk result (λ x. is_for dialect x ≡ true) }
    {
        known(alloc, node, &KEYS)?;
        let table: Name = required(alloc, node, "tableName")?;
        let column_names = required(alloc, node, "columnNames")?;
        let constraint_name = optional(alloc, node, "constraintName")?;
        let schema = schema(alloc, node, dialect, "schemaName")?;
        catalogue(alloc, node)?;
        let table_name = in_schema(alloc, dialect, &schema, &table)?;
        Ok(AddUniqueConstraint {
            table_name,
            column_names,
            constraint_name,
        })
    }

    fn name(&self, alloc: Global) -> Result<Name, NoMemory>
        ensures { IfOk result (λ name. name ≡ name_of self.now) }
    {
        match &self.constraint_name {
            Some(name) => name.duplicate(alloc),
            None => unique_name(alloc, &self.table_name, self.column_names.as_slice()),
        }
    }

    fn unique(&self, alloc: Global) -> Result<Unique, NoMemory>
        ensures { IfOk result (λ unique. unique ≡ unique_of self.now) }
    {
        let (name, columns) = both(self.name(alloc), self.column_names.duplicate(alloc))?;
        Ok(Unique { name, columns })
    }

    // Drops the constraint.
    fn dropped(&self, alloc: Global, dialect: Dialect) -> Result<Statement, NoMemory>
        ensures { IfOk result
            (λ made. made ≡ drops_unique dialect self.now.table_name (name_of self.now)) }
    {
        let name = self.name(alloc)?;
        unique_drop(alloc, dialect, &self.table_name, &name)
    }
}

impl Change for AddUniqueConstraint {
    ghost use Rattle.lq_uniques.specs.AddUnique.{canonical_of, effect, gives, inverse, is_for, is_fresh, does, restores, returned, spelled, told};
    ghost use Rattle.lq_uniques.specs.declared.add_unique.AddUniqueConstraint.{AddUniqueConstraint};

    ghost Key = { AddUniqueConstraint };

    ghost key = { λ change. change };

    ghost is_for = { is_for };

    ghost effect = { effect };

    ghost fresh = { is_fresh };

    ghost gives = { gives };

    ghost inverse = { inverse };

    ghost canonical = { canonical_of };

    fn statements(
        &self,
        alloc: Global,
        _dialect: Dialect,
        to: &mut Items<Statement>,
    ) -> Result<(), NoMemory> {
        let (table, unique) = both(self.table_name.duplicate(alloc), self.unique(alloc))?;
        to.push(Statement::AddUnique { table, unique })?;
        Ok(())
    }

    fn undo(&self, alloc: Global, dialect: Dialect) -> Result<Undo, NoMemory> {
        let dropped = self.dropped(alloc, dialect)?;
        let mut statements = Items::new(alloc);
        statements.push(dropped)?;
        Ok(Undo::Generated(statements))
    }

    fn is_fresh<K: Look>(&self, _dialect: Dialect, _look: &K) -> bool {
        true
    }

    fn canon(&self, to: &mut Canon) -> Result<(), NoMemory> {
        write_change(
            to,
            "addUniqueConstraint",
            &[
                ("tableName", Some(Field::Text(self.table_name.text()))),
                (
                    "columnNames",
                    Some(Field::Names(self.column_names.as_slice())),
                ),
                ("constraintName", name_field(&self.constraint_name)),
                ("schemaName", schema_field(&self.table_name)),
            ],
        )
    }

    ghost spelled = { spelled };

    ghost returned = { returned };

    ghost does = { does };

    ghost restores = { restores };

    ghost told = { told };
}
