ghost use Rattle.std.specs.List.{flat_map, list_all};
ghost use Rattle.std.specs.Option.{option_map};
ghost use Rattle.std.specs.Prelude.{◌≡◌, ◌++◌, ◌∷◌, [], IfOk, None, OnOk, true};
ghost use Rattle.lq_model.specs.declared.statement.Statement.TheVariants as statement;
ghost use Rattle.lq_tree.specs.Look.{Reads};
ghost use Rattle.lq_tree.specs.Values.{literal_of};
ghost use Rattle.lq_tables.specs.AddColumn.{add_column, column_gives, column_inverse, def_of, firms, foreign_of, inverse_all, is_firm, is_for, joins, leaves, parts, refers, sets, unique_of, with_foreign_name};

use crate::constraints::{Reference, foreign_stated, reference_field, unique_stated};
use lq_base::{Dialect, Duplicate, Items, Kind, KindFault, Literal, Name, NoMemory, both};
use lq_last_first::{TakesBack, push_undoing};
use lq_model::{
    Canon, Change, ColumnDef, Field, Fields, ForeignKey, Look, MapAt, MapsAt, SqlText, Statement,
    Undo, Unique, Written, append_all, name_field, schema_field, truth_field, write_change_of,
};
use lq_tree::{
    Given, GivenValue, Node, catalogue, in_schema, known, missing, optional, required,
    required_columns, schema,
};
use lq_value_keys::{default_at, default_value, stated_value, value_at};
use std::alloc::Global;

/// What is stated of a new column's values.
pub struct AddedConstraints {
    /// Without effect.
    pub primary_key_name: Option<Name>,
    pub nullable: Option<bool>,
    pub unique: Option<bool>,
    pub unique_constraint_name: Option<Name>,
    pub references: Option<Reference>,
    /// There is one where there is a reference.
    pub foreign_key_name: Option<Name>,
}

// Written out, so that each place that lets one go is one call.
impl Drop for AddedConstraints {
    fn drop(self) {
        let AddedConstraints {
            primary_key_name,
            nullable: _,
            unique: _,
            unique_constraint_name,
            references,
            foreign_key_name,
        } = self;
        drop(primary_key_name);
        drop(unique_constraint_name);
        drop(references);
        drop(foreign_key_name);
    }
}

/// A column of an addColumn.
pub struct AddedColumn {
    pub name: Name,
    pub kind: Kind,
    pub default_value: Option<GivenValue>,
    pub constraints: Option<AddedConstraints>,
    /// What the rows get that are there.
    pub value: Option<GivenValue>,
}

// Written out, so that each place that lets one go is one call.
impl Drop for AddedColumn {
    fn drop(self) {
        let AddedColumn {
            name,
            kind: _,
            default_value,
            constraints,
            value,
        } = self;
        drop(name);
        drop(default_value);
        drop(constraints);
        drop(value);
    }
}

/// A table gets more columns (Liquibase's documentation, "addColumn").
#[derive(Drop)]
pub struct AddColumn {
    pub table_name: Name,
    pub columns: Items<AddedColumn>,
}

const CONSTRAINTS: [&str; 6] = [
    "primaryKeyName",
    "nullable",
    "unique",
    "uniqueConstraintName",
    "references",
    "foreignKeyName",
];

const COLUMN: [&str; 12] = [
    "name",
    "type",
    "defaultValue",
    "defaultValueNumeric",
    "defaultValueBoolean",
    "defaultValueDate",
    "constraints",
    "value",
    "valueNumeric",
    "valueBoolean",
    "valueDate",
    "remarks",
];

const KEYS: [&str; 5] = [
    "tableName",
    "columns",
    "schemaName",
    "catalogName",
    "remarks",
];

impl Given for AddedConstraints {
    ghost use Rattle.lq_tables.specs.AddColumn.{a_constraints, is_constraints};

    ghost of = { a_constraints };

    ghost fits = { is_constraints };

    #[tactic(auto, unfolding(crate::specs::AddColumn::a_constraints))]
    fn given(alloc: Global, node: &Node) -> Result<AddedConstraints, KindFault> {
        known(alloc, node, &CONSTRAINTS)?;
        let primary_key_name = optional(alloc, node, "primaryKeyName")?;
        let nullable = optional(alloc, node, "nullable")?;
        let unique = optional(alloc, node, "unique")?;
        let unique_constraint_name = optional(alloc, node, "uniqueConstraintName")?;
        let references = optional(alloc, node, "references")?;
        let foreign_key_name = optional(alloc, node, "foreignKeyName")?;
        with_foreign_name(
            alloc,
            AddedConstraints {
                primary_key_name,
                nullable,
                unique,
                unique_constraint_name,
                references,
                foreign_key_name,
            },
        )
    }
}

// Tests that a foreign key has a name.
fn with_foreign_name(alloc: Global, stated: AddedConstraints) -> Result<AddedConstraints, KindFault>
    ensures read { Reads (with_foreign_name stated) result }
    ensures same { IfOk result (λ found. found ≡ stated) }
{
    if stated.references.is_some() && stated.foreign_key_name.is_none() {
        return Err(missing(alloc, "foreignKeyName"));
    }
    Ok(stated)
}

impl Given for AddedColumn {
    ghost use Rattle.lq_tables.specs.AddColumn.{added_column, is_added};

    ghost of = { added_column };

    ghost fits = { is_added };

    #[tactic(auto, unfolding(crate::specs::AddColumn::added_column))]
    fn given(alloc: Global, node: &Node) -> Result<AddedColumn, KindFault> {
        known(alloc, node, &COLUMN)?;
        let name = required(alloc, node, "name")?;
        let kind = required(alloc, node, "type")?;
        let default_value = default_value(alloc, node)?;
        let constraints = optional(alloc, node, "constraints")?;
        let value = stated_value(alloc, node)?;
        Ok(AddedColumn {
            name,
            kind,
            default_value,
            constraints,
            value,
        })
    }
}

impl AddColumn {
    /// What a node states, or the first fault in the order of the keys.
    #[tactic(auto, unfolding(crate::specs::AddColumn::add_column))]
    pub fn read<P: SqlText>(
        alloc: Global,
        node: &Node,
        dialect: Dialect,
        _sql: &P,
    ) -> Result<AddColumn, KindFault>
        ensures read { Reads (add_column dialect node.now) result }
        ensures right { IfOk result (λ x. is_for dialect x ≡ true) }
    {
        known(alloc, node, &KEYS)?;
        let table: Name = required(alloc, node, "tableName")?;
        let columns = required_columns(alloc, node, "columns")?;
        let schema = schema(alloc, node, dialect, "schemaName")?;
        catalogue(alloc, node)?;
        let table_name = in_schema(alloc, dialect, &schema, &table)?;
        Ok(AddColumn {
            table_name,
            columns,
        })
    }
}

impl AddedColumn {
    // The column is NOT NULL.
    fn is_firm(&self) -> bool
        ensures { result ≡ is_firm self.now }
    {
        match &self.constraints {
            Some(constraints) => !constraints.nullable.unwrap_or(true),
            None => false,
        }
    }

    // Its unique constraint, where there is one.
    fn unique(&self, alloc: Global, table: &Name) -> Result<Option<Unique>, NoMemory>
        ensures { IfOk result (λ made. made ≡ unique_of table.now self.now) }
    {
        match &self.constraints {
            Some(stated) => unique_stated(
                alloc,
                table,
                &self.name,
                stated.unique,
                &stated.unique_constraint_name,
            ),
            None => Ok(None),
        }
    }

    // Its foreign key, where there is one.
    fn foreign(&self, alloc: Global, table: &Name) -> Result<Option<ForeignKey>, NoMemory>
        ensures { IfOk result (λ made. made ≡ foreign_of table.now self.now) }
    {
        match &self.constraints {
            Some(stated) => foreign_stated(
                alloc,
                table,
                &self.name,
                &stated.references,
                &stated.foreign_key_name,
            ),
            None => Ok(None),
        }
    }

    fn default(&self, alloc: Global) -> Result<Option<Literal>, NoMemory>
        ensures { IfOk result (λ made. made ≡ option_map literal_of self.now.default_value) }
    {
        match &self.default_value {
            Some(value) => Ok(Some(value.literal(alloc)?)),
            None => Ok(None),
        }
    }

    fn def(&self, alloc: Global) -> Result<ColumnDef, NoMemory>
        ensures { IfOk result (λ made. made ≡ def_of self.now) }
    {
        let (name, default) = both(self.name.duplicate(alloc), self.default(alloc))?;
        Ok(ColumnDef {
            name,
            kind: self.kind,
            nullable: !(self.is_firm() && !self.value.is_some()),
            default,
            numbered: false,
        })
    }

    fn add(&self, alloc: Global, table: &Name) -> Result<Statement, NoMemory>
        ensures { IfOk result (λ made. made ≡ statement.AddColumn table.now (def_of self.now)) }
    {
        let (table, column) = both(table.duplicate(alloc), self.def(alloc))?;
        Ok(Statement::AddColumn { table, column })
    }

    fn set(&self, alloc: Global, table: &Name, value: &GivenValue) -> Result<Statement, NoMemory>
        ensures { IfOk result (λ made.
            made ≡ statement.Update table.now ((self.now.name, literal_of value.now) ∷ [])
            None) }
    {
        let (table, sets) = both(table.duplicate(alloc), self.filled(alloc, value))?;
        Ok(Statement::Update {
            table,
            sets,
            test: None,
        })
    }

    // The column with the value.
    fn filled(&self, alloc: Global, value: &GivenValue) -> Result<Items<(Name, Literal)>, NoMemory>
        ensures { IfOk result (λ sets. sets ≡ (self.now.name, literal_of value.now) ∷ []) }
    {
        let (column, value) = both(self.name.duplicate(alloc), value.literal(alloc))?;
        let mut sets = Items::new(alloc);
        sets.push((column, value))?;
        Ok(sets)
    }

    fn firm(&self, alloc: Global, dialect: Dialect, table: &Name) -> Result<Statement, NoMemory>
        ensures { IfOk result (λ made. made ∷ [] ≡ firms dialect table.now self.now) }
    {
        let (table, column) = both(table.duplicate(alloc), self.name.duplicate(alloc))?;
        match dialect {
            Dialect::Postgresql => Ok(Statement::SetNotNull { table, column }),
            Dialect::Mysql => Ok(Statement::Modify {
                table,
                column,
                kind: self.kind,
                nullable: false,
            }),
        }
    }

    fn push_sets(
        &self,
        alloc: Global,
        dialect: Dialect,
        table: &Name,
        to: &mut Items<Statement>,
    ) -> Result<(), NoMemory>
        ensures { OnOk result
            (to.new ≡ to.old
            ++ sets dialect table.now self.now self.now.value (is_firm self.now)) }
    {
        let Some(value) = &self.value else {
            return Ok(());
        };
        to.push(self.set(alloc, table, value)?)?;
        if self.is_firm() {
            to.push(self.firm(alloc, dialect, table)?)?;
        }
        Ok(())
    }

    fn push_joins(
        &self,
        alloc: Global,
        table: &Name,
        to: &mut Items<Statement>,
    ) -> Result<(), NoMemory>
        ensures { OnOk result (to.new
            ≡ to.old ++ joins table.now (unique_of table.now self.now)) }
    {
        let (table, unique) = both(table.duplicate(alloc), self.unique(alloc, table))?;
        let Some(unique) = unique else {
            return Ok(());
        };
        to.push(Statement::AddUnique { table, unique })?;
        Ok(())
    }

    fn push_refers(
        &self,
        alloc: Global,
        table: &Name,
        to: &mut Items<Statement>,
    ) -> Result<(), NoMemory>
        ensures { OnOk result
            (to.new ≡ to.old ++ refers table.now (foreign_of table.now self.now)) }
    {
        let (table, foreign) = both(table.duplicate(alloc), self.foreign(alloc, table))?;
        let Some(foreign) = foreign else {
            return Ok(());
        };
        to.push(Statement::AddForeignKey { table, foreign })?;
        Ok(())
    }

    fn push_statements(
        &self,
        alloc: Global,
        dialect: Dialect,
        table: &Name,
        to: &mut Items<Statement>,
    ) -> Result<(), NoMemory>
        ensures { OnOk result (to.new ≡ to.old ++ column_gives dialect table.now self.now) }
    {
        to.push(self.add(alloc, table)?)?;
        self.push_sets(alloc, dialect, table, to)?;
        self.push_joins(alloc, table, to)?;
        self.push_refers(alloc, table, to)
    }

    fn push_leaves(
        &self,
        alloc: Global,
        dialect: Dialect,
        table: &Name,
        to: &mut Items<Statement>,
    ) -> Result<(), NoMemory>
        ensures { OnOk result
            (to.new ≡ to.old ++ leaves dialect table.now (unique_of table.now self.now)) }
    {
        let Some(unique) = self.unique(alloc, table)? else {
            return Ok(());
        };
        let name = unique.into_name();
        let table = table.duplicate(alloc)?;
        match dialect {
            Dialect::Postgresql => to.push(Statement::DropConstraint { table, name })?,
            Dialect::Mysql => to.push(Statement::DropUnique { table, name })?,
        }
        Ok(())
    }

    fn push_parts(
        &self,
        alloc: Global,
        dialect: Dialect,
        table: &Name,
        to: &mut Items<Statement>,
    ) -> Result<(), NoMemory>
        ensures { OnOk result
            (to.new ≡ to.old ++ parts dialect table.now (foreign_of table.now self.now)) }
    {
        let Some(foreign) = self.foreign(alloc, table)? else {
            return Ok(());
        };
        let name = foreign.into_name();
        let table = table.duplicate(alloc)?;
        match dialect {
            Dialect::Postgresql => to.push(Statement::DropConstraint { table, name })?,
            Dialect::Mysql => to.push(Statement::DropForeignKey { table, name })?,
        }
        Ok(())
    }

    fn push_undo(
        &self,
        alloc: Global,
        dialect: Dialect,
        table: &Name,
        to: &mut Items<Statement>,
    ) -> Result<(), NoMemory>
        ensures { OnOk result (to.new ≡ to.old ++ column_inverse dialect table.now self.now) }
    {
        self.push_parts(alloc, dialect, table, to)?;
        self.push_leaves(alloc, dialect, table, to)?;
        let (table, column) = both(table.duplicate(alloc), self.name.duplicate(alloc))?;
        to.push(Statement::DropColumn { table, column })?;
        Ok(())
    }
}

fn made(
    alloc: Global,
    dialect: Dialect,
    table: &Name,
    columns: &[AddedColumn],
) -> Result<Items<Statement>, NoMemory>
    ensures { IfOk result (λ made. made
        ≡ flat_map (column_gives dialect table.now) columns.now) }
{
    let mut made = Items::new(alloc);
    let mut rest = columns;
    while let Some((column, after)) = rest.split_first() {
        column.push_statements(alloc, dialect, table, &mut made)?;
        rest = after;
    }
    Ok(made)
}

// Takes the columns of a table back.
#[derive(Clone, Copy)]
struct Unmaking<'a> {
    dialect: Dialect,
    table: &'a Name,
}

impl TakesBack for Unmaking<'_> {
    ghost use Rattle.lq_tables.specs.AddColumn.{column_inverse};

    type Thing = AddedColumn;

    type Step = Statement;

    ghost steps = { λ by column. column_inverse by.dialect by.table.now column };

    fn push_steps(
        &self,
        alloc: Global,
        column: &AddedColumn,
        to: &mut Items<Statement>,
    ) -> Result<(), NoMemory> {
        column.push_undo(alloc, self.dialect, self.table, to)
    }
}

fn unmade(
    alloc: Global,
    dialect: Dialect,
    table: &Name,
    columns: &[AddedColumn],
) -> Result<Items<Statement>, NoMemory>
    ensures { IfOk result (λ made. made ≡ inverse_all dialect table.now columns.now) }
{
    let mut undoing = Items::new(alloc);
    push_undoing(alloc, &Unmaking { dialect, table }, columns, &mut undoing)?;
    Ok(undoing)
}

impl Written for AddedConstraints {
    ghost use Rattle.lq_tables.specs.AddColumn.{constraints_rows};

    ghost rows = { constraints_rows };

    fn write(&self, to: &mut Canon) -> Result<(), NoMemory> {
        Fields(&[
            ("primaryKeyName", name_field(&self.primary_key_name)),
            ("nullable", truth_field(self.nullable)),
            ("unique", truth_field(self.unique)),
            (
                "uniqueConstraintName",
                name_field(&self.unique_constraint_name),
            ),
            ("references", reference_field(&self.references)),
            ("foreignKeyName", name_field(&self.foreign_key_name)),
        ])
        .write(to)
    }
}

impl Written for AddedColumn {
    ghost use Rattle.lq_tables.specs.AddColumn.{column_rows};

    ghost rows = { column_rows };

    fn write(&self, to: &mut Canon) -> Result<(), NoMemory> {
        let fields = [
            ("name", Some(Field::Text(self.name.as_key()))),
            ("type", Some(Field::Kind(self.kind))),
        ];
        let constraints = MapAt {
            key: "constraints",
            map: &self.constraints,
        };
        let rest = (constraints, value_at(self.value.as_ref()));
        (
            Fields(&fields),
            default_at(self.default_value.as_ref()),
            rest,
        )
            .write(to)
    }
}

impl Change for AddColumn {
    ghost use Rattle.lq_tables.specs.AddColumn.{canonical_of, effect, gives, inverse, is_for, is_fresh};
    ghost use Rattle.lq_tables.specs.AddColumnLaws.{does, restores, returned, spelled, told};
    ghost use Rattle.lq_tables.specs.declared.add_column.AddColumn.{AddColumn};

    ghost Key = { AddColumn };

    ghost key = { λ change. change };

    ghost is_for = { is_for };

    ghost effect = { effect };

    ghost fresh = { is_fresh };

    ghost gives = { gives };

    ghost inverse = { inverse };

    ghost canonical = { canonical_of };

    fn statements(
        &self,
        alloc: Global,
        dialect: Dialect,
        to: &mut Items<Statement>,
    ) -> Result<(), NoMemory> {
        let made = made(alloc, dialect, &self.table_name, self.columns.as_slice())?;
        append_all(to, made)
    }

    fn undo(&self, alloc: Global, dialect: Dialect) -> Result<Undo, NoMemory> {
        let undoing = unmade(alloc, dialect, &self.table_name, self.columns.as_slice())?;
        Ok(Undo::Generated(undoing))
    }

    fn is_fresh<K: Look>(&self, _dialect: Dialect, _look: &K) -> bool {
        true
    }

    fn canon(&self, to: &mut Canon) -> Result<(), NoMemory> {
        let fields = [("tableName", Some(Field::Text(self.table_name.text())))];
        let columns = MapsAt {
            key: "columns",
            maps: self.columns.as_slice(),
        };
        let place = [("schemaName", schema_field(&self.table_name))];
        write_change_of(to, "addColumn", &(Fields(&fields), columns, Fields(&place)))
    }

    ghost spelled = { spelled };

    ghost returned = { returned };

    ghost does = { does };

    ghost restores = { restores };

    ghost told = { told };
}
