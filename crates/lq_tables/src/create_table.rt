ghost use Rattle.std.specs.List.{flat_map};
ghost use Rattle.std.specs.Option.{option_map};
ghost use Rattle.std.specs.Prelude.{◌≡◌, ◌++◌, IfOk, OnOk, map, true};
ghost use Rattle.lq_tree.specs.Look.{Reads};
ghost use Rattle.lq_tree.specs.Values.{literal_of};
ghost use Rattle.lq_tables.specs.CreateTable.{create_table, creates, def_of, first_name, foreign_of, is_for, is_in_key, is_loose, key_column_of, key_columns, key_named, key_of, stated_name, unique_of, with_foreign_name};

use crate::constraints::{Reference, foreign_stated, reference_field, unique_stated};
use lq_base::{Dialect, Duplicate, Items, Kind, KindFault, Literal, Name, NoMemory, both};
use lq_model::{
    Canon, Change, ColumnDef, Field, Fields, ForeignKey, Key, Look, MapAt, MapsAt, SqlText,
    Statement, Undo, Unique, Written, key_name, name_field, schema_field, truth_field,
    write_change_of,
};
use lq_tree::{
    Given, GivenValue, Node, catalogue, in_schema, known, missing, optional, required,
    required_columns, schema,
};
use lq_value_keys::{default_at, default_value};
use std::alloc::Global;

/// What is stated of a column of a new table.
pub struct CreatedConstraints {
    pub primary_key: Option<bool>,
    pub primary_key_name: Option<Name>,
    pub nullable: Option<bool>,
    pub unique: Option<bool>,
    pub unique_constraint_name: Option<Name>,
    pub references: Option<Reference>,
    /// There is one where there is a reference.
    pub foreign_key_name: Option<Name>,
}

// Written out, so that each place that lets one go is one call.
impl Drop for CreatedConstraints {
    fn drop(self) {
        let CreatedConstraints {
            primary_key: _,
            primary_key_name,
            nullable: _,
            unique: _,
            unique_constraint_name,
            references,
            foreign_key_name,
        } = self;
        drop(primary_key_name);
        drop(unique_constraint_name);
        drop(references);
        drop(foreign_key_name);
    }
}

/// A column of a createTable.
pub struct CreatedColumn {
    pub name: Name,
    pub kind: Kind,
    pub auto_increment: Option<bool>,
    pub default_value: Option<GivenValue>,
    pub constraints: Option<CreatedConstraints>,
}

// Written out, so that each place that lets one go is one call.
impl Drop for CreatedColumn {
    fn drop(self) {
        let CreatedColumn {
            name,
            kind: _,
            auto_increment: _,
            default_value,
            constraints,
        } = self;
        drop(name);
        drop(default_value);
        drop(constraints);
    }
}

/// A table is made (Liquibase's documentation, "createTable").
#[derive(Drop)]
pub struct CreateTable {
    pub table_name: Name,
    pub columns: Items<CreatedColumn>,
}

const CONSTRAINTS: [&str; 7] = [
    "primaryKey",
    "primaryKeyName",
    "nullable",
    "unique",
    "uniqueConstraintName",
    "references",
    "foreignKeyName",
];

const COLUMN: [&str; 9] = [
    "name",
    "type",
    "autoIncrement",
    "defaultValue",
    "defaultValueNumeric",
    "defaultValueBoolean",
    "defaultValueDate",
    "constraints",
    "remarks",
];

const KEYS: [&str; 5] = [
    "tableName",
    "columns",
    "schemaName",
    "catalogName",
    "remarks",
];

impl Given for CreatedConstraints {
    ghost use Rattle.lq_tables.specs.CreateTable.{created_constraints, is_constraints};

    ghost of = { created_constraints };

    ghost fits = { is_constraints };

    #[tactic(auto, unfolding(crate::specs::CreateTable::created_constraints))]
    fn given(alloc: Global, node: &Node) -> Result<CreatedConstraints, KindFault> {
        known(alloc, node, &CONSTRAINTS)?;
        let primary_key = optional(alloc, node, "primaryKey")?;
        let primary_key_name = optional(alloc, node, "primaryKeyName")?;
        let nullable = optional(alloc, node, "nullable")?;
        let unique = optional(alloc, node, "unique")?;
        let unique_constraint_name = optional(alloc, node, "uniqueConstraintName")?;
        let references = optional(alloc, node, "references")?;
        let foreign_key_name = optional(alloc, node, "foreignKeyName")?;
        with_foreign_name(
            alloc,
            CreatedConstraints {
                primary_key,
                primary_key_name,
                nullable,
                unique,
                unique_constraint_name,
                references,
                foreign_key_name,
            },
        )
    }
}

// Tests that a foreign key has a name.
fn with_foreign_name(
    alloc: Global,
    stated: CreatedConstraints,
) -> Result<CreatedConstraints, KindFault>
    ensures read { Reads (with_foreign_name stated) result }
    ensures same { IfOk result (λ found. found ≡ stated) }
{
    if stated.references.is_some() && stated.foreign_key_name.is_none() {
        return Err(missing(alloc, "foreignKeyName"));
    }
    Ok(stated)
}

impl Given for CreatedColumn {
    ghost use Rattle.lq_tables.specs.CreateTable.{created_column, is_created};

    ghost of = { created_column };

    ghost fits = { is_created };

    #[tactic(auto, unfolding(crate::specs::CreateTable::created_column))]
    fn given(alloc: Global, node: &Node) -> Result<CreatedColumn, KindFault> {
        known(alloc, node, &COLUMN)?;
        let name = required(alloc, node, "name")?;
        let kind = required(alloc, node, "type")?;
        let auto_increment = optional(alloc, node, "autoIncrement")?;
        let default_value = default_value(alloc, node)?;
        let constraints = optional(alloc, node, "constraints")?;
        Ok(CreatedColumn {
            name,
            kind,
            auto_increment,
            default_value,
            constraints,
        })
    }
}

impl CreateTable {
    /// What a node states, or the first fault in the order of the keys.
    #[tactic(auto, unfolding(crate::specs::CreateTable::create_table))]
    pub fn read<P: SqlText>(
        alloc: Global,
        node: &Node,
        dialect: Dialect,
        _sql: &P,
    ) -> Result<CreateTable, KindFault>
        ensures read { Reads (create_table dialect node.now) result }
        ensures right { IfOk result (λ x. is_for dialect x ≡ true) }
    {
        known(alloc, node, &KEYS)?;
        let table: Name = required(alloc, node, "tableName")?;
        let columns = required_columns(alloc, node, "columns")?;
        let schema = schema(alloc, node, dialect, "schemaName")?;
        catalogue(alloc, node)?;
        let table_name = in_schema(alloc, dialect, &schema, &table)?;
        Ok(CreateTable {
            table_name,
            columns,
        })
    }
}

impl CreatedColumn {
    fn is_in_key(&self) -> bool
        ensures { result ≡ is_in_key self.now }
    {
        match &self.constraints {
            Some(stated) => stated.primary_key.unwrap_or(false),
            None => false,
        }
    }

    // It takes null.
    fn is_loose(&self) -> bool
        ensures { result ≡ is_loose self.now }
    {
        let nullable = match &self.constraints {
            Some(stated) => stated.nullable.unwrap_or(true),
            None => true,
        };
        !self.is_in_key() && nullable
    }

    fn default(&self, alloc: Global) -> Result<Option<Literal>, NoMemory>
        ensures { IfOk result (λ made. made ≡ option_map literal_of self.now.default_value) }
    {
        match &self.default_value {
            Some(value) => Ok(Some(value.literal(alloc)?)),
            None => Ok(None),
        }
    }

    fn def(&self, alloc: Global) -> Result<ColumnDef, NoMemory>
        ensures { IfOk result (λ made. made ≡ def_of self.now) }
    {
        let (name, default) = both(self.name.duplicate(alloc), self.default(alloc))?;
        Ok(ColumnDef {
            name,
            kind: self.kind,
            nullable: self.is_loose(),
            default,
            numbered: self.auto_increment.unwrap_or(false),
        })
    }

    fn push_unique(
        &self,
        alloc: Global,
        table: &Name,
        to: &mut Items<Unique>,
    ) -> Result<(), NoMemory>
        ensures { OnOk result (to.new ≡ to.old ++ unique_of table.now self.now) }
    {
        let Some(stated) = &self.constraints else {
            return Ok(());
        };
        let made = unique_stated(
            alloc,
            table,
            &self.name,
            stated.unique,
            &stated.unique_constraint_name,
        )?;
        if let Some(unique) = made {
            to.push(unique)?;
        }
        Ok(())
    }

    fn push_foreign(
        &self,
        alloc: Global,
        table: &Name,
        to: &mut Items<ForeignKey>,
    ) -> Result<(), NoMemory>
        ensures { OnOk result (to.new ≡ to.old ++ foreign_of table.now self.now) }
    {
        let Some(stated) = &self.constraints else {
            return Ok(());
        };
        let made = foreign_stated(
            alloc,
            table,
            &self.name,
            &stated.references,
            &stated.foreign_key_name,
        )?;
        if let Some(foreign) = made {
            to.push(foreign)?;
        }
        Ok(())
    }

    fn push_key_column(&self, alloc: Global, to: &mut Items<Name>) -> Result<(), NoMemory>
        ensures { OnOk result (to.new ≡ to.old ++ key_column_of self.now) }
    {
        if self.is_in_key() {
            to.push(self.name.duplicate(alloc)?)?;
        }
        Ok(())
    }

    // The key's name that it states.
    fn stated_name(&self) -> Option<&Name>
        ensures { option_map (λ name. name.now) result ≡ stated_name self.now }
    {
        if !self.is_in_key() {
            return None;
        }
        match &self.constraints {
            Some(stated) => stated.primary_key_name.as_ref(),
            None => None,
        }
    }
}

fn defs(alloc: Global, columns: &[CreatedColumn]) -> Result<Items<ColumnDef>, NoMemory>
    ensures { IfOk result (λ made. made ≡ map def_of columns.now) }
{
    let mut made = Items::new(alloc);
    for column in columns {
        made.push(column.def(alloc)?)?;
    }
    Ok(made)
}

fn uniques(
    alloc: Global,
    table: &Name,
    columns: &[CreatedColumn],
) -> Result<Items<Unique>, NoMemory>
    ensures { IfOk result (λ made. made ≡ flat_map (unique_of table.now) columns.now) }
{
    let mut made = Items::new(alloc);
    let mut rest = columns;
    while let Some((column, after)) = rest.split_first() {
        column.push_unique(alloc, table, &mut made)?;
        rest = after;
    }
    Ok(made)
}

fn foreign_keys(
    alloc: Global,
    table: &Name,
    columns: &[CreatedColumn],
) -> Result<Items<ForeignKey>, NoMemory>
    ensures { IfOk result (λ made. made ≡ flat_map (foreign_of table.now) columns.now) }
{
    let mut made = Items::new(alloc);
    let mut rest = columns;
    while let Some((column, after)) = rest.split_first() {
        column.push_foreign(alloc, table, &mut made)?;
        rest = after;
    }
    Ok(made)
}

fn key_columns(alloc: Global, columns: &[CreatedColumn]) -> Result<Items<Name>, NoMemory>
    ensures { IfOk result (λ made. made ≡ key_columns columns.now) }
{
    let mut made = Items::new(alloc);
    let mut rest = columns;
    while let Some((column, after)) = rest.split_first() {
        column.push_key_column(alloc, &mut made)?;
        rest = after;
    }
    Ok(made)
}

// The first name of the key that a column states.
fn first_name(columns: &[CreatedColumn]) -> Option<&Name>
    ensures { option_map (λ name. name.now) result ≡ first_name columns.now }
{
    let mut rest = columns;
    while let Some((column, after)) = rest.split_first() {
        if let Some(name) = column.stated_name() {
            return Some(name);
        }
        rest = after;
    }
    None
}

fn key_named(
    alloc: Global,
    dialect: Dialect,
    table: &Name,
    columns: &[CreatedColumn],
) -> Result<Name, NoMemory>
    ensures { IfOk result (λ name. name ≡ key_named dialect table.now columns.now) }
{
    match dialect {
        Dialect::Postgresql => match first_name(columns) {
            Some(name) => name.duplicate(alloc),
            None => key_name(alloc, dialect, table),
        },
        Dialect::Mysql => key_name(alloc, dialect, table),
    }
}

fn stated_key(
    alloc: Global,
    dialect: Dialect,
    table: &Name,
    columns: &[CreatedColumn],
) -> Result<Option<Key>, NoMemory>
    ensures { IfOk result (λ made. made ≡ key_of dialect table.now columns.now) }
{
    let name = key_named(alloc, dialect, table, columns)?;
    let columns = key_columns(alloc, columns)?;
    if columns.is_empty() {
        return Ok(None);
    }
    Ok(Some(Key { name, columns }))
}

impl CreateTable {
    fn statement(&self, alloc: Global, dialect: Dialect) -> Result<Statement, NoMemory>
        ensures { IfOk result (λ made. made ≡ creates dialect self.now) }
    {
        let table = &self.table_name;
        let columns = self.columns.as_slice();
        let head = both(table.duplicate(alloc), defs(alloc, columns));
        let lists = both(
            uniques(alloc, table, columns),
            foreign_keys(alloc, table, columns),
        );
        let tail = both(stated_key(alloc, dialect, table, columns), lists);
        let ((table, columns), (key, (uniques, foreign))) = both(head, tail)?;
        Ok(Statement::CreateTable {
            table,
            columns,
            key,
            uniques,
            foreign,
        })
    }
}

impl Written for CreatedConstraints {
    ghost use Rattle.lq_tables.specs.CreateTable.{constraints_rows};

    ghost rows = { constraints_rows };

    fn write(&self, to: &mut Canon) -> Result<(), NoMemory> {
        Fields(&[
            ("primaryKey", truth_field(self.primary_key)),
            ("primaryKeyName", name_field(&self.primary_key_name)),
            ("nullable", truth_field(self.nullable)),
            ("unique", truth_field(self.unique)),
            (
                "uniqueConstraintName",
                name_field(&self.unique_constraint_name),
            ),
            ("references", reference_field(&self.references)),
            ("foreignKeyName", name_field(&self.foreign_key_name)),
        ])
        .write(to)
    }
}

impl Written for CreatedColumn {
    ghost use Rattle.lq_tables.specs.CreateTable.{column_rows};

    ghost rows = { column_rows };

    fn write(&self, to: &mut Canon) -> Result<(), NoMemory> {
        let fields = [
            ("name", Some(Field::Text(self.name.as_key()))),
            ("type", Some(Field::Kind(self.kind))),
            ("autoIncrement", truth_field(self.auto_increment)),
        ];
        let constraints = MapAt {
            key: "constraints",
            map: &self.constraints,
        };
        (
            Fields(&fields),
            default_at(self.default_value.as_ref()),
            constraints,
        )
            .write(to)
    }
}

impl Change for CreateTable {
    ghost use Rattle.lq_tables.specs.CreateTable.{canonical_of, effect, gives, inverse, is_for, is_fresh};
    ghost use Rattle.lq_tables.specs.CreateTableLaws.{does, restores, returned, spelled, told};
    ghost use Rattle.lq_tables.specs.declared.create_table.CreateTable.{CreateTable};

    ghost Key = { CreateTable };

    ghost key = { λ change. change };

    ghost is_for = { is_for };

    ghost effect = { effect };

    ghost fresh = { is_fresh };

    ghost gives = { gives };

    ghost inverse = { inverse };

    ghost canonical = { canonical_of };

    fn statements(
        &self,
        alloc: Global,
        dialect: Dialect,
        to: &mut Items<Statement>,
    ) -> Result<(), NoMemory> {
        to.push(self.statement(alloc, dialect)?)?;
        Ok(())
    }

    fn undo(&self, alloc: Global, _dialect: Dialect) -> Result<Undo, NoMemory> {
        let mut statements = Items::new(alloc);
        statements.push(Statement::DropTable {
            table: self.table_name.duplicate(alloc)?,
        })?;
        Ok(Undo::Generated(statements))
    }

    fn is_fresh<K: Look>(&self, _dialect: Dialect, _look: &K) -> bool {
        true
    }

    fn canon(&self, to: &mut Canon) -> Result<(), NoMemory> {
        let fields = [("tableName", Some(Field::Text(self.table_name.text())))];
        let columns = MapsAt {
            key: "columns",
            maps: self.columns.as_slice(),
        };
        let place = [("schemaName", schema_field(&self.table_name))];
        write_change_of(
            to,
            "createTable",
            &(Fields(&fields), columns, Fields(&place)),
        )
    }

    ghost spelled = { spelled };

    ghost returned = { returned };

    ghost does = { does };

    ghost restores = { restores };

    ghost told = { told };
}
