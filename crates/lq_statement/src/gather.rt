ghost use Rattle.std.specs.Prelude.{◌≡◌, ◌++◌, OnOk};
ghost use Rattle.lq_model.specs.SqlParser.{Gives};
ghost use Rattle.lq_model.specs.SqlTable as spec;

use lq_base::{Duplicate, Items, Name, NoMemory};
use lq_model::{
    ColumnDef, ForeignKey, Key, ParseFault, Statement, TableConstraint, TableItem, Unique,
};
use std::alloc::Global;

fn push_column(alloc: Global, item: &TableItem, to: &mut Items<ColumnDef>) -> Result<(), NoMemory>
    ensures { OnOk result (to.new ≡ to.old ++ spec.columns_in item.now) }
{
    if let TableItem::Column { column, .. } = item {
        to.push(column.duplicate(alloc)?)?;
    }
    Ok(())
}

fn push_key(alloc: Global, item: &TableItem, to: &mut Items<Key>) -> Result<(), NoMemory>
    ensures { OnOk result (to.new ≡ to.old ++ spec.keys_in item.now) }
{
    match item {
        TableItem::Column { key: Some(key), .. }
        | TableItem::Constraint(TableConstraint::Key(key)) => to.push(key.duplicate(alloc)?)?,
        _ => {}
    }
    Ok(())
}

fn push_unique(alloc: Global, item: &TableItem, to: &mut Items<Unique>) -> Result<(), NoMemory>
    ensures { OnOk result (to.new ≡ to.old ++ spec.uniques_in item.now) }
{
    match item {
        TableItem::Column {
            unique: Some(unique),
            ..
        }
        | TableItem::Constraint(TableConstraint::Unique(unique)) => {
            to.push(unique.duplicate(alloc)?)?
        }
        _ => {}
    }
    Ok(())
}

fn push_foreign(alloc: Global, item: &TableItem, to: &mut Items<ForeignKey>) -> Result<(), NoMemory>
    ensures { OnOk result (to.new ≡ to.old ++ spec.foreign_in item.now) }
{
    match item {
        TableItem::Column {
            foreign: Some(foreign),
            ..
        }
        | TableItem::Constraint(TableConstraint::Foreign(foreign)) => {
            to.push(foreign.duplicate(alloc)?)?
        }
        _ => {}
    }
    Ok(())
}

fn rank(item: &TableItem) -> u8
    ensures { result ≡ spec.rank item.now }
{
    match item {
        TableItem::Column { .. } => 0,
        TableItem::Constraint(TableConstraint::Key(_)) => 1,
        TableItem::Constraint(TableConstraint::Unique(_)) => 2,
        TableItem::Constraint(TableConstraint::Foreign(_)) => 3,
    }
}

fn are_ordered(items: &[TableItem]) -> bool
    ensures { result ≡ spec.are_ordered items.now }
{
    let mut least = 0;
    let mut rest = items;
    while let [item, more @ ..] = rest {
        if rank(item) < least {
            return false;
        }
        least = rank(item);
        rest = more;
    }
    true
}

fn only(mut keys: Items<Key>) -> Result<Option<Key>, ParseFault>
    ensures { Gives (spec.only keys) result }
{
    let key = keys.pop();
    if keys.is_empty() {
        Ok(key)
    } else {
        Err(ParseFault::NotSql)
    }
}

/// The table that the items of CREATE TABLE describe.
#[tactic(auto, unfolding(lq_model::specs::SqlTable::table_of))]
pub fn table_of(alloc: Global, table: Name, items: &[TableItem]) -> Result<Statement, ParseFault>
    ensures { Gives (spec.table_of table items.now) result }
{
    let mut columns = Items::new(alloc);
    let mut keys = Items::new(alloc);
    let mut uniques = Items::new(alloc);
    let mut foreign = Items::new(alloc);
    let mut rest = items;
    while let [item, more @ ..] = rest {
        push_column(alloc, item, &mut columns)?;
        push_key(alloc, item, &mut keys)?;
        push_unique(alloc, item, &mut uniques)?;
        push_foreign(alloc, item, &mut foreign)?;
        rest = more;
    }
    if !are_ordered(items) || columns.is_empty() {
        return Err(ParseFault::NotSql);
    }
    let key = only(keys)?;
    Ok(Statement::CreateTable {
        table,
        columns,
        key,
        uniques,
        foreign,
    })
}
