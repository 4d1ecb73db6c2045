use lq_base::{Items, Kind, Name, NameFault, NoMemory, Text, Value};
use lq_chain::Chain;
use lq_model::Column;
use std::alloc::Global;

fn column(alloc: Global, name: &str, kind: Kind) -> Result<Column, NameFault> {
    Ok(Column {
        name: Name::new(alloc, name)?,
        kind,
        nullable: true,
        default: None,
        numbered: false,
    })
}

/// A number, a decimal number, a text, a truth value and a moment.
pub fn columns(alloc: Global) -> Result<Items<Column>, NameFault> {
    let mut columns = Items::new(alloc);
    columns.push(column(alloc, "n", Kind::Int)?)?;
    columns.push(column(alloc, "d", Kind::Decimal(10, 2))?)?;
    columns.push(column(alloc, "s", Kind::Text)?)?;
    columns.push(column(alloc, "b", Kind::Boolean)?)?;
    columns.push(column(alloc, "m", Kind::Moment)?)?;
    Ok(columns)
}

/// A row of these columns; the number is null where it is 0.
pub fn row(alloc: Global, number: i64, units: i128, text: &str) -> Result<Items<Value>, NoMemory> {
    let mut row = Items::new(alloc);
    if number == 0 {
        row.push(Value::Null)?;
    } else {
        row.push(Value::Int(number))?;
    }
    row.push(Value::Fixed { units, scale: 2 })?;
    row.push(Value::Text(Text::new(alloc, text)?))?;
    row.push(Value::Bool(true))?;
    row.push(Value::Moment(0))?;
    Ok(row)
}

pub fn table(alloc: Global) -> Result<Chain<Items<Value>>, NoMemory> {
    let mut rows = Chain::new(alloc);
    rows.push_back(row(alloc, 1, 150, "a")?)?;
    rows.push_back(row(alloc, 2, -200, "b")?)?;
    rows.push_back(row(alloc, 0, 150, "c")?)?;
    Ok(rows)
}
