use lq_base::{Items, Kind, Name, Value};
use lq_model::{
    Answered, AskFault, By, Column, ForeignKey, Index, Key, Look, Query, Unique, Wanted,
};
use std::alloc::{AllocError, Global};
use std::test::Fail;

fn show_kind(out: &mut String, kind: Kind) -> Result<(), AllocError> {
    match kind {
        Kind::Int => out.push_str("int"),
        Kind::BigInt => out.push_str("bigint"),
        Kind::Boolean => out.push_str("bool"),
        Kind::Varchar(most) => write!(out, "varchar({most})"),
        Kind::Text => out.push_str("text"),
        Kind::Moment => out.push_str("moment"),
        Kind::Decimal(digits, scale) => write!(out, "decimal({digits},{scale})"),
    }
}

fn show_value(out: &mut String, value: &Value) -> Result<(), AllocError> {
    match value {
        Value::Null => out.push_str("null"),
        Value::Int(number) => write!(out, "{number}"),
        Value::Text(text) => out.push_str(text.as_str()),
        Value::Bool(truth) => write!(out, "{truth}"),
        Value::Moment(ms) => write!(out, "@{ms}"),
        Value::Fixed { units, scale } => write!(out, "{units}e-{scale}"),
    }
}

fn show_column(out: &mut String, column: &Column) -> Result<(), AllocError> {
    out.push_str(column.name.as_key())?;
    out.push_str(" ")?;
    show_kind(out, column.kind)?;
    out.push_str(if column.nullable { "" } else { "!" })?;
    out.push_str(if column.numbered { "#" } else { "" })?;
    match &column.default {
        None => Ok(()),
        Some(value) => {
            out.push_str(" = ")?;
            show_value(out, value)
        }
    }
}

fn show_columns(out: &mut String, columns: &[Column]) -> Result<(), AllocError> {
    let mut before = "(";
    for column in columns {
        out.push_str(before)?;
        show_column(out, column)?;
        before = ", ";
    }
    out.push_str(")")
}

fn show_names(out: &mut String, names: &[Name]) -> Result<(), AllocError> {
    let mut before = "(";
    for name in names {
        out.push_str(before)?;
        out.push_str(name.as_key())?;
        before = ",";
    }
    out.push_str(")")
}

// The name, behind its schema and a dot where that is not `public`.
fn show_name(out: &mut String, name: &Name) -> Result<(), AllocError> {
    if name.is_elsewhere() {
        out.push_str(name.schema())?;
        out.push_str(".")?;
    }
    out.push_str(name.text())
}

fn show_constraint(
    out: &mut String,
    word: &str,
    name: &Name,
    columns: &[Name],
) -> Result<(), AllocError> {
    out.push_str(word)?;
    show_name(out, name)?;
    show_names(out, columns)
}

fn show_key(out: &mut String, key: Option<&Key>) -> Result<(), AllocError> {
    match key {
        None => Ok(()),
        Some(key) => show_constraint(out, " key ", &key.name, key.columns.as_slice()),
    }
}

fn show_uniques(out: &mut String, uniques: &[Unique]) -> Result<(), AllocError> {
    for unique in uniques {
        show_constraint(out, " unique ", &unique.name, unique.columns.as_slice())?;
    }
    Ok(())
}

fn show_foreign_key(out: &mut String, key: &ForeignKey) -> Result<(), AllocError> {
    show_constraint(out, " foreign ", &key.name, key.columns.as_slice())?;
    show_constraint(out, ">", &key.table, key.targets.as_slice())?;
    out.push_str(if key.cascade { "*" } else { "" })
}

fn show_foreign_keys(out: &mut String, keys: &[ForeignKey]) -> Result<(), AllocError> {
    for key in keys {
        show_foreign_key(out, key)?;
    }
    Ok(())
}

fn show_indexes(out: &mut String, indexes: &[Index]) -> Result<(), AllocError> {
    for index in indexes {
        show_constraint(out, " index ", &index.name, index.columns.as_slice())?;
        out.push_str(if index.unique { "!" } else { "" })?;
    }
    Ok(())
}

fn show_row(out: &mut String, row: &[Value]) -> Result<(), AllocError> {
    let mut before = "[";
    for value in row {
        out.push_str(before)?;
        show_value(out, value)?;
        before = " ";
    }
    out.push_str("]")
}

fn show_rows(out: &mut String, rows: &[Items<Value>]) -> Result<(), AllocError> {
    for row in rows {
        show_row(out, row.as_slice())?;
    }
    Ok(())
}

/// A reason, as its text, or the rows.
pub fn show_answer(
    out: &mut String,
    answer: &Result<Answered, AskFault>,
) -> Result<(), AllocError> {
    match answer {
        Err(AskFault::Refused(reason)) => out.push_str(reason.text()),
        Err(AskFault::OutOfMemory) => out.push_str("out of memory"),
        Ok(answered) => show_rows(out, answered.rows.as_slice()),
    }
}

fn show_all<L: Look>(
    alloc: Global,
    out: &mut String,
    look: &L,
    name: Name,
) -> Result<(), AllocError> {
    let query = Query {
        wanted: Wanted::All,
        table: name,
        test: None,
    };
    show_answer(out, &look.ask(alloc, By::Program, &query))
}

fn show_table<L: Look>(out: &mut String, look: &L, table: &Name) -> Result<(), AllocError> {
    show_name(out, table)?;
    show_columns(out, look.columns(table).unwrap_or(&[]))?;
    show_key(out, look.key(table))?;
    show_uniques(out, look.uniques(table).unwrap_or(&[]))?;
    show_foreign_keys(out, look.foreign_keys(table).unwrap_or(&[]))?;
    show_indexes(out, look.indexes(table).unwrap_or(&[]))?;
    out.push_str(" ")
}

fn show_object<L: Look>(
    alloc: Global,
    out: &mut String,
    look: &L,
    name: Name,
) -> Result<(), AllocError> {
    if look.is_table(&name) {
        show_table(out, look, &name)?;
        show_all(alloc, out, look, name)?;
        return out.push_str("; ");
    }
    if look.is_view(&name) {
        show_name(out, &name)?;
        out.push_str(" = ")?;
        show_all(alloc, out, look, name)?;
        return out.push_str("; ");
    }
    if look.is_sequence(&name) {
        show_name(out, &name)?;
        return out.push_str("; ");
    }
    Ok(())
}

fn show_schema<L: Look>(
    alloc: Global,
    out: &mut String,
    look: &L,
    schema: &str,
) -> Result<(), Fail> {
    for word in ["t", "u", "v", "w", "s"] {
        let name = Name::within(alloc, schema, word)?;
        show_object(alloc, out, look, name)?;
    }
    Ok(())
}

/// The tables, views and sequences named `t`, `u`, `v`, `w` and `s`, in `public` and then in `app`, as
/// `t(n int!, s text = x) key k(n) [1 a][2 null]; app.v = [1]; s; `. A `!` stands for NOT NULL and for
/// a unique index, `#` for a numbered column, and `*` for a cascade.
pub fn show<L: Look>(alloc: Global, look: &L) -> Result<String, Fail> {
    let mut out = String::new(alloc);
    show_schema(alloc, &mut out, look, "public")?;
    show_schema(alloc, &mut out, look, "app")?;
    Ok(out)
}
