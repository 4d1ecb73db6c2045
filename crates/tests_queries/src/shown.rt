use lq_base::{Items, Reason, Value};
use lq_model::{Answered, AskFault};
use std::alloc::AllocError;

pub fn show_reason(out: &mut String, reason: Reason) -> Result<(), AllocError> {
    out.push_str(match reason {
        Reason::Reserved => "reserved",
        Reason::Missing => "missing",
        Reason::WrongKind => "wrong kind",
        _ => "another reason",
    })
}

fn show_value(out: &mut String, value: &Value) -> Result<(), AllocError> {
    match value {
        Value::Null => out.push_str("null")?,
        Value::Int(number) => write!(out, "{number}")?,
        Value::Text(text) => out.push_str(text.as_str())?,
        Value::Bool(truth) => write!(out, "{truth}")?,
        Value::Moment(ms) => write!(out, "@{ms}")?,
        Value::Fixed { units, scale } => write!(out, "{units}e-{scale}")?,
    }
    out.push_str(" ")
}

fn show_row(out: &mut String, row: &Items<Value>) -> Result<(), AllocError> {
    out.push_str("; ")?;
    for value in row.as_slice() {
        show_value(out, value)?;
    }
    Ok(())
}

/// The number of columns and the rows, as one text.
pub fn show_answer(
    out: &mut String,
    answer: &Result<Answered, AskFault>,
) -> Result<(), AllocError> {
    match answer {
        Err(AskFault::Refused(reason)) => show_reason(out, *reason),
        Err(AskFault::OutOfMemory) => out.push_str("out of memory"),
        Ok(answered) => {
            write!(out, "{}", answered.columns)?;
            for row in answered.rows.as_slice() {
                show_row(out, row)?;
            }
            Ok(())
        }
    }
}
