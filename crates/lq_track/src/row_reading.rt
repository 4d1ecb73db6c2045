ghost use Rattle.lq_base.specs.Name.{is_named};
ghost use Rattle.std.specs.Prelude.{◌≡◌, IfOk, drop, option_and_then, option_map, take};
ghost use Rattle.lq_track.specs.Database.{exec_in, order_in, row_in, text_in, details_in, joined, run_in};

use crate::stored::text_in;
use lq_base::{Duplicate, Exec, NoMemory, Text, Tracked, Value, both};
use std::alloc::Global;

/// A row's first six values: whose it is, and how it ran.
#[derive(Drop)]
pub struct Run {
    id: Text,
    author: Text,
    filename: Text,
    date: i64,
    order: u32,
    exec: Exec,
}

/// A row's other values.
#[derive(Drop)]
pub struct Details {
    md5sum: Option<Text>,
    description: Text,
    comments: Text,
    tag: Option<Text>,
    tool: Text,
    contexts: Text,
    labels: Text,
    deployment: Text,
}

/// A row, where each of its values is of its column's type, none but its checksum and its tag is
/// null, and its order is at least 1.
#[tactic(auto, using(crate::proofs::RowParts::row_in_parts))]
pub fn row_in(alloc: Global, values: &[Value]) -> Result<Option<Tracked>, NoMemory>
    ensures { IfOk result (λ row. row ≡ row_in values.now) }
{
    let (front, back) = split(values);
    let Some(run) = run_in(alloc, front)? else {
        return Ok(None);
    };
    let Some(details) = details_in(alloc, back)? else {
        return Ok(None);
    };
    Ok(Some(joined(run, details)))
}

/// The first six values, and the others.
fn split(values: &[Value]) -> (&[Value], &[Value])
    ensures front { result.0.now ≡ take 6 values.now }
    ensures back { result.1.now ≡ drop 6 values.now }
{
    if values.len() < 6 {
        return (values, &[]);
    }
    values.split_at(6)
}

fn joined(run: Run, details: Details) -> Tracked
    ensures { result ≡ joined run details }
{
    Tracked {
        id: run.id,
        author: run.author,
        filename: run.filename,
        date: run.date,
        order: run.order,
        exec: run.exec,
        md5sum: details.md5sum,
        description: details.description,
        comments: details.comments,
        tag: details.tag,
        tool: details.tool,
        contexts: details.contexts,
        labels: details.labels,
        deployment: details.deployment,
    }
}

#[tactic(auto, unfolding(crate::specs::Database::run_in))]
fn run_in(alloc: Global, values: &[Value]) -> Result<Option<Run>, NoMemory>
    ensures { IfOk result (λ run. run ≡ run_in values.now) }
{
    let [
        Value::Text(id),
        Value::Text(author),
        Value::Text(filename),
        Value::Moment(date),
        Value::Int(order),
        Value::Text(exec),
    ] = values
    else {
        return Ok(None);
    };
    let Some(order) = order_in(*order)? else {
        return Ok(None);
    };
    let Some(exec) = exec_in(exec) else {
        return Ok(None);
    };
    Ok(Some(Run {
        id: id.duplicate(alloc)?,
        author: author.duplicate(alloc)?,
        filename: filename.duplicate(alloc)?,
        date: *date,
        order,
        exec,
    }))
}

#[tactic(auto, unfolding(crate::specs::Database::details_in))]
fn details_in(alloc: Global, values: &[Value]) -> Result<Option<Details>, NoMemory>
    ensures { IfOk result (λ details. details ≡ details_in values.now) }
{
    let [
        md5sum,
        Value::Text(description),
        Value::Text(comments),
        tag,
        Value::Text(tool),
        Value::Text(contexts),
        Value::Text(labels),
        Value::Text(deployment),
    ] = values
    else {
        return Ok(None);
    };
    details_of(
        alloc,
        md5sum,
        description,
        comments,
        tag,
        tool,
        contexts,
        labels,
        deployment,
    )
}

fn details_of(
    alloc: Global,
    md5sum: &Value,
    description: &Text,
    comments: &Text,
    tag: &Value,
    tool: &Text,
    contexts: &Text,
    labels: &Text,
    deployment: &Text,
) -> Result<Option<Details>, NoMemory>
    ensures { IfOk result (λ d.
        d
        ≡ option_and_then (λ m.
        option_map (λ t.
        record {
          md5sum = m;
          description = description.now;
          comments = comments.now;
          tag = t;
          tool = tool.now;
          contexts = contexts.now;
          labels = labels.now;
          deployment = deployment.now;
        }) (text_in tag.now)) (text_in md5sum.now)) }
{
    let Some(md5sum) = text_in(alloc, md5sum)? else {
        return Ok(None);
    };
    let Some(tag) = text_in(alloc, tag)? else {
        return Ok(None);
    };
    let told = both(description.duplicate(alloc), comments.duplicate(alloc));
    let by = both(tool.duplicate(alloc), deployment.duplicate(alloc));
    let for_whom = both(contexts.duplicate(alloc), labels.duplicate(alloc));
    let (((description, comments), (tool, deployment)), (contexts, labels)) = both(
        both(told, by),
        for_whom,
    )?;
    Ok(Some(Details {
        md5sum,
        description,
        comments,
        tag,
        tool,
        contexts,
        labels,
        deployment,
    }))
}

/// A place in run order, which is at least 1. No column of the type INTEGER holds one that is past
/// what `Tracked::order` takes.
fn order_in(number: i64) -> Result<Option<u32>, NoMemory>
    ensures { IfOk result (λ order. order ≡ order_in number) }
{
    if number < 1 {
        return Ok(None);
    }
    match u32::try_from(number) {
        Ok(order) => Ok(Some(order)),
        Err(_) => Err(NoMemory),
    }
}

fn exec_in(text: &Text) -> Option<Exec>
    ensures { result ≡ exec_in text.now }
{
    if is_text(text, Exec::Executed.text()) {
        Some(Exec::Executed)
    } else if is_text(text, Exec::Reran.text()) {
        Some(Exec::Reran)
    } else if is_text(text, Exec::MarkRan.text()) {
        Some(Exec::MarkRan)
    } else {
        None
    }
}

fn is_text(text: &Text, word: &str) -> bool
    ensures { result ≡ is_named text.now word.now }
{
    text.as_str() == word
}
