ghost use Rattle.std.specs.Option.{option_map};
ghost use Rattle.std.specs.Prelude.{◌≡◌, Err, List, None, Some, map};
ghost use Rattle.lq_base.specs.declared.value.Value.{Value as Held};
ghost use Rattle.lq_model.specs.Catalogue.{Catalogue, IsAnswer};
ghost use Rattle.lq_model.specs.Views.{answer, source_of};
ghost use Rattle.lq_query.specs.Given.{answered};
ghost use Rattle.lq_query.specs.Source.{TakesAlike, shown_rows, source_meant};

use crate::pick::columns_at;
use crate::reading::Reading;
use crate::refusal::{against, is_reserved};
use crate::source::Source;
use lq_base::{Items, NoMemory, Reason, Value};
use lq_model::{Answered, AskFault, By, Column, Query};
use std::alloc::Global;

// The answer where nothing stands at the name.
#[tactic(auto, unfolding(crate::specs::Given::answered))]
fn nothing_there(by: By, query: &Query) -> Reason
    ensures { answered by query.now None ≡ Err result }
{
    if is_reserved(by, &query.table) {
        Reason::Reserved
    } else {
        Reason::Missing
    }
}

// The answer where these columns are shown.
fn answer_of<'a>(
    alloc: Global,
    by: By,
    query: &'a Query,
    source: Source<'a>,
    columns: &'a [Column],
) -> Result<Answered, AskFault>
    ensures { IsAnswer
        (answered by query.now
        (Some
        (record {
          columns = columns.now;
          rows = shown_rows source.entry.view source.entry.columns.now
              source.entry.rows;
        }))) result }
{
    let reading = Reading {
        query,
        table: source.columns,
        view: source.view,
        columns,
    };
    match against(by, query, columns) {
        Err(reason) => Err(AskFault::Refused(reason)),
        Ok(()) => match reading.answered(alloc, source.rows) {
            Ok(answered) => Ok(answered),
            Err(NoMemory) => Err(AskFault::OutOfMemory),
        },
    }
}

fn answer_at(alloc: Global, by: By, query: &Query, source: Source<'_>) -> Result<Answered, AskFault>
    ensures { IsAnswer (answered by query.now (Some (source_meant source.entry))) result }
{
    let Some(view) = source.view else {
        let columns = source.columns;
        return answer_of(alloc, by, query, source, columns);
    };
    match columns_at(alloc, view.names, source.columns) {
        Ok(columns) => answer_of(alloc, by, query, source, columns.as_slice()),
        Err(NoMemory) => Err(AskFault::OutOfMemory),
    }
}

/// The answer to a query on someone's behalf, or the first reason against it, where this stands at
/// the name that the query asks: nothing, a table or a view.
pub fn answer(
    alloc: Global,
    by: By,
    query: &Query,
    source: Option<Source<'_>>,
) -> Result<Answered, AskFault>
    ensures { (c : Catalogue)
        → source_of c query.now.table ≡ option_map source_meant source.entry
        → IsAnswer (answer by query.now c) result }
{
    match source {
        Some(source) => answer_at(alloc, by, query, source),
        None => Err(AskFault::Refused(nothing_there(by, query))),
    }
}

// The answer where this table stands at the name.
fn answer_of_rows<'a>(
    alloc: Global,
    by: By,
    query: &'a Query,
    columns: &'a [Column],
    rows: &[&Items<Value>],
) -> Result<Answered, AskFault>
    ensures { IsAnswer
        (answered by query.now
        (Some (record { columns = columns.now; rows = map (λ row. row.now) rows.now })))
        result }
{
    let reading = Reading {
        query,
        table: columns,
        view: None,
        columns,
    };
    match against(by, query, columns) {
        Err(reason) => Err(AskFault::Refused(reason)),
        Ok(()) => match reading.answered_of(alloc, rows) {
            Ok(answered) => Ok(answered),
            Err(NoMemory) => Err(AskFault::OutOfMemory),
        },
    }
}

/// The same where a table stands at the name, and these of its rows are enough: of them the query
/// takes what it takes of all.
pub fn answer_by(
    alloc: Global,
    by: By,
    query: &Query,
    columns: &[Column],
    rows: &[&Items<Value>],
) -> Result<Answered, AskFault>
    ensures { (c : Catalogue) (all : List (List Held))
        → source_of c query.now.table ≡ Some (record { columns = columns.now; rows = all })
        → TakesAlike query.now.test columns.now (map (λ row. row.now) rows.now) all
        → IsAnswer (answer by query.now c) result }
{
    answer_of_rows(alloc, by, query, columns, rows)
}
