ghost use Rattle.std.specs.Option.{option_map};
ghost use Rattle.std.specs.Prelude.{◌≡◌, Some};
ghost use Rattle.lq_engine.specs.Shown.{ViewsStand};
ghost use Rattle.lq_model.specs.Catalogue.{Catalogue, IsAnswer, table_of};
ghost use Rattle.lq_model.specs.Views.{answer, source_of};
ghost use Rattle.lq_query.specs.Source.{source_meant};

use lq_base::{Name, NoMemory};
use lq_model::{Answered, AskFault, By, Query};
use lq_one_row::front_of;
use lq_parts::Parts;
use lq_query::{Shown, Source, answer, answer_by};
use lq_rows::Held;
use std::alloc::Global;

/// What stands at the name that a query asks: a table, a view with its table, or nothing.
pub fn source_at<'a>(parts: &'a Parts, name: &Name) -> Option<Source<'a>>
    requires { ViewsStand parts.now.now }
    ensures { source_of parts.now.now name.now ≡ option_map source_meant result }
{
    if let Some(held) = parts.table(name) {
        return Some(Source {
            columns: held.columns(),
            rows: held.rows().iter(),
            view: None,
        });
    }
    let view = parts.view(name)?;
    let query = view.query();
    let Some(held) = parts.table(&query.table) else {
        unreachable!()
    };
    Some(Source {
        columns: held.columns(),
        rows: held.rows().iter(),
        view: Some(Shown {
            names: view.columns(),
            test: &query.test,
        }),
    })
}

/// The answer to a query of this table: by few of its rows, where they are known to be enough.
pub fn answer_of(alloc: Global, by: By, query: &Query, held: &Held) -> Result<Answered, AskFault>
    ensures { (c : Catalogue)
        → table_of c query.now.table ≡ Some held.now.now
        → IsAnswer (answer by query.now c) result }
{
    match front_of(alloc, held, &query.test) {
        Ok(Some(rows)) => answer_by(alloc, by, query, held.columns(), rows.as_slice()),
        Ok(None) => answer_in_turn(alloc, by, query, held),
        Err(NoMemory) => Err(AskFault::OutOfMemory),
    }
}

/// The same, by one row after another.
fn answer_in_turn(alloc: Global, by: By, query: &Query, held: &Held) -> Result<Answered, AskFault>
    ensures { (c : Catalogue)
        → table_of c query.now.table ≡ Some held.now.now
        → IsAnswer (answer by query.now c) result }
{
    let source = Source {
        columns: held.columns(),
        rows: held.rows().iter(),
        view: None,
    };
    answer(alloc, by, query, Some(source))
}
