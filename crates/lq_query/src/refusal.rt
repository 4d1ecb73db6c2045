ghost use Rattle.std.specs.List.{list_any};
ghost use Rattle.std.specs.Prelude.{◌≡◌, ◌∷◌, []};
ghost use Rattle.lq_model.specs.Comparison.{compares_wrongly};
ghost use Rattle.lq_model.specs.Views.{lacks_column, listed};
ghost use Rattle.lq_model.specs.NameSpaces.{is_reserved, is_tracking};
ghost use Rattle.lq_model.specs.Truth.{names_in};
ghost use Rattle.lq_query.specs.Given.{against, is_tracking_key};

use crate::truth::{has_column, kinds_agree, lacks_column};
use lq_base::{Name, Reason};
use lq_model::{By, Column, Query, Test, Wanted};

fn is_tracking_key(key: &str) -> bool
    ensures { result ≡ is_tracking_key key.now }
{
    key.eq_ignore_ascii_case("databasechangelog")
        || key.eq_ignore_ascii_case("databasechangeloglock")
}

#[tactic(auto, using(crate::proofs::TrackingNames::tracking_in_any_case))]
fn is_tracking(name: &Name) -> bool
    ensures { result ≡ is_tracking name.now }
{
    is_tracking_key(name.as_key())
}

/// Whether the name is reserved to the program.
pub fn is_reserved(by: By, name: &Name) -> bool
    ensures { result ≡ is_reserved by (name.now ∷ []) }
{
    match by {
        By::User => is_tracking(name),
        By::Program => false,
    }
}

fn lacks_any(columns: &[Column], names: &[Name]) -> bool
    ensures { result ≡ lacks_column columns.now names.now }
{
    names.iter().any(|name| !has_column(columns, name))
}

#[tactic(auto, using(crate::proofs::Listed::lacks_none))]
fn lacks_listed(columns: &[Column], wanted: &Wanted) -> bool
    ensures { result ≡ lacks_column columns.now (listed wanted.now columns.now) }
{
    match wanted {
        Wanted::All => false,
        Wanted::Count => false,
        Wanted::Columns(names) => lacks_any(columns, names.as_slice()),
    }
}

fn lacks_tested(columns: &[Column], test: &Option<Test>) -> bool
    ensures { result ≡ lacks_column columns.now (names_in test.now) }
{
    match test {
        Some(test) => lacks_column(columns, test),
        None => false,
    }
}

fn compares_wrongly(columns: &[Column], test: &Option<Test>) -> bool
    ensures { result ≡ compares_wrongly columns.now test.now }
{
    match test {
        Some(test) => !kinds_agree(columns, test),
        None => false,
    }
}

/// The first reason against a query where these columns are shown.
#[tactic(auto, unfolding(crate::specs::Given::against))]
pub fn against(by: By, query: &Query, columns: &[Column]) -> Result<(), Reason>
    ensures { result ≡ against by query.now columns.now }
{
    if is_reserved(by, &query.table) {
        return Err(Reason::Reserved);
    }
    if lacks_listed(columns, &query.wanted) || lacks_tested(columns, &query.test) {
        return Err(Reason::Missing);
    }
    if compares_wrongly(columns, &query.test) {
        return Err(Reason::WrongKind);
    }
    Ok(())
}
