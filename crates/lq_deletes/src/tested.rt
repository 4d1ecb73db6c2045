ghost use Rattle.std.specs.List.{list_any};
ghost use Rattle.std.specs.Prelude.{◌≡◌, map, not};
ghost use Rattle.lq_model.specs.Comparison.{compares_wrongly};
ghost use Rattle.lq_model.specs.Catalogue.{is_in};
ghost use Rattle.lq_model.specs.Truth.{names_in};

use lq_model::{Column, Test};
use lq_query::{kinds_agree, lacks_column};

/// Whether the test names a column that is not among these.
pub fn lacks_tested(columns: &[Column], test: &Option<Test>) -> bool
    ensures { result
        ≡ list_any (λ n. not (is_in n (map (λ c. c.name) columns.now))) (names_in test.now) }
{
    match test {
        Some(test) => lacks_column(columns, test),
        None => false,
    }
}

/// Whether the test compares what may not be compared.
pub fn compares_wrongly(columns: &[Column], test: &Option<Test>) -> bool
    ensures { result ≡ compares_wrongly columns.now test.now }
{
    match test {
        Some(test) => !kinds_agree(columns, test),
        None => false,
    }
}
