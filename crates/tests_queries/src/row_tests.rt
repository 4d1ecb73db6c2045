ghost use Rattle.std.specs.Prelude.{◌≡◌};
ghost use Rattle.lq_model.specs.Catalogue.{row_fits};

use crate::made::{columns, row};
use crate::shown::show_reason;
use lq_base::Value;
use lq_model::{Column, SqlText, Test};
use lq_pg::Pg;
use lq_query::test_row;
use std::alloc::{AllocError, Global};
use std::test::Fail;

fn row_fits(columns: &[Column], row: &[Value]) -> bool
    ensures { result ≡ row_fits columns.now row.now }
{
    let [column, columns @ ..] = columns else {
        return row.is_empty();
    };
    let [value, row @ ..] = row else {
        return false;
    };
    value.is_of(column.kind) && row_fits(columns, row)
}

fn show_test(
    out: &mut String,
    test: &Test,
    columns: &[Column],
    row: &[Value],
) -> Result<(), AllocError> {
    if !row_fits(columns, row) {
        return out.push_str("no row");
    }
    match test_row(test, columns, row) {
        Ok(Some(truth)) => Ok(write!(out, "{truth}")?),
        Ok(None) => out.push_str("unknown"),
        Err(reason) => show_reason(out, reason),
    }
}

// What a test tells of the row, as one text.
fn tested(alloc: Global, sql: &str) -> Result<String, Fail> {
    let test = Pg.parse_test(alloc, sql)?;
    let columns = columns(alloc)?;
    let row = row(alloc, 1, 150, "a")?;
    let mut told = String::new(alloc);
    show_test(&mut told, &test, columns.as_slice(), row.as_slice())?;
    Ok(told)
}

#[test]
fn rows_are_tested(rt: HostRuntime) -> Result<(), Fail> {
    let cases = [
        ("n = 1", "true"),
        ("n <> 1", "false"),
        ("n < 1.01", "true"),
        ("d = 1.5", "true"),
        ("d >= 1.500000000000000000000000000000000000", "true"),
        ("d < 170141183460469231731687303715884105727", "true"),
        ("-170141183460469231731687303715884105728 > d", "false"),
        ("0.0000000000000000000000000000000000001 <= d", "true"),
        ("s < 'b'", "true"),
        ("s >= 'a'", "true"),
        ("b > FALSE", "true"),
        ("m = '1970-01-01'", "true"),
        ("'1970-01-01 00:00:00.001' > m", "true"),
        ("n = NULL", "unknown"),
        ("NOT n = NULL", "unknown"),
        ("n = NULL AND n = 2", "false"),
        ("n = NULL OR n = 1", "true"),
        ("n IS NULL", "false"),
        ("n IS NOT NULL", "true"),
        ("x = 1", "missing"),
        ("n = 'a' OR x = 1", "missing"),
        ("n = 'a'", "wrong kind"),
        ("s = b", "wrong kind"),
        ("m = 'a'", "wrong kind"),
    ];
    for (sql, want) in cases {
        let told = tested(rt.alloc(), sql)?;
        assert_eq!(rt; told.as_str(), want);
    }
    Ok(())
}
