use crate::made::{columns, table};
use crate::shown::show_answer;
use lq_base::{Items, Name, NameFault, Value};
use lq_chain::Chain;
use lq_model::{By, Column, Query, SqlText, Test};
use lq_pg::Pg;
use lq_query::{Shown, Source, answer};
use std::alloc::{AllocError, Global};
use std::test::Fail;

// What is answered to a user, as one text.
fn told(alloc: Global, query: &Query, source: Option<Source<'_>>) -> Result<String, AllocError> {
    let mut told = String::new(alloc);
    let answered = answer(alloc, By::User, query, source);
    show_answer(&mut told, &answered)?;
    Ok(told)
}

fn told_of<'a>(
    alloc: Global,
    query: &Query,
    columns: &'a [Column],
    rows: &'a Chain<Items<Value>>,
) -> Result<String, AllocError> {
    let source = Source {
        columns,
        rows: rows.iter(),
        view: None,
    };
    told(alloc, query, Some(source))
}

fn told_of_view<'a>(
    alloc: Global,
    query: &Query,
    columns: &'a [Column],
    rows: &'a Chain<Items<Value>>,
    view: Shown<'a>,
) -> Result<String, AllocError> {
    let source = Source {
        columns,
        rows: rows.iter(),
        view: Some(view),
    };
    told(alloc, query, Some(source))
}

fn ask_table(alloc: Global, query: &Query) -> Result<String, Fail> {
    let columns = columns(alloc)?;
    let rows = table(alloc)?;
    Ok(told_of(alloc, query, columns.as_slice(), &rows)?)
}

// The columns `s` and `n`.
fn names(alloc: Global) -> Result<Items<Name>, NameFault> {
    let mut names = Items::new(alloc);
    names.push(Name::new(alloc, "s")?)?;
    names.push(Name::new(alloc, "n")?)?;
    Ok(names)
}

fn ask_view(alloc: Global, query: &Query, test: &Option<Test>) -> Result<String, Fail> {
    let columns = columns(alloc)?;
    let rows = table(alloc)?;
    let names = names(alloc)?;
    let view = Shown {
        names: names.as_slice(),
        test,
    };
    Ok(told_of_view(alloc, query, columns.as_slice(), &rows, view)?)
}

#[test]
fn tables_are_asked(rt: HostRuntime) -> Result<(), Fail> {
    let cases = [
        ("SELECT n, s FROM t", "2; 1 a ; 2 b ; null c "),
        ("SELECT s, n FROM t WHERE n > 1", "2; b 2 "),
        ("SELECT * FROM t WHERE s = 'a'", "5; 1 150e-2 a true @0 "),
        ("SELECT COUNT(*) FROM t", "1; 3 "),
        ("SELECT COUNT(*) FROM t WHERE n < 9", "1; 2 "),
        ("SELECT s FROM t WHERE n = 7", "1"),
        ("SELECT n, x FROM t", "missing"),
        ("SELECT n FROM t WHERE x = 1", "missing"),
        ("SELECT x FROM t WHERE n = 'a'", "missing"),
        ("SELECT n FROM t WHERE n = 'a'", "wrong kind"),
        ("SELECT x FROM databasechangelog", "reserved"),
    ];
    for (sql, want) in cases {
        let query = Pg.parse_query(rt.alloc(), sql)?;
        let told = ask_table(rt.alloc(), &query)?;
        assert_eq!(rt; told.as_str(), want);
    }
    Ok(())
}

#[test]
fn views_are_asked(rt: HostRuntime) -> Result<(), Fail> {
    let cases = [
        ("SELECT * FROM v", "2; b 2 ; c null "),
        ("SELECT n FROM v WHERE s = 'b'", "1; 2 "),
        ("SELECT COUNT(*) FROM v", "1; 2 "),
        ("SELECT COUNT(*) FROM v WHERE n IS NULL", "1; 1 "),
        ("SELECT d FROM v", "missing"),
        ("SELECT s FROM v WHERE b = TRUE", "missing"),
        ("SELECT s FROM v WHERE s = 1", "wrong kind"),
    ];
    let test = Some(Pg.parse_test(rt.alloc(), "s > 'a'")?);
    for (sql, want) in cases {
        let query = Pg.parse_query(rt.alloc(), sql)?;
        let told = ask_view(rt.alloc(), &query, &test)?;
        assert_eq!(rt; told.as_str(), want);
    }
    Ok(())
}

#[test]
fn nothing_is_asked(rt: HostRuntime) -> Result<(), Fail> {
    let cases = [
        ("SELECT n FROM u", "missing"),
        ("SELECT n FROM \"DatabaseChangeLogLock\"", "reserved"),
    ];
    for (sql, want) in cases {
        let query = Pg.parse_query(rt.alloc(), sql)?;
        let told = told(rt.alloc(), &query, None)?;
        assert_eq!(rt; told.as_str(), want);
    }
    Ok(())
}
