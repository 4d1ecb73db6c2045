use super::Maker;
use lq_base::{Dialect, Literal};
use lq_model::{Op, Operand, Query, Test, Wanted};
use std::process::Abort;

fn query<R: Abort>(make: &Maker<'_, R>, wanted: Wanted, test: Option<Test>) -> Query {
    let table = make.name("t");
    Query {
        wanted,
        table,
        test,
    }
}

#[test]
fn prints_queries(rt: HostRuntime) {
    let make = Maker::new(&rt, rt.alloc());
    let all = query(&make, Wanted::All, None);
    make.query(Dialect::Mysql, all, "SELECT * FROM `t`");
    let null = Test::IsNull(Operand::Column(make.name("a")));
    let turned = Test::Not(make.boxed(null));
    let count = query(&make, Wanted::Count, Some(turned));
    let wanted = "SELECT COUNT(*) FROM \"t\" WHERE (NOT \"a\" IS NULL)";
    make.query(Dialect::Postgresql, count, wanted)
}

fn compares<R: Abort>(make: &Maker<'_, R>, op: Op) -> Test {
    let least = Literal::Int(-170141183460469231731687303715884105728);
    make.compare("n", op, least)
}

#[test]
fn prints_tests(rt: HostRuntime) {
    let make = Maker::new(&rt, rt.alloc());
    let some = Test::NotNull(Operand::Literal(make.text("größer")));
    let either = Test::Or(make.boxed(some), make.boxed(compares(&make, Op::Ne)));
    let wanted = "('größer' IS NOT NULL OR \"n\" <> -170141183460469231731687303715884105728)";
    make.test(Dialect::Postgresql, either, wanted);
    for (op, wanted) in [
        (Op::Lt, "`n` < -170141183460469231731687303715884105728"),
        (Op::Le, "`n` <= -170141183460469231731687303715884105728"),
        (Op::Gt, "`n` > -170141183460469231731687303715884105728"),
        (Op::Ge, "`n` >= -170141183460469231731687303715884105728"),
    ] {
        make.test(Dialect::Mysql, compares(&make, op), wanted);
    }
}
