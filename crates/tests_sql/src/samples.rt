ghost use Rattle.std.specs.Prelude.{◌≡◌, IfOk, true};
ghost use Rattle.lq_base.specs.Name.{is_name};

use lq_base::{Dialect, Items, Name, NoMemory, Reason};
use lq_model::{AskFault, By, Canon, Change, Look, Query, Statement, Undo, Wanted};
use lq_samples::{NewSequence, NoObjects};
use std::alloc::Global;
use std::process::Abort;
use std::test::Fail;

fn new_sequence(alloc: Global) -> Result<NewSequence, NoMemory>
    ensures { IfOk result (λ sequence. is_name sequence.name ≡ true) }
{
    match Name::new(alloc, "s") {
        Ok(name) => Ok(NewSequence { name }),
        Err(_) => Err(NoMemory),
    }
}

fn query(alloc: Global, table: &str) -> Result<Query, NoMemory> {
    match Name::new(alloc, table) {
        Ok(table) => Ok(Query {
            wanted: Wanted::All,
            table,
            test: None,
        }),
        Err(_) => Err(NoMemory),
    }
}

fn is_refused(alloc: Global, by: By, query: &Query, reason: Reason) -> bool {
    match NoObjects.ask(alloc, by, query) {
        Err(AskFault::Refused(told)) => told == reason,
        _ => false,
    }
}

fn makes_one(statements: &Items<Statement>) -> bool {
    match statements.as_slice() {
        [Statement::CreateSequence { name, start, step }] => name.as_key() == "s"
            && *start == 1
            && *step == 1,
        _ => false,
    }
}

fn drops_one(undo: &Undo) -> bool {
    match undo {
        Undo::Generated(statements) => match statements.as_slice() {
            [Statement::DropSequence { name }] => name.as_key() == "s",
            _ => false,
        },
        Undo::Absent => false,
    }
}

#[test]
fn nothing_is_seen(rt: HostRuntime) -> Result<(), Fail> {
    let alloc = rt.alloc();
    let user = query(alloc, "t")?;
    assert!(rt; is_refused(alloc, By::User, &user, Reason::Missing));
    assert!(rt; !NoObjects.is_table(&user.table));
    let tracking = query(alloc, "DatabaseChangeLogLock")?;
    assert!(rt; is_refused(alloc, By::User, &tracking, Reason::Reserved));
    assert!(rt; is_refused(alloc, By::Program, &tracking, Reason::Missing));
    Ok(())
}

#[test]
fn a_sequence_is_made_and_dropped(rt: HostRuntime) -> Result<(), Fail> {
    let alloc = rt.alloc();
    let change = new_sequence(alloc)?;
    let mut statements = Items::new(alloc);
    change.statements(alloc, Dialect::Postgresql, &mut statements)?;
    assert!(rt; makes_one(&statements));
    let undo = change.undo(alloc, Dialect::Postgresql)?;
    assert!(rt; drops_one(&undo));
    assert!(rt; change.is_fresh(Dialect::Postgresql, &NoObjects));
    Ok(())
}

#[test]
fn a_change_is_told(rt: HostRuntime) -> Result<(), Fail> {
    let alloc = rt.alloc();
    let change = new_sequence(alloc)?;
    let mut canon = Canon::new(alloc);
    change.canon(&mut canon)?;
    assert_eq!(rt;
        canon.written(),
        b"14:createSequence{12:sequenceNamet1:s}".as_slice()
    );
    Ok(())
}
