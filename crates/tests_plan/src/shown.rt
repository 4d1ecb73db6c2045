ghost use Rattle.std.specs.Prelude.{◌≡◌};

use crate::given::{changelog, options};
use crate::rows::rows;
use lq_back::{ReverseFault, TakenBack, reversible};
use lq_base::{Dialect, Identity, Items, NoMemory, Text, Tracked, append_whole};
use lq_expr::Options;
use lq_kinds::{ChangeSet, Changelog};
use lq_model::SqlText;
use lq_plan::Item;
use lq_seen::is_selected;
use lq_sets::{faults_of, pending_of, work_of};
use lq_turns::{Fault, What};
use std::alloc::Global;
use std::process::Abort;

/// What is asked of changesets, given as JSON, and rows: the lines that answer it.
#[derive(Clone, Copy)]
pub struct Case<'a> {
    pub sets: &'a str,
    pub rows: &'a str,
    pub wanted: &'a str,
}

// `twice IDENTITY`, or `changed IDENTITY from SUM to SUM`.
fn append_fault(fault: &Fault, to: &mut Text) -> Result<(), NoMemory> {
    match fault {
        Fault::Twice(identity) => {
            to.push_str("\ntwice ")?;
            identity.append_to(to)
        }
        Fault::Changed { identity, was, is } => {
            to.push_str("\nchanged ")?;
            identity.append_to(to)?;
            to.push_all(&[" from ", was.as_str(), " to ", is.as_str()])
        }
    }
}

fn append_faults(faults: &[Fault], to: &mut Text) -> Result<(), NoMemory> {
    for fault in faults {
        append_fault(fault, to)?;
    }
    Ok(())
}

fn turn_name(what: What) -> &'static str {
    match what {
        What::New => " new",
        What::Again => " again",
        What::Fill => " fill",
    }
}

// `PLACE TURN` of each.
fn append_items(items: &[Item], to: &mut Text) -> Result<(), NoMemory> {
    for item in items {
        to.push_str("\n")?;
        append_whole(item.index as i128, to)?;
        to.push_str(turn_name(item.what))?;
    }
    Ok(())
}

// `pending IDENTITY` of each.
fn append_pending(identities: &[Identity], to: &mut Text) -> Result<(), NoMemory> {
    for identity in identities {
        to.push_str("\npending ")?;
        identity.append_to(to)?;
    }
    Ok(())
}

fn plan(
    rt: &impl Abort,
    alloc: Global,
    options: &Options,
    changelog: &Changelog,
    rows: &[Tracked],
) -> Text {
    let faults = faults_of(alloc, options, changelog, rows).expect(rt, "memory");
    let items = work_of(alloc, options, changelog, rows).expect(rt, "memory");
    let pending = pending_of(alloc, options, changelog, rows).expect(rt, "memory");
    let mut told = Text::new(alloc, "").expect(rt, "memory");
    append_faults(faults.as_slice(), &mut told).expect(rt, "memory");
    append_items(items.as_slice(), &mut told).expect(rt, "memory");
    append_pending(pending.as_slice(), &mut told).expect(rt, "memory");
    told
}

fn planned<P: SqlText>(
    rt: &impl Abort,
    alloc: Global,
    dialect: Dialect,
    sql: &P,
    filters: (&str, &str),
    case: &Case<'_>,
) -> Text
    requires { P.dialect ≡ dialect }
{
    let changelog = changelog(rt, alloc, dialect, sql, case.sets);
    let options = options(rt, alloc, dialect, filters.0, filters.1);
    let rows = rows(rt, alloc, case.rows);
    plan(rt, alloc, &options, &changelog, rows.as_slice())
}

/// What is wrong with each changelog on its rows, `PLACE TURN` of each changeset that has a turn, and
/// which are pending, for a command with a filter by context and one by label, which may be empty.
pub fn plan_all<P: SqlText>(
    rt: &impl Abort,
    alloc: Global,
    dialect: Dialect,
    sql: &P,
    filters: (&str, &str),
    cases: &[Case<'_>],
)
    requires { P.dialect ≡ dialect }
{
    for case in cases {
        let told = planned(rt, alloc, dialect, sql, filters, case);
        assert_eq!(rt; told.as_str(), case.wanted);
    }
}

fn append_ways(ways: &[TakenBack], to: &mut Text) -> Result<(), NoMemory> {
    for way in ways {
        match way {
            TakenBack::Alone => to.push_str("\nalone")?,
            TakenBack::By(place) => {
                to.push_str("\nby ")?;
                append_whole(*place as i128, to)?;
            }
        }
    }
    Ok(())
}

fn append_refusal(fault: &ReverseFault, to: &mut Text) -> Result<(), NoMemory> {
    match fault {
        ReverseFault::Not(identity) => {
            to.push_str("\nnot ")?;
            identity.append_to(to)
        }
        ReverseFault::OutOfMemory => Err(NoMemory),
    }
}

fn append_reversed(
    reversed: Result<Items<TakenBack>, ReverseFault>,
    to: &mut Text,
) -> Result<(), NoMemory> {
    match reversed {
        Ok(ways) => append_ways(ways.as_slice(), to),
        Err(fault) => append_refusal(&fault, to),
    }
}

fn reversed<P: SqlText>(
    rt: &impl Abort,
    alloc: Global,
    dialect: Dialect,
    sql: &P,
    case: &Case<'_>,
) -> Text
    requires { P.dialect ≡ dialect }
{
    let changelog = changelog(rt, alloc, dialect, sql, case.sets);
    let rows = rows(rt, alloc, case.rows);
    let reversed = reversible(alloc, &changelog, rows.as_slice());
    let mut told = Text::new(alloc, "").expect(rt, "memory");
    append_reversed(reversed, &mut told).expect(rt, "memory");
    told
}

/// How the rows are taken back, the last first: `alone` or `by PLACE`; or `not IDENTITY`.
pub fn reverse_all<P: SqlText>(
    rt: &impl Abort,
    alloc: Global,
    dialect: Dialect,
    sql: &P,
    cases: &[Case<'_>],
)
    requires { P.dialect ≡ dialect }
{
    for case in cases {
        let told = reversed(rt, alloc, dialect, sql, case);
        assert_eq!(rt; told.as_str(), case.wanted);
    }
}

fn append_selected(sets: &[ChangeSet], options: &Options, to: &mut Text) -> Result<(), NoMemory> {
    for set in sets {
        if is_selected(set, options) {
            to.push_all(&[" ", set.identity.id.as_str()])?;
        }
    }
    Ok(())
}

fn selected<P: SqlText>(
    rt: &impl Abort,
    alloc: Global,
    dialect: Dialect,
    sql: &P,
    sets: &str,
    filters: (&str, &str),
) -> Text
    requires { P.dialect ≡ dialect }
{
    let changelog = changelog(rt, alloc, dialect, sql, sets);
    let options = options(rt, alloc, dialect, filters.0, filters.1);
    let mut told = Text::new(alloc, "").expect(rt, "memory");
    append_selected(changelog.sets.as_slice(), &options, &mut told).expect(rt, "memory");
    told
}

/// The ids of those of the changesets that are selected, each behind a blank, by a filter by context
/// and one by label, in each case.
pub fn select_all<P: SqlText>(
    rt: &impl Abort,
    alloc: Global,
    dialect: Dialect,
    sql: &P,
    sets: &str,
    cases: &[((&str, &str), &str)],
)
    requires { P.dialect ≡ dialect }
{
    for (filters, wanted) in cases {
        let told = selected(rt, alloc, dialect, sql, sets, *filters);
        assert_eq!(rt; told.as_str(), *wanted);
    }
}
