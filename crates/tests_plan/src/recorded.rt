ghost use Rattle.std.specs.Prelude.{◌≡◌};

use crate::given::changelog;
use lq_base::{Dialect, Exec, NoMemory, Text, Tracked, append_whole};
use lq_kinds::ChangeSet;
use lq_model::SqlText;
use lq_seen::{recorded_row, row_of_turn};
use lq_turns::{OnRows, What};
use std::alloc::Global;
use std::process::Abort;

/// The turn of a changeset: what it is by its row, how it comes to its new one, the clock in
/// milliseconds, and the last place in run order.
#[derive(Clone, Copy)]
pub struct Turn {
    pub what: What,
    pub exec: Exec,
    pub reading: u64,
    pub last: u32,
}

fn append_number(number: i128, to: &mut Text) -> Result<(), NoMemory> {
    to.push_str("|")?;
    append_whole(number, to)
}

fn or_null(text: &Option<Text>) -> &str {
    match text {
        Some(text) => text.as_str(),
        None => "null",
    }
}

// All fields in the order of the columns, with `|` between.
fn append_row(row: &Tracked, to: &mut Text) -> Result<(), NoMemory> {
    let id = row.id.as_str();
    let author = row.author.as_str();
    to.push_all(&[id, "|", author, "|", row.filename.as_str()])?;
    append_number(i128::from(row.date), to)?;
    append_number(i128::from(row.order), to)?;
    to.push_all(&["|", row.exec.text(), "|"])?;
    let sum = or_null(&row.md5sum);
    to.push_all(&[
        sum,
        "|",
        row.description.as_str(),
        "|",
        row.comments.as_str(),
    ])?;
    let tag = or_null(&row.tag);
    to.push_all(&["|", tag, "|", row.tool.as_str(), "|", row.contexts.as_str()])?;
    to.push_all(&["|", row.labels.as_str(), "|", row.deployment.as_str()])
}

fn append_recorded(made: &OnRows, to: &mut Text) -> Result<(), NoMemory> {
    match made {
        OnRows::Inserted(row) => {
            to.push_str("inserted ")?;
            append_row(row, to)
        }
        OnRows::Renewed(row) => {
            to.push_str("renewed ")?;
            append_row(row, to)
        }
        _ => to.push_str("another deed"),
    }
}

fn made(rt: &impl Abort, alloc: Global, set: &ChangeSet, turn: Turn) -> OnRows {
    let Turn {
        what,
        exec,
        reading,
        last,
    } = turn;
    assert!(rt; reading <= 253402300799999);
    assert!(rt; last <= 2147483647);
    recorded_row(alloc, set, what, exec, reading, last).expect(rt, "memory")
}

fn recorded<P: SqlText>(
    rt: &impl Abort,
    alloc: Global,
    dialect: Dialect,
    sql: &P,
    json: &str,
    turn: Turn,
) -> Text
    requires { P.dialect ≡ dialect }
{
    let changelog = changelog(rt, alloc, dialect, sql, json);
    let [set] = changelog.sets.as_slice() else {
        panic!(rt; "one changeset");
    };
    let made = made(rt, alloc, set, turn);
    let mut told = Text::new(alloc, "").expect(rt, "memory");
    append_recorded(&made, &mut told).expect(rt, "memory");
    told
}

/// What becomes of the row of the one changeset of a JSON list at its turn: `inserted` or `renewed`,
/// and all fields of its row with `|` between.
pub fn record_all<P: SqlText>(
    rt: &impl Abort,
    alloc: Global,
    dialect: Dialect,
    sql: &P,
    cases: &[(&str, Turn, &str)],
)
    requires { P.dialect ≡ dialect }
{
    for (json, turn, wanted) in cases {
        let told = recorded(rt, alloc, dialect, sql, json, *turn);
        assert_eq!(rt; told.as_str(), *wanted);
    }
}

fn row_at(rt: &impl Abort, alloc: Global, set: &ChangeSet, order: u32) -> Tracked {
    row_of_turn(alloc, set, 1000, order, Exec::Executed).expect(rt, "memory")
}

fn written<P: SqlText>(
    rt: &impl Abort,
    alloc: Global,
    dialect: Dialect,
    sql: &P,
    json: &str,
    order: u32,
) -> Text
    requires { P.dialect ≡ dialect }
{
    let changelog = changelog(rt, alloc, dialect, sql, json);
    let [set] = changelog.sets.as_slice() else {
        panic!(rt; "one changeset");
    };
    let row = row_at(rt, alloc, set, order);
    let mut told = Text::new(alloc, "").expect(rt, "memory");
    append_row(&row, &mut told).expect(rt, "memory");
    told
}

/// The row of the one changeset of a JSON list that ran a second after 1970-01-01 UTC, at a place of
/// the run order: all its fields with `|` between.
pub fn write_all<P: SqlText>(
    rt: &impl Abort,
    alloc: Global,
    dialect: Dialect,
    sql: &P,
    cases: &[(&str, u32, &str)],
)
    requires { P.dialect ≡ dialect }
{
    for (json, order, wanted) in cases {
        let told = written(rt, alloc, dialect, sql, json, *order);
        assert_eq!(rt; told.as_str(), *wanted);
    }
}
