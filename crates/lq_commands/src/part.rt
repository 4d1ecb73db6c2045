ghost use Rattle.std.specs.List.{All};
ghost use Rattle.std.specs.Prelude.{◌≡◌, ◌≤◌, Err, IfOk, false};
ghost use Rattle.lq_base.specs.declared.dialect.Dialect.{Dialect as Spoken};
ghost use Rattle.lq_changelog.specs.Gathers.{HasShortTexts};
ghost use Rattle.lq_cli.specs.declared.line.Job.TheVariants as job;
ghost use Rattle.lq_kinds.specs.ReadFor.{AreFor};
ghost use Rattle.lq_outside.specs.Forms.{Rose};
ghost use Rattle.lq_portion.specs.Portion.{counted};
ghost use Rattle.lq_tell.specs.declared.status.Status.TheVariants.{DiskFault};
ghost use Rattle.lq_commands.specs.Jobs.{DidJob};
ghost use Rattle.lq_commands.specs.Works.{IsReady};
ghost use Rattle.lq_turns.specs.Stops.{is_mark};

use crate::checks::rows_in;
use crate::given::Given;
use crate::update::update;
use lq_base::{NoMemory, Tracked};
use lq_expr::Options;
use lq_kinds::Changelog;
use lq_model::SqlText;
use lq_portion::counted;
use lq_sets::work_of;
use lq_shared::Shared;
use lq_store::Store;
use lq_tell::{Done, Status};
use std::alloc::Global;

/// Updates by the changesets up to and with the one with which so many run whose turn is new or again
/// on the rows as they stand, or by all (Liquibase's documentation, "update-count"). The rows are read
/// first, also under a held lock; the checks are those of an update of these changesets.
pub fn update_count<S: Store, P: SqlText>(
    alloc: Global,
    given: Given,
    count: u64,
    store: &mut S,
    sql: &P,
) -> Result<Done, Status>
    requires valid { S.valid store.old }
    requires ready { IsReady given.options.dialect (S.state store.old) }
    requires sql { P.dialect ≡ given.options.dialect }
    requires read { AreFor given.options.dialect given.changelog }
    requires short { All HasShortTexts given.changelog.sets }
    requires moment { given.stamp.reading ≤ 253402300799999 }
    requires name { is_mark given.stamp.who ≡ false }
    ensures valid { S.valid store.new }
    ensures did { DidJob S.state S.crashes (job.UpdateCount count) given store.old result
        store.new }
    ensures later { S.faults store.old ≤ S.faults store.new }
    ensures disk { result ≡ Err DiskFault → Rose (S.faults store.old) (S.faults store.new) }
{
    let rows = rows_in(alloc, given.options.dialect, store)?;
    let Given {
        changelog,
        options,
        stamp,
    } = given;
    let changelog = first_part(alloc, changelog, &options, count, rows.as_slice())?;
    let given = Given {
        changelog,
        options,
        stamp,
    };
    update(alloc, given, store, sql, false)
}

// The changesets up to and with the one with which so many run.
fn first_part(
    alloc: Global,
    changelog: Shared<Changelog>,
    options: &Options,
    count: u64,
    rows: &[Tracked],
) -> Result<Shared<Changelog>, NoMemory>
    ensures part { IfOk result (λ part. part ≡ counted count options.now changelog rows.now) }
    ensures read { (d : Spoken) → AreFor d changelog → IfOk result (AreFor d) }
    ensures short { All HasShortTexts changelog.sets
        → IfOk result (λ part. All HasShortTexts part.sets) }
{
    let whole = owned(changelog)?;
    let turns = work_of(alloc, options, &whole, rows)?;
    let part = counted(whole, count, turns.as_slice());
    let shared = Shared::new(alloc, part)?;
    Ok(shared)
}

// No other run has it.
fn owned(changelog: Shared<Changelog>) -> Result<Changelog, NoMemory>
    ensures { IfOk result (λ whole. whole ≡ changelog) }
{
    match changelog.into_inner() {
        Some(whole) => Ok(whole),
        None => Err(NoMemory),
    }
}
