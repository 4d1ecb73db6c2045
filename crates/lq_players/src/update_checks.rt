ghost use Rattle.std.specs.Prelude.{◌≡◌, [], Err, IfErr, IfOk, false};
ghost use Rattle.lq_kinds.specs.ReadFor.{AreFor};
ghost use Rattle.lq_players.specs.Reports.{own_warned, warned_by};
ghost use Rattle.lq_players.specs.RollingBack.{IsRefusal, Refuses};
ghost use Rattle.lq_players.specs.Tasks.{if_halts, own_halt};
ghost use Rattle.lq_players.specs.Updating.{ArePlaced, HasPlanned, IsAskedFor, IsOwn, IsPlanFor, Plans, PlansOn, log_of, update_refusal, warning, with_warned};
ghost use Rattle.lq_players.specs.declared.update_checks.Planned.TheVariants as planned;
ghost use Rattle.lq_playing.specs.declared.checks.Verdict.TheVariants.{Lack};
ghost use Rattle.lq_track.specs.Database.{Database};
ghost use Rattle.lq_turns.specs.Faults.{faults};
ghost use Rattle.lq_turns.specs.Schedule.{StandsFor};
ghost use Rattle.lq_turns.specs.Settle.{is_halt};

use crate::in_tables::rows_in;
use crate::row_checks::check_faults;
use crate::row_order::are_apart;
use lq_base::{Dialect, Identity, Items, NoMemory, Tracked, Why};
use lq_expr::Options;
use lq_kinds::Changelog;
use lq_model::Look;
use lq_plan::greatest;
use lq_playing::{Report, Verdict};
use lq_sets::{SetTurns, own_choice, work_of};
use lq_turns::{Answer, Choice};
use std::alloc::Global;

/// A place in run order has 31 bits.
const LAST_PLACE: u32 = 2147483647;

/// What an update is asked for.
#[derive(Drop)]
pub struct Asked {
    pub changelog: Changelog,
    pub options: Options,
    /// Whether the statements' texts are wanted.
    pub prints: bool,
}

/// What the checks of an update come to that passes them.
#[derive(Drop)]
pub enum Planned {
    /// It has these turns.
    Turns(SetTurns),
    /// It has none, and has done this.
    Idle(Report),
}

/// What an update does on what is seen, or its answer where it does not pass its checks.
pub fn plan<K: Look>(
    alloc: Global,
    asked: Asked,
    dialect: Dialect,
    look: &K,
) -> Result<Planned, Verdict>
    requires asked { IsAskedFor asked dialect }
    ensures reads { IfOk result (IsPlanFor dialect) }
    ensures plans { Plans dialect asked (K.catalogue look.now) result }
    ensures refusal { IfErr result IsRefusal }
{
    match rows_in(alloc, dialect, look) {
        Ok(rows) => plan_on(alloc, asked, dialect, look, rows.as_slice()),
        Err(_) => Err(Verdict::Lack),
    }
}

// On these rows.
fn plan_on<K: Look>(
    alloc: Global,
    asked: Asked,
    dialect: Dialect,
    look: &K,
    rows: &[Tracked],
) -> Result<Planned, Verdict>
    requires asked { IsAskedFor asked dialect }
    requires rows { (database : Database)
        → StandsFor dialect (K.catalogue look.now) database
        → database.rows ≡ rows.now }
    ensures reads { IfOk result (IsPlanFor dialect) }
    ensures plans { Plans dialect asked (K.catalogue look.now) result }
    ensures refusal { IfErr result IsRefusal }
{
    let own = check_changelog(alloc, &asked, dialect, look, rows)?;
    plan_turns(alloc, asked, rows, own)
}

// The changelog goes with the rows, and its own precondition does not halt.
fn check_changelog<K: Look>(
    alloc: Global,
    asked: &Asked,
    dialect: Dialect,
    look: &K,
    rows: &[Tracked],
) -> Result<Choice, Verdict>
    requires dialect { asked.now.options.dialect ≡ dialect }
    ensures faultless { IfOk result (λ own. faults (log_of asked.now).sets rows.now ≡ []) }
    ensures own { (database : Database)
        → StandsFor dialect (K.catalogue look.now) database
        → database.rows ≡ rows.now
        → IfOk result (IsOwn asked.now database) }
    ensures refuses { (database : Database)
        → StandsFor dialect (K.catalogue look.now) database
        → database.rows ≡ rows.now
        → IfErr result (Refuses (update_refusal asked.now database)) }
    ensures refusal { IfErr result IsRefusal }
{
    check_faults(alloc, &asked.options, &asked.changelog, rows)?;
    check_own(alloc, asked, dialect, look, rows)
}

fn check_own<K: Look>(
    alloc: Global,
    asked: &Asked,
    dialect: Dialect,
    look: &K,
    rows: &[Tracked],
) -> Result<Choice, Verdict>
    requires dialect { asked.now.options.dialect ≡ dialect }
    ensures own { (database : Database)
        → StandsFor dialect (K.catalogue look.now) database
        → database.rows ≡ rows.now
        → IfOk result (IsOwn asked.now database) }
    ensures refuses { (database : Database)
        → StandsFor dialect (K.catalogue look.now) database
        → database.rows ≡ rows.now
        → IfErr result (Refuses (own_halt (log_of asked.now) database)) }
    ensures refusal { IfErr result IsRefusal }
{
    match own_choice(alloc, &asked.changelog, dialect, look, rows) {
        Ok(own) => goes_on(own),
        Err(_) => Err(Verdict::Lack),
    }
}

fn goes_on(own: Choice) -> Result<Choice, Verdict>
    ensures same { IfOk result (λ it. (it ≡ own) × (is_halt own ≡ false)) }
    ensures told { result ≡ Err Lack → ⊥ }
    ensures refuses { IfErr result (Refuses (if_halts own)) }
    ensures refusal { IfErr result IsRefusal }
{
    match own {
        Choice::Halts(why) => Err(Verdict::Answer(Answer::Halted {
            identity: None,
            why,
        })),
        Choice::Passes => Ok(own),
        Choice::Fills => Ok(own),
        Choice::Skips => Ok(own),
        Choice::Marks(_) => Ok(own),
        Choice::Runs(_, _) => Ok(own),
    }
}

// Its turns on these rows, where it has any. The changelog's own precondition came to this.
fn plan_turns(
    alloc: Global,
    asked: Asked,
    rows: &[Tracked],
    own: Choice,
) -> Result<Planned, Verdict>
    requires read { AreFor asked.options.dialect asked.changelog }
    requires faultless { faults (log_of asked).sets rows.now ≡ [] }
    ensures reads { IfOk result (IsPlanFor asked.options.dialect) }
    ensures plans { IfOk result (PlansOn asked rows.now own) }
    ensures lack { IfErr result (λ v. v ≡ Lack) }
{
    let Ok(work) = work_of(alloc, &asked.options, &asked.changelog, rows) else {
        return Err(Verdict::Lack);
    };
    if work.is_empty() {
        return idle(alloc, own);
    }
    check_places(alloc, rows)?;
    turns_of(alloc, asked, rows, own)
}

// An update without a turn is done.
fn idle(alloc: Global, own: Choice) -> Result<Planned, Verdict>
    ensures planned { IfOk result (λ p. p ≡ planned.Idle (warning (own_warned own))) }
    ensures lack { IfErr result (λ v. v ≡ Lack) }
{
    let Ok(warned) = own_warned(alloc, own) else {
        return Err(Verdict::Lack);
    };
    let mut report = Report::new(alloc);
    report.warned = warned;
    Ok(Planned::Idle(report))
}

// The turns of the changelog on these rows. They warn first of its own precondition.
fn turns_of(alloc: Global, asked: Asked, rows: &[Tracked], own: Choice) -> Result<Planned, Verdict>
    requires read { AreFor asked.options.dialect asked.changelog }
    requires faultless { faults (log_of asked).sets rows.now ≡ [] }
    ensures reads { IfOk result (IsPlanFor asked.options.dialect) }
    ensures turns { IfOk result (HasPlanned asked rows.now own) }
    ensures lack { IfErr result (λ v. v ≡ Lack) }
{
    let Ok(warned) = own_warned(alloc, own) else {
        return Err(Verdict::Lack);
    };
    let Asked {
        changelog,
        options,
        prints,
    } = asked;
    match SetTurns::new(alloc, changelog, options, rows, prints) {
        Ok(source) => Ok(Planned::Turns(warns(source, warned))),
        Err(_) => Err(Verdict::Lack),
    }
}

// They warn so first.
fn warns(source: SetTurns, warned: Items<(Option<Identity>, Why)>) -> SetTurns
    ensures { result ≡ with_warned warned source }
{
    let mut source = source;
    source.outcome.warned = warned;
    source
}

// The warning of the changelog's own precondition.
fn own_warned(alloc: Global, own: Choice) -> Result<Items<(Option<Identity>, Why)>, NoMemory>
    ensures { IfOk result (λ warned. warned ≡ own_warned own) }
{
    match own {
        Choice::Runs(_, why) => warned_by(alloc, why),
        Choice::Passes => Ok(Items::new(alloc)),
        Choice::Fills => Ok(Items::new(alloc)),
        Choice::Skips => Ok(Items::new(alloc)),
        Choice::Marks(_) => Ok(Items::new(alloc)),
        Choice::Halts(_) => Ok(Items::new(alloc)),
    }
}

fn warned_by(alloc: Global, why: Option<Why>) -> Result<Items<(Option<Identity>, Why)>, NoMemory>
    ensures { IfOk result (λ warned. warned ≡ warned_by why) }
{
    let mut warned = Items::new(alloc);
    match why {
        Some(why) => {
            warned.push((None, why))?;
            Ok(warned)
        }
        None => Ok(warned),
    }
}

// A database that is loaded has no two rows of one identity or place and no place of more than 31 bits,
// and no command leaves any. On another one nothing is done.
fn check_places(alloc: Global, rows: &[Tracked]) -> Result<(), Verdict>
    ensures placed { IfOk result (λ u. ArePlaced rows.now) }
    ensures lack { IfErr result (λ e. e ≡ Lack) }
{
    let Ok(apart) = are_apart(alloc, rows) else {
        return Err(Verdict::Lack);
    };
    if !apart {
        return Err(Verdict::Lack);
    }
    if greatest(rows) > LAST_PLACE {
        return Err(Verdict::Lack);
    }
    Ok(())
}
