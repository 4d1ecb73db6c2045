ghost use Rattle.std.specs.List.{All};
ghost use Rattle.std.specs.Option.{option_copied};
ghost use Rattle.std.specs.Prelude.{◌≡◌, ◌≤◌, Bool, Err, IsTrue, None, option_map};
ghost use Rattle.lq_base.specs.declared.command.Command.TheVariants as command;
ghost use Rattle.lq_base.specs.declared.tracking.Lock.{Lock};
ghost use Rattle.lq_beside.specs.Replays.{HasTexts};
ghost use Rattle.lq_changelog.specs.Gathers.{HasShortTexts};
ghost use Rattle.lq_playing.specs.Answers.{answer_of, came};
ghost use Rattle.lq_playing.specs.Under.{IsPlain};
ghost use Rattle.lq_drill.specs.Player.{LeavesAll};
ghost use Rattle.lq_players.specs.AnyCommand.{IsUnstarted, Starts, command_stands};
ghost use Rattle.lq_players.specs.AtOnce.{HasShortTag, command_of};
ghost use Rattle.lq_players.specs.Tasks.{task_for, work_of};
ghost use Rattle.lq_drill.specs.declared.fault.DrillFault.TheVariants as drill;
ghost use Rattle.lq_kinds.specs.ReadFor.{AreFor};
ghost use Rattle.lq_outside.specs.Forms.{Rose};
ghost use Rattle.lq_playing.specs.Playing.{Took};
ghost use Rattle.lq_run.specs.Stands.{IsHeld};
ghost use Rattle.lq_seen.specs.View.{view_log};
ghost use Rattle.lq_store.specs.Journal.{is_open};

use crate::at_once::{AtOnce, OneStep};
use crate::rolling_back::RollingBack;
use crate::syncing::Syncing;
use crate::updating::Updating;
use lq_base::{Command, Dialect, Target};
use lq_drill::{DrillFault, Player};
use lq_expr::Options;
use lq_kinds::Changelog;
use lq_model::SqlText;
use lq_playing::{Came, Playing, Report};
use lq_store::Store;
use lq_turns::{Answer, Stamp};
use std::alloc::Global;

/// A command of any kind, as a player.
#[derive(Drop)]
pub enum AnyCommand {
    /// It ends with its first step.
    AtOnce(Playing<AtOnce>),
    Update(Playing<Updating>),
    Rollback(Playing<RollingBack>),
    Sync(Playing<Syncing>),
}

impl AnyCommand {
    /// A command that has made no step, for statements of this dialect. Its lock carries the stamp. The
    /// changelog was loaded for the dialect of the options; a tag has at most 255 characters. Where
    /// `prints`, it keeps the texts of the statements that it runs.
    pub fn new(
        alloc: Global,
        dialect: Dialect,
        stamp: Stamp,
        command: Command,
        changelog: Changelog,
        options: Options,
        prints: bool,
    ) -> AnyCommand
        requires moment { stamp.reading ≤ 253402300799999 }
        requires plain { IsPlain stamp }
        requires options { options.dialect ≡ dialect }
        requires read { AreFor options.dialect changelog }
        requires short { All HasShortTexts changelog.sets }
        requires tag { HasShortTag command }
        ensures unstarted { IsUnstarted dialect result }
        ensures job { (command_stands result).job
            ≡ work_of prints dialect (task_for command options changelog stamp) }
        ensures owns { (lock : Lock) → (command_stands result).owns lock → IsHeld stamp lock }
    {
        start(alloc, dialect, stamp, command, changelog, options, prints)
    }

    /// What it has answered, if it has.
    pub fn answer(&self) -> Option<&Answer>
        ensures { option_copied result ≡ option_map answer_of (command_stands self.now).answer }
    {
        match self {
            AnyCommand::AtOnce(player) => player.answer.as_ref(),
            AnyCommand::Update(player) => player.answer.as_ref(),
            AnyCommand::Rollback(player) => player.answer.as_ref(),
            AnyCommand::Sync(player) => player.answer.as_ref(),
        }
    }

    /// Its answer, if it has answered, and what it did, as far as it came.
    pub fn into_parts(self) -> (Option<Answer>, Report)
        ensures { option_map (came result.1) result.0 ≡ (command_stands self).answer }
    {
        match self {
            AnyCommand::AtOnce(player) => player.into_parts(),
            AnyCommand::Update(player) => player.into_parts(),
            AnyCommand::Rollback(player) => player.into_parts(),
            AnyCommand::Sync(player) => player.into_parts(),
        }
    }

    fn play<S: Store, P: SqlText>(
        &mut self,
        session: u32,
        store: &mut S,
        sql: &P,
    ) -> Result<(), DrillFault>
        requires valid { S.valid store.old }
        requires live { IsTrue (S.state store.old).live }
        requires sql { P.dialect ≡ (command_stands self.old).dialect }
        requires ready { (command_stands self.old).ready }
        requires opens { is_open session (S.state store.old).begun
            ≡ (command_stands self.old).opens }
        requires going { (command_stands self.old).answer ≡ None }
        ensures valid { S.valid store.new }
        ensures took { Took session (command_stands self.old) (command_stands self.new)
            (S.state store.old) (S.state store.new) (S.crashes store.old) (S.crashes store.new)
            result }
        ensures idle { LeavesAll (command_stands self.old) (S.state store.old) store.old store.new }
        ensures later { S.faults store.old ≤ S.faults store.new }
        ensures rose { result ≡ Err drill.Disk
            → Rose (S.faults store.old) (S.faults store.new) }
    {
        match self {
            AnyCommand::AtOnce(player) => player.step(session, store, sql),
            AnyCommand::Update(player) => player.step(session, store, sql),
            AnyCommand::Rollback(player) => player.step(session, store, sql),
            AnyCommand::Sync(player) => player.step(session, store, sql),
        }
    }
}

fn start(
    alloc: Global,
    dialect: Dialect,
    stamp: Stamp,
    command: Command,
    changelog: Changelog,
    options: Options,
    prints: bool,
) -> AnyCommand
    requires moment { stamp.reading ≤ 253402300799999 }
    requires plain { IsPlain stamp }
    requires options { options.dialect ≡ dialect }
    requires read { AreFor options.dialect changelog }
    requires short { All HasShortTexts changelog.sets }
    requires tag { HasShortTag command }
    ensures { Starts prints dialect (task_for command options changelog stamp) result }
{
    match command {
        Command::Validate => at_once(alloc, dialect, stamp, OneStep::Validate, changelog, options),
        Command::Status => at_once(alloc, dialect, stamp, OneStep::Status, changelog, options),
        Command::Tag(tag) => at_once(alloc, dialect, stamp, OneStep::Tag(tag), changelog, options),
        Command::Release => at_once(alloc, dialect, stamp, OneStep::Release, changelog, options),
        Command::Update => update(alloc, dialect, stamp, changelog, options, prints),
        Command::Rollback(target) => rollback(
            alloc, dialect, stamp, target, changelog, options, prints,
        ),
        Command::Sync => sync(alloc, dialect, stamp, changelog, options),
    }
}

fn at_once(
    alloc: Global,
    dialect: Dialect,
    stamp: Stamp,
    command: OneStep,
    changelog: Changelog,
    options: Options,
) -> AnyCommand
    requires moment { stamp.reading ≤ 253402300799999 }
    requires plain { IsPlain stamp }
    requires tag { HasShortTag (command_of command) }
    ensures { (prints : Bool)
        → Starts prints dialect (task_for (command_of command) options changelog stamp) result }
{
    let report = Report::new(alloc);
    let once = AtOnce {
        command,
        changelog,
        options,
        report,
    };
    AnyCommand::AtOnce(Playing::new(alloc, dialect, stamp, once))
}

fn update(
    alloc: Global,
    dialect: Dialect,
    stamp: Stamp,
    changelog: Changelog,
    options: Options,
    prints: bool,
) -> AnyCommand
    requires moment { stamp.reading ≤ 253402300799999 }
    requires plain { IsPlain stamp }
    requires options { options.dialect ≡ dialect }
    requires read { AreFor options.dialect changelog }
    requires texts { All HasTexts (view_log options changelog).sets }
    ensures { Starts prints dialect (task_for command.Update options changelog stamp) result }
{
    let updating = Updating::new(alloc, changelog, options, prints);
    AnyCommand::Update(Playing::new(alloc, dialect, stamp, updating))
}

fn rollback(
    alloc: Global,
    dialect: Dialect,
    stamp: Stamp,
    target: Target,
    changelog: Changelog,
    options: Options,
    prints: bool,
) -> AnyCommand
    requires moment { stamp.reading ≤ 253402300799999 }
    requires plain { IsPlain stamp }
    requires options { options.dialect ≡ dialect }
    requires read { AreFor options.dialect changelog }
    ensures { Starts prints dialect (task_for (command.Rollback target) options changelog stamp)
        result }
{
    let rolling = RollingBack::new(alloc, changelog, options, target, prints);
    AnyCommand::Rollback(Playing::new(alloc, dialect, stamp, rolling))
}

fn sync(
    alloc: Global,
    dialect: Dialect,
    stamp: Stamp,
    changelog: Changelog,
    options: Options,
) -> AnyCommand
    requires moment { stamp.reading ≤ 253402300799999 }
    requires plain { IsPlain stamp }
    requires texts { All HasTexts (view_log options changelog).sets }
    ensures { (prints : Bool)
        → Starts prints dialect (task_for command.Sync options changelog stamp) result }
{
    let syncing = Syncing::new(alloc, changelog, options);
    AnyCommand::Sync(Playing::new(alloc, dialect, stamp, syncing))
}

impl Player for AnyCommand {
    ghost use Rattle.lq_changelog.specs.Gathers.{HasShortTexts};
    ghost use Rattle.lq_players.specs.AnyCommand.{command_locked, command_owed, command_stands};
    ghost use Rattle.lq_playing.specs.Answers.{as_busy, as_failed, as_locked};

    type Answer = Came;

    ghost locked = { as_locked };

    ghost busy = { as_busy };

    ghost failed = { as_failed };

    ghost standing = { command_stands };

    ghost held = { command_locked };

    ghost owed = { command_owed };

    fn has_answered(&self) -> bool {
        match self {
            AnyCommand::AtOnce(player) => player.has_answered(),
            AnyCommand::Update(player) => player.has_answered(),
            AnyCommand::Rollback(player) => player.has_answered(),
            AnyCommand::Sync(player) => player.has_answered(),
        }
    }

    fn step<S: Store, P: SqlText>(
        &mut self,
        session: u32,
        store: &mut S,
        sql: &P,
    ) -> Result<(), DrillFault> {
        self.play(session, store, sql)
    }
}
