ghost use Rattle.std.specs.Prelude.{◌≡◌, option_and_then, option_map};
ghost use Rattle.lq_cli.specs.Job.{Gives};
ghost use Rattle.lq_cli.specs.Line.{by_count, counting, drilling, generating, going, job_of, only_target, rollback, soak, tagging, to_date, to_tag};
ghost use Rattle.lq_cli.specs.Options.{value, number_from, tag_of};
ghost use Rattle.lq_cli.specs.Table.{author, count, date, number, sets, tag};

use crate::chosen::Chosen;
use crate::fault::WordsFault;
use crate::line::Job;
use crate::target::{by_count, only_target, to_date, to_tag};
use crate::values::{number_from, tag_of};
use crate::verb::Verb;
use lq_base::{Command, Text};
use std::alloc::Global;

/// What a command is to do.
#[tactic(auto, unfolding(crate::specs::Line::job_of))]
pub fn job_of(alloc: Global, verb: Verb, given: &Chosen) -> Result<Job, WordsFault>
    ensures { Gives (job_of verb given.now) result }
{
    match verb {
        Verb::Validate => Ok(Job::Run(Command::Validate)),
        Verb::Status => Ok(Job::Run(Command::Status)),
        Verb::Update => Ok(Job::Run(Command::Update)),
        Verb::UpdateSql => Ok(Job::UpdateSql),
        Verb::UpdateCount => counting(given),
        Verb::UpdateToTag => going(alloc, given),
        Verb::UpdateTestingRollback => Ok(Job::UpdateTestingRollback),
        Verb::ChangelogSync => Ok(Job::Run(Command::Sync)),
        Verb::Rollback => rollback_to_tag(alloc, given),
        Verb::RollbackCount => rollback_by_count(given),
        Verb::RollbackToDate => rollback_to_date(given),
        Verb::RollbackSql => rollback_sql(alloc, given),
        Verb::Tag => tagging(alloc, given),
        Verb::ClearChecksums => Ok(Job::ClearSums),
        Verb::ReleaseLocks => Ok(Job::Run(Command::Release)),
        Verb::UndoUnrecorded => Ok(Job::UndoUnrecorded),
        Verb::Snapshot => Ok(Job::Snapshot),
        Verb::History => Ok(Job::History),
        Verb::GenerateChangelog => generating(alloc, given),
        Verb::Drill => drilling(alloc, given),
        Verb::Soak => soak(given),
    }
}

fn rollback_to_tag(alloc: Global, given: &Chosen) -> Result<Job, WordsFault>
    ensures { Gives (rollback (option_and_then to_tag (value given.now tag))) result }
{
    match given.value("tag") {
        Some(text) => Ok(Job::Run(Command::Rollback(to_tag(alloc, text)?))),
        None => Err(WordsFault::Usage),
    }
}

fn rollback_by_count(given: &Chosen) -> Result<Job, WordsFault>
    ensures { Gives (rollback (option_and_then by_count (value given.now count))) result }
{
    match given.value("count") {
        Some(text) => Ok(Job::Run(Command::Rollback(by_count(text)?))),
        None => Err(WordsFault::Usage),
    }
}

fn rollback_to_date(given: &Chosen) -> Result<Job, WordsFault>
    ensures { Gives (rollback (option_and_then to_date (value given.now date))) result }
{
    match given.value("date") {
        Some(text) => Ok(Job::Run(Command::Rollback(to_date(text)?))),
        None => Err(WordsFault::Usage),
    }
}

fn rollback_sql(alloc: Global, given: &Chosen) -> Result<Job, WordsFault>
    ensures { Gives (option_map (λ target. Job.RollbackSql target) (only_target given.now))
        result }
{
    Ok(Job::RollbackSql(only_target(alloc, given)?))
}

#[tactic(auto, unfolding(crate::specs::Line::counting))]
fn counting(given: &Chosen) -> Result<Job, WordsFault>
    ensures { Gives (counting given.now) result }
{
    match count_in(given) {
        Some(count) => Ok(Job::UpdateCount(count)),
        None => Err(WordsFault::Usage),
    }
}

fn count_in(given: &Chosen) -> Option<u64>
    ensures { result ≡ option_and_then (number_from 0 4294967295) (value given.now count) }
{
    number_from(0, 4_294_967_295, given.value("count")?)
}

#[tactic(auto, unfolding(crate::specs::Line::going))]
fn going(alloc: Global, given: &Chosen) -> Result<Job, WordsFault>
    ensures { Gives (going given.now) result }
{
    match tag_in(given) {
        Some(tag) => Ok(Job::UpdateTo(Text::new(alloc, tag)?)),
        None => Err(WordsFault::Usage),
    }
}

#[tactic(auto, unfolding(crate::specs::Line::tagging))]
fn tagging(alloc: Global, given: &Chosen) -> Result<Job, WordsFault>
    ensures { Gives (tagging given.now) result }
{
    match tag_in(given) {
        Some(tag) => Ok(Job::Run(Command::Tag(Text::new(alloc, tag)?))),
        None => Err(WordsFault::Usage),
    }
}

fn tag_in<'a>(given: &Chosen<'a>) -> Option<&'a str>
    ensures { option_map (λ t. t.now) result ≡ option_and_then tag_of (value given.now tag) }
{
    tag_of(given.value("tag")?)
}

#[tactic(auto, unfolding(crate::specs::Line::generating))]
fn generating(alloc: Global, given: &Chosen) -> Result<Job, WordsFault>
    ensures { Gives (generating given.now) result }
{
    match author_in(given) {
        Some(author) => Ok(Job::Generate(Text::new(alloc, author)?)),
        None => Err(WordsFault::Usage),
    }
}

fn author_in<'a>(given: &Chosen<'a>) -> Option<&'a str>
    ensures { option_map (λ t. t.now) result ≡ option_and_then tag_of (value given.now author) }
{
    tag_of(given.value("author")?)
}

#[tactic(auto, unfolding(crate::specs::Line::drilling))]
fn drilling(alloc: Global, given: &Chosen) -> Result<Job, WordsFault>
    ensures { Gives (drilling given.now) result }
{
    match given.value("runs") {
        Some(path) => Ok(Job::Drill(Text::new(alloc, path)?)),
        None => Err(WordsFault::Usage),
    }
}

#[tactic(auto, unfolding(crate::specs::Line::soak))]
fn soak(given: &Chosen) -> Result<Job, WordsFault>
    ensures { Gives (soak given.now) result }
{
    match (number_in(given), sets_in(given)) {
        (Some(number), Some(sets)) => Ok(Job::Soak { number, sets }),
        _ => Err(WordsFault::Usage),
    }
}

fn number_in(given: &Chosen) -> Option<u64>
    ensures { result
        ≡ option_and_then (number_from 0 18446744073709551615) (value given.now number) }
{
    number_from(0, u64::MAX, given.value("number")?)
}

fn sets_in(given: &Chosen) -> Option<u64>
    ensures { result ≡ option_and_then (number_from 1 10000) (value given.now sets) }
{
    number_from(1, 10_000, given.value("sets")?)
}
