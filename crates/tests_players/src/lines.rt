ghost use Rattle.std.specs.Prelude.{◌≤◌};
ghost use Rattle.lq_base.specs.Number.{char_count};
ghost use Rattle.lq_players.specs.AtOnce.{HasShortTag};

use lq_base::{Command, Target, Text, char_count};
use std::alloc::Global;
use std::process::Abort;

fn bare(word: &str) -> Command
    ensures { HasShortTag result }
{
    match word {
        "validate" => Command::Validate,
        "status" => Command::Status,
        "changelog-sync" => Command::Sync,
        "release-locks" => Command::Release,
        _ => Command::Update,
    }
}

fn short_tag(rt: &impl Abort, alloc: Global, tag: &str) -> Text
    ensures { char_count result ≤ 255 }
{
    assert!(rt; char_count(tag) <= 255, "{tag} is long");
    Text::new(alloc, tag).expect(rt, "memory")
}

fn count(rt: &impl Abort, count: &str) -> Target {
    Target::Count(count.parse::<u32>().expect(rt, "a count"))
}

fn date(rt: &impl Abort, reading: &str) -> Target {
    Target::Date(reading.parse::<i64>().expect(rt, "a reading"))
}

fn with_value(rt: &impl Abort, alloc: Global, word: &str, value: &str) -> Command
    ensures { HasShortTag result }
{
    match word {
        "tag" => Command::Tag(short_tag(rt, alloc, value)),
        "rollback" => Command::Rollback(Target::Tag(short_tag(rt, alloc, value))),
        "rollback-count" => Command::Rollback(count(rt, value)),
        "rollback-to-date" => Command::Rollback(date(rt, value)),
        _ => Command::Update,
    }
}

/// The command of a line, as `update`, `tag v1` or `rollback-count 2`.
pub fn command(rt: &impl Abort, alloc: Global, line: &str) -> Command
    ensures { HasShortTag result }
{
    match line.split_once(' ') {
        Some((word, value)) => with_value(rt, alloc, word, value),
        None => bare(line),
    }
}
