ghost use Rattle.std.specs.Prelude.{◌≡◌};
ghost use Rattle.lq_words.specs.Words.{command_word, rollback_word};

use lq_base::{Command, Target};

fn rollback_word(target: &Target) -> &'static str
    ensures { result.now ≡ rollback_word target.now }
{
    match target {
        Target::Tag(_) => "rollback",
        Target::Count(_) => "rollback-count",
        Target::Date(_) => "rollback-to-date",
    }
}

/// The word by which a command is asked for.
pub fn command_word(command: &Command) -> &'static str
    ensures { result.now ≡ command_word command.now }
{
    match command {
        Command::Validate => "validate",
        Command::Status => "status",
        Command::Update => "update",
        Command::Tag(_) => "tag",
        Command::Rollback(target) => rollback_word(target),
        Command::Sync => "changelog-sync",
        Command::Release => "release-locks",
    }
}
