ghost use Rattle.std.specs.Prelude.{◌≡◌, map};
ghost use Rattle.lq_cli.specs.Table.{filtered, form_of, takes};

use crate::verb::Verb;

/// The options that a command takes, by their names.
#[derive(Clone, Copy)]
pub struct Form {
    /// Those that have to be given.
    pub required: &'static [&'static str],
    /// Those that may be given.
    pub optional: &'static [&'static str],
    /// Whether `-Dname=value` may be given.
    pub defines: bool,
}

impl Form {
    /// The options that a command takes.
    pub fn of(verb: Verb) -> Form
        ensures { takes (map (λ w. w.now) result.required.now)
            (map (λ w. w.now) result.optional.now) result.defines
            ≡ form_of verb }
    {
        match verb {
            Verb::Validate | Verb::UndoUnrecorded => {
                Form::new(&["url", "changelog-file"], &[], true)
            }
            Verb::Status
            | Verb::Update
            | Verb::UpdateSql
            | Verb::UpdateTestingRollback
            | Verb::ChangelogSync => Form::filtered_to(&["url", "changelog-file"]),
            Verb::UpdateCount => Form::filtered_to(&["url", "changelog-file", "count"]),
            Verb::UpdateToTag => Form::filtered_to(&["url", "changelog-file", "tag"]),
            Verb::Rollback => Form::new(&["url", "changelog-file", "tag"], &[], true),
            Verb::RollbackCount => Form::new(&["url", "changelog-file", "count"], &[], true),
            Verb::RollbackToDate => Form::new(&["url", "changelog-file", "date"], &[], true),
            Verb::RollbackSql => Form::new(
                &["url", "changelog-file"],
                &["tag", "count", "date"],
                true,
            ),
            Verb::Tag => Form::new(&["url", "tag"], &[], false),
            Verb::ClearChecksums => Form::new(&["url"], &[], false),
            Verb::ReleaseLocks | Verb::History => Form::new(&["url"], &[], false),
            Verb::Snapshot => Form::new(&["url"], &[], false),
            Verb::GenerateChangelog => Form::new(&["url", "author"], &[], false),
            Verb::Drill => Form::new(&["url", "runs"], &[], false),
            Verb::Soak => Form::new(&["url", "number", "sets"], &[], false),
        }
    }

    fn filtered_to(required: &'static [&'static str]) -> Form
        ensures { takes (map (λ w. w.now) result.required.now)
            (map (λ w. w.now) result.optional.now) result.defines
            ≡ filtered (map (λ w. w.now) required.entry.now) }
    {
        Form::new(required, &["context-filter", "label-filter"], true)
    }

    fn new(
        required: &'static [&'static str],
        optional: &'static [&'static str],
        defines: bool,
    ) -> Form
        ensures required { result.required ≡ required.entry }
        ensures optional { result.optional ≡ optional.entry }
        ensures defines { result.defines ≡ defines }
    {
        Form {
            required,
            optional,
            defines,
        }
    }
}
