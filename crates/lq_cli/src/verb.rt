ghost use Rattle.std.specs.Prelude.{◌≡◌};
ghost use Rattle.lq_cli.specs.Table.{verb_of};

/// The command that a command line names by its first word.
#[derive(Clone, Copy, PartialEq, Eq)]
pub enum Verb {
    Validate,
    Status,
    Update,
    UpdateSql,
    UpdateCount,
    UpdateToTag,
    UpdateTestingRollback,
    ChangelogSync,
    Rollback,
    RollbackCount,
    RollbackToDate,
    RollbackSql,
    Tag,
    ClearChecksums,
    ReleaseLocks,
    UndoUnrecorded,
    Snapshot,
    History,
    GenerateChangelog,
    Drill,
    Soak,
}

impl Verb {
    /// The command of this name.
    #[tactic(auto, unfolding(crate::specs::Table::verb_of))]
    pub fn read(word: &str) -> Option<Verb>
        ensures { result ≡ verb_of word.now }
    {
        match word {
            "validate" => Some(Verb::Validate),
            "status" => Some(Verb::Status),
            "update" => Some(Verb::Update),
            "update-sql" => Some(Verb::UpdateSql),
            "update-count" => Some(Verb::UpdateCount),
            "update-to-tag" => Some(Verb::UpdateToTag),
            "update-testing-rollback" => Some(Verb::UpdateTestingRollback),
            "changelog-sync" => Some(Verb::ChangelogSync),
            "rollback" => Some(Verb::Rollback),
            "rollback-count" => Some(Verb::RollbackCount),
            "rollback-to-date" => Some(Verb::RollbackToDate),
            "rollback-sql" => Some(Verb::RollbackSql),
            "tag" => Some(Verb::Tag),
            "clear-checksums" => Some(Verb::ClearChecksums),
            "release-locks" => Some(Verb::ReleaseLocks),
            "undo-unrecorded" => Some(Verb::UndoUnrecorded),
            "snapshot" => Some(Verb::Snapshot),
            "history" => Some(Verb::History),
            "generate-changelog" => Some(Verb::GenerateChangelog),
            "drill" => Some(Verb::Drill),
            "soak" => Some(Verb::Soak),
            _ => None,
        }
    }
}
