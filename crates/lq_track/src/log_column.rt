ghost use Rattle.std.specs.Prelude.{◌≡◌, IfOk};
ghost use Rattle.lq_track.specs.Log.{log_column, log_name};

use crate::name::fixed_name;
use lq_base::{Kind, Name, NoMemory};
use lq_model::ColumnDef;
use std::alloc::Global;

/// A column of the table DATABASECHANGELOG.
#[derive(Clone, Copy, PartialEq, Eq)]
pub enum LogColumn {
    Id,
    Author,
    Filename,
    DateExecuted,
    OrderExecuted,
    ExecType,
    Md5Sum,
    Description,
    Comments,
    Tag,
    Liquibase,
    Contexts,
    Labels,
    DeploymentId,
}

impl LogColumn {
    /// All of them, in the table's order.
    pub const ALL: [LogColumn; 14] = [
        LogColumn::Id,
        LogColumn::Author,
        LogColumn::Filename,
        LogColumn::DateExecuted,
        LogColumn::OrderExecuted,
        LogColumn::ExecType,
        LogColumn::Md5Sum,
        LogColumn::Description,
        LogColumn::Comments,
        LogColumn::Tag,
        LogColumn::Liquibase,
        LogColumn::Contexts,
        LogColumn::Labels,
        LogColumn::DeploymentId,
    ];

    /// Those that a changeset that runs again changes, in the order in which they are set.
    pub const AGAIN: [LogColumn; 5] = [
        LogColumn::DateExecuted,
        LogColumn::OrderExecuted,
        LogColumn::ExecType,
        LogColumn::Md5Sum,
        LogColumn::DeploymentId,
    ];

    /// Its name in the table.
    #[tactic(auto, unfolding(crate::specs::Log::log_column))]
    pub fn text(self) -> &'static str
        ensures { result.now ≡ log_name self }
    {
        match self {
            LogColumn::Id => "ID",
            LogColumn::Author => "AUTHOR",
            LogColumn::Filename => "FILENAME",
            LogColumn::DateExecuted => "DATEEXECUTED",
            LogColumn::OrderExecuted => "ORDEREXECUTED",
            LogColumn::ExecType => "EXECTYPE",
            LogColumn::Md5Sum => "MD5SUM",
            LogColumn::Description => "DESCRIPTION",
            LogColumn::Comments => "COMMENTS",
            LogColumn::Tag => "TAG",
            LogColumn::Liquibase => "LIQUIBASE",
            LogColumn::Contexts => "CONTEXTS",
            LogColumn::Labels => "LABELS",
            LogColumn::DeploymentId => "DEPLOYMENT_ID",
        }
    }

    /// The type that it is made with.
    #[tactic(auto, unfolding(crate::specs::Log::log_column))]
    pub fn kind(self) -> Kind
        ensures { result ≡ (log_column self).kind }
    {
        match self {
            LogColumn::DateExecuted => Kind::Moment,
            LogColumn::OrderExecuted => Kind::Int,
            LogColumn::ExecType | LogColumn::DeploymentId => Kind::Varchar(10),
            LogColumn::Md5Sum => Kind::Varchar(35),
            LogColumn::Liquibase => Kind::Varchar(20),
            _ => Kind::Varchar(255),
        }
    }

    /// Whether it is made without NOT NULL.
    #[tactic(auto, unfolding(crate::specs::Log::log_column))]
    pub fn is_nullable(self) -> bool
        ensures { result ≡ (log_column self).nullable }
    {
        !matches!(
            self,
            LogColumn::Id
                | LogColumn::Author
                | LogColumn::Filename
                | LogColumn::DateExecuted
                | LogColumn::OrderExecuted
                | LogColumn::ExecType
        )
    }

    /// Its name, as statements have it.
    #[tactic(auto, using(crate::proofs::Names::log_name_is_name))]
    pub fn name(self, alloc: Global) -> Result<Name, NoMemory>
        ensures { IfOk result (λ name. name ≡ log_name self) }
    {
        fixed_name(alloc, self.text())
    }

    /// The column as the table is made with it.
    #[tactic(auto, unfolding(crate::specs::Log::log_column))]
    pub fn def(self, alloc: Global) -> Result<ColumnDef, NoMemory>
        ensures { IfOk result (λ def. def ≡ log_column self) }
    {
        Ok(ColumnDef {
            name: self.name(alloc)?,
            kind: self.kind(),
            nullable: self.is_nullable(),
            default: None,
            numbered: false,
        })
    }
}
