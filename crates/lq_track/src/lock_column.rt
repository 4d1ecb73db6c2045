ghost use Rattle.std.specs.Prelude.{◌≡◌, IfOk};
ghost use Rattle.lq_track.specs.Lock.{lock_column, lock_name};

use crate::name::fixed_name;
use lq_base::{Kind, Name, NoMemory};
use lq_model::ColumnDef;
use std::alloc::Global;

/// A column of the table DATABASECHANGELOGLOCK.
#[derive(Clone, Copy, PartialEq, Eq)]
pub enum LockColumn {
    Id,
    Locked,
    LockGranted,
    LockedBy,
}

impl LockColumn {
    /// All of them, in the table's order.
    pub const ALL: [LockColumn; 4] = [
        LockColumn::Id,
        LockColumn::Locked,
        LockColumn::LockGranted,
        LockColumn::LockedBy,
    ];

    /// Its name in the table.
    #[tactic(auto, unfolding(crate::specs::Lock::lock_column))]
    pub fn text(self) -> &'static str
        ensures { result.now ≡ lock_name self }
    {
        match self {
            LockColumn::Id => "ID",
            LockColumn::Locked => "LOCKED",
            LockColumn::LockGranted => "LOCKGRANTED",
            LockColumn::LockedBy => "LOCKEDBY",
        }
    }

    /// The type that it is made with.
    #[tactic(auto, unfolding(crate::specs::Lock::lock_column))]
    pub fn kind(self) -> Kind
        ensures { result ≡ (lock_column self).kind }
    {
        match self {
            LockColumn::Id => Kind::Int,
            LockColumn::Locked => Kind::Boolean,
            LockColumn::LockGranted => Kind::Moment,
            LockColumn::LockedBy => Kind::Text,
        }
    }

    /// Whether it is made without NOT NULL.
    #[tactic(auto, unfolding(crate::specs::Lock::lock_column))]
    pub fn is_nullable(self) -> bool
        ensures { result ≡ (lock_column self).nullable }
    {
        matches!(self, LockColumn::LockGranted | LockColumn::LockedBy)
    }

    /// Its name, as statements have it.
    #[tactic(auto, using(crate::proofs::Names::lock_name_is_name))]
    pub fn name(self, alloc: Global) -> Result<Name, NoMemory>
        ensures { IfOk result (λ name. name ≡ lock_name self) }
    {
        fixed_name(alloc, self.text())
    }

    /// The column as the table is made with it.
    #[tactic(auto, unfolding(crate::specs::Lock::lock_column))]
    pub fn def(self, alloc: Global) -> Result<ColumnDef, NoMemory>
        ensures { IfOk result (λ def. def ≡ lock_column self) }
    {
        Ok(ColumnDef {
            name: self.name(alloc)?,
            kind: self.kind(),
            nullable: self.is_nullable(),
            default: None,
            numbered: false,
        })
    }
}
