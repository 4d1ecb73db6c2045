ghost use Rattle.std.specs.Prelude.{◌≡◌};
ghost use Rattle.lq_base.specs.Name.{exec_text};

use crate::duplicate::{Duplicate, Same};
use crate::memory::NoMemory;
use crate::parts::both;
use crate::text::Text;
use std::alloc::Global;

/// The row of the table DATABASECHANGELOGLOCK.
pub struct Lock {
    pub locked: bool,
    /// When it was taken, in milliseconds since 1970-01-01 UTC.
    pub granted: Option<i64>,
    pub by: Option<Text>,
}

// Written out, so that each place that lets one go is one call.
impl Drop for Lock {
    fn drop(self) {
        let Lock {
            locked: _,
            granted: _,
            by,
        } = self;
        drop(by);
    }
}

/// How a changeset came to its row.
#[derive(Clone, Copy, PartialEq, Eq)]
pub enum Exec {
    Executed,
    Reran,
    MarkRan,
}

impl Exec {
    /// Its text in the column EXECTYPE.
    pub fn text(self) -> &'static str
        ensures { result.now ≡ exec_text self }
    {
        match self {
            Exec::Executed => "EXECUTED",
            Exec::Reran => "RERAN",
            Exec::MarkRan => "MARK_RAN",
        }
    }
}

/// A row of the table DATABASECHANGELOG.
pub struct Tracked {
    pub id: Text,
    pub author: Text,
    pub filename: Text,
    /// In milliseconds since 1970-01-01 UTC.
    pub date: i64,
    /// The place in run order, from 1.
    pub order: u32,
    pub exec: Exec,
    /// The checksum, or nothing where it is to be filled in.
    pub md5sum: Option<Text>,
    pub description: Text,
    pub comments: Text,
    pub tag: Option<Text>,
    /// The column LIQUIBASE.
    pub tool: Text,
    pub contexts: Text,
    pub labels: Text,
    /// The column DEPLOYMENT_ID.
    pub deployment: Text,
}

// Written out, so that each place that lets one go is one call.
impl Drop for Tracked {
    fn drop(self) {
        let Tracked {
            id,
            author,
            filename,
            date: _,
            order: _,
            exec: _,
            md5sum,
            description,
            comments,
            tag,
            tool,
            contexts,
            labels,
            deployment,
        } = self;
        drop(id);
        drop(author);
        drop(filename);
        drop(md5sum);
        drop(description);
        drop(comments);
        drop(tag);
        drop(tool);
        drop(contexts);
        drop(labels);
        drop(deployment);
    }
}

impl Duplicate for Lock {
    fn duplicate(&self, alloc: Global) -> Result<Lock, NoMemory> {
        Ok(Lock {
            locked: self.locked,
            granted: self.granted,
            by: self.by.duplicate(alloc)?,
        })
    }
}

impl Same for Lock {
    fn same(&self, other: &Lock) -> bool {
        self.locked == other.locked && self.granted == other.granted && self.by.same(&other.by)
    }
}

impl Duplicate for Tracked {
    fn duplicate(&self, alloc: Global) -> Result<Tracked, NoMemory> {
        let who = both(self.id.duplicate(alloc), self.author.duplicate(alloc));
        let from = both(self.filename.duplicate(alloc), self.md5sum.duplicate(alloc));
        let told = both(
            self.description.duplicate(alloc),
            self.comments.duplicate(alloc),
        );
        let by = both(self.tag.duplicate(alloc), self.tool.duplicate(alloc));
        let for_whom = both(self.contexts.duplicate(alloc), self.labels.duplicate(alloc));
        let last = both(for_whom, self.deployment.duplicate(alloc));
        let all = both(both(both(who, from), both(told, by)), last);
        let ((((id, author), (filename, md5sum)), ((description, comments), (tag, tool))), last) =
            all?;
        let ((contexts, labels), deployment) = last;
        Ok(Tracked {
            id,
            author,
            filename,
            date: self.date,
            order: self.order,
            exec: self.exec,
            md5sum,
            description,
            comments,
            tag,
            tool,
            contexts,
            labels,
            deployment,
        })
    }
}

impl Same for Tracked {
    fn same(&self, other: &Tracked) -> bool {
        self.id.same(&other.id)
            && self.author.same(&other.author)
            && self.filename.same(&other.filename)
            && self.date == other.date
            && self.order == other.order
            && self.exec == other.exec
            && self.md5sum.same(&other.md5sum)
            && self.description.same(&other.description)
            && self.comments.same(&other.comments)
            && self.tag.same(&other.tag)
            && self.tool.same(&other.tool)
            && self.contexts.same(&other.contexts)
            && self.labels.same(&other.labels)
            && self.deployment.same(&other.deployment)
    }
}
