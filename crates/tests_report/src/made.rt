ghost use Rattle.std.specs.Option.{ForSome};
ghost use Rattle.std.specs.Prelude.{IfOk};
ghost use Rattle.lq_base.specs.Moment.{IsMoment};

use lq_base::{Did, Exec, Happened, Identity, Items, Lock, NoMemory, Printed, Text, Tracked, both};
use std::alloc::Global;

/// The changeset of this id by `ann` in `db/a.json`.
pub fn identity(alloc: Global, id: &str) -> Result<Identity, NoMemory> {
    Ok(Identity {
        file: Text::new(alloc, "db/a.json")?,
        id: Text::new(alloc, id)?,
        author: Text::new(alloc, "ann")?,
    })
}

/// The changesets of these ids.
pub fn identities(alloc: Global, ids: &[&str]) -> Result<Items<Identity>, NoMemory> {
    let mut all = Items::new(alloc);
    for id in ids {
        all.push(identity(alloc, id)?)?;
    }
    Ok(all)
}

/// What was done with the changesets of these ids.
pub fn happened(alloc: Global, all: &[(Did, &str)]) -> Result<Items<Happened>, NoMemory> {
    let mut made = Items::new(alloc);
    for (what, id) in all {
        made.push(Happened {
            what: *what,
            identity: identity(alloc, id)?,
        })?;
    }
    Ok(made)
}

/// The changeset of this id with these statements.
pub fn printed(alloc: Global, id: &str, texts: &[&str]) -> Result<Items<Printed>, NoMemory> {
    let mut made = Items::new(alloc);
    for text in texts {
        made.push(Text::new(alloc, text)?)?;
    }
    let mut all = Items::new(alloc);
    all.push(Printed {
        identity: identity(alloc, id)?,
        texts: made,
    })?;
    Ok(all)
}

/// A lock that was taken a second after 1970 began, by whom this text says.
pub fn lock(alloc: Global, by: &str) -> Result<Lock, NoMemory>
    ensures { IfOk result (λ lock. ForSome lock.granted IsMoment) }
{
    Ok(Lock {
        locked: true,
        granted: Some(1000),
        by: Some(Text::new(alloc, by)?),
    })
}

fn copied(alloc: Global, text: Option<&str>) -> Result<Option<Text>, NoMemory> {
    match text {
        Some(text) => Ok(Some(Text::new(alloc, text)?)),
        None => Ok(None),
    }
}

/// The row of the changeset of this id.
pub fn tracked(
    alloc: Global,
    id: &str,
    order: u32,
    date: i64,
    exec: Exec,
    tag: Option<&str>,
) -> Result<Tracked, NoMemory> {
    let who = both(Text::new(alloc, id), Text::new(alloc, "ann"));
    let from = both(Text::new(alloc, "db/a.json"), copied(alloc, tag));
    let told = both(Text::new(alloc, ""), Text::new(alloc, ""));
    let by = both(Text::new(alloc, ""), Text::new(alloc, ""));
    let for_whom = both(Text::new(alloc, ""), Text::new(alloc, ""));
    let all = both(both(who, from), both(told, both(by, for_whom)));
    let (((id, author), (filename, tag)), ((description, comments), (by, for_whom))) = all?;
    let ((tool, deployment), (contexts, labels)) = (by, for_whom);
    Ok(Tracked {
        id,
        author,
        filename,
        date,
        order,
        exec,
        md5sum: None,
        description,
        comments,
        tag,
        tool,
        contexts,
        labels,
        deployment,
    })
}
