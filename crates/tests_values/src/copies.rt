use lq_base::{
    Boxed, Did, Duplicate, Exec, Happened, Identity, Items, Literal, Lock, NoMemory, Printed, Same,
    Text, Tracked, Value, both,
};
use std::alloc::Global;
use tests_table::no_kind;

/// An identity of a changeset.
pub fn identity(alloc: Global, file: &str, id: &str, author: &str) -> Result<Identity, NoMemory> {
    let who = both(Text::new(alloc, id), Text::new(alloc, author));
    let (file, (id, author)) = both(Text::new(alloc, file), who)?;
    Ok(Identity { file, id, author })
}

fn first_identity(alloc: Global) -> Result<Identity, NoMemory> {
    identity(alloc, "db/a.json", "1", "ann")
}

fn tracked(alloc: Global, deployment: &str) -> Result<Tracked, NoMemory> {
    let who = both(Text::new(alloc, "1"), Text::new(alloc, "ann"));
    let from = both(Text::new(alloc, "db/a.json"), Text::new(alloc, ""));
    let told = both(Text::new(alloc, ""), Text::new(alloc, "profile-1"));
    let for_whom = both(Text::new(alloc, ""), Text::new(alloc, ""));
    let last = both(for_whom, Text::new(alloc, deployment));
    let all = both(both(who, from), both(told, last))?;
    let (((id, author), (filename, description)), ((comments, tool), last)) = all;
    let ((contexts, labels), deployment) = last;
    Ok(Tracked {
        id,
        author,
        filename,
        date: 1000,
        order: 1,
        exec: Exec::Executed,
        md5sum: None,
        description,
        comments,
        tag: None,
        tool,
        contexts,
        labels,
        deployment,
    })
}

fn lock(alloc: Global, by: &str) -> Result<Lock, NoMemory> {
    let by = Text::new(alloc, by)?;
    Ok(Lock {
        locked: true,
        granted: Some(1000),
        by: Some(by),
    })
}

fn texts(alloc: Global, text: &str) -> Result<Items<Text>, NoMemory> {
    let mut texts = Items::new(alloc);
    texts.push(Text::new(alloc, text)?)?;
    Ok(texts)
}

fn printed(alloc: Global, text: &str) -> Result<Printed, NoMemory> {
    let (identity, texts) = both(first_identity(alloc), texts(alloc, text))?;
    Ok(Printed { identity, texts })
}

fn happened(alloc: Global, what: Did) -> Result<Happened, NoMemory> {
    let identity = first_identity(alloc)?;
    Ok(Happened { what, identity })
}

fn boxed(alloc: Global, scale: u8) -> Result<Boxed<Literal>, NoMemory> {
    Ok(Boxed::new(alloc, Literal::Fixed { units: 5, scale })?)
}

fn pair(alloc: Global, text: &str, number: i64) -> Result<(Text, Value), NoMemory> {
    let text = Text::new(alloc, text)?;
    Ok((text, Value::Int(number)))
}

// Whether a copy of the first is the same as the first, and not the same as the second.
fn is_copied<T: Duplicate + Same + Drop>(
    alloc: Global,
    first: Result<T, NoMemory>,
    second: Result<T, NoMemory>,
) -> Result<bool, NoMemory> {
    let (it, other) = both(first, second)?;
    match it.duplicate(alloc) {
        Ok(copy) => Ok(copy.same(&it) && !copy.same(&other)),
        Err(NoMemory) => Err(NoMemory),
    }
}

fn told(alloc: Global, is_copied: Result<bool, NoMemory>) -> Result<String, NoMemory> {
    let word = if is_copied? { "yes" } else { "no" };
    Ok(String::from_str(alloc, word)?)
}

/// Whether a copy is the same as what it was made of, and not the same as another.
pub fn copy(alloc: Global, of: &str) -> Result<String, NoMemory> {
    match of {
        "lock" => told(
            alloc,
            is_copied(alloc, lock(alloc, "ci"), lock(alloc, "ann")),
        ),
        "printed texts" => {
            let (table, view) = (
                printed(alloc, "DROP TABLE t"),
                printed(alloc, "DROP VIEW t"),
            );
            told(alloc, is_copied(alloc, table, view))
        }
        "what happened" => {
            let (ran, again) = (happened(alloc, Did::Ran), happened(alloc, Did::RanAgain));
            told(alloc, is_copied(alloc, ran, again))
        }
        "box" => told(alloc, is_copied(alloc, boxed(alloc, 1), boxed(alloc, 2))),
        "row" => {
            let (row, other) = (tracked(alloc, "0000001000"), tracked(alloc, "0000002000"));
            told(alloc, is_copied(alloc, row, other))
        }
        "pair with a number" => {
            told(
                alloc,
                is_copied(alloc, pair(alloc, "a", 1), pair(alloc, "a", 2)),
            )
        }
        "pair with a text" => {
            told(
                alloc,
                is_copied(alloc, pair(alloc, "a", 1), pair(alloc, "b", 1)),
            )
        }
        _ => no_kind(alloc),
    }
}
