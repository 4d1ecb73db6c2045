use lq_base::{Items, NoMemory, OnFail, Text, append_whole};
use lq_cond::Cond;
use lq_faultlog::append_load_fault;
use lq_kinds::{AnyChange, ChangeSet, Changelog};
use lq_sources::LoadFault;
use std::alloc::Global;

fn reaction_name(reaction: OnFail) -> &'static str {
    match reaction {
        OnFail::Halt => "",
        OnFail::Continue => " continue",
        OnFail::MarkRan => " mark",
        OnFail::Warn => " warn",
    }
}

fn append_count(name: &str, count: usize, to: &mut Text) -> Result<(), NoMemory> {
    if count == 0 {
        return Ok(());
    }
    to.push_all(&[" ", name, " "])?;
    append_whole(count as i128, to)
}

fn append_if(so: bool, word: &str, to: &mut Text) -> Result<(), NoMemory> {
    if so {
        to.push_all(&[" ", word])?;
    }
    Ok(())
}

fn append_named(name: &str, text: &Text, to: &mut Text) -> Result<(), NoMemory> {
    if text.as_str().is_empty() {
        return Ok(());
    }
    to.push_all(&[" ", name, " ", text.as_str()])
}

fn append_conds(cond: &Cond, to: &mut Text) -> Result<(), NoMemory> {
    match cond {
        Cond::And(conds) => append_count("asks", conds.len(), to),
        _ => to.push_str(" asks otherwise"),
    }
}

fn append_rollback(rollback: &Option<Items<AnyChange>>, to: &mut Text) -> Result<(), NoMemory> {
    match rollback {
        None => Ok(()),
        Some(changes) => {
            to.push_str(" back ")?;
            append_whole(changes.len() as i128, to)
        }
    }
}

fn append_flags(set: &ChangeSet, to: &mut Text) -> Result<(), NoMemory> {
    append_if(!set.here, "elsewhere", to)?;
    append_if(set.run_always, "always", to)?;
    append_if(set.run_on_change, "onChange", to)?;
    append_if(!set.fail_on_error, "goesOn", to)?;
    append_if(!set.in_transaction, "apart", to)?;
    append_count("sums", set.valid_sums.len(), to)
}

fn append_asked(set: &ChangeSet, to: &mut Text) -> Result<(), NoMemory> {
    append_conds(&set.cond, to)?;
    to.push_str(reaction_name(set.on_fail))?;
    to.push_str(reaction_name(set.on_error))
}

fn append_texts(set: &ChangeSet, to: &mut Text) -> Result<(), NoMemory> {
    append_named("context", &set.context_text, to)?;
    append_named("labels", &set.labels_text, to)?;
    append_named("comment", &set.comment, to)
}

// `IDENTITY` and what it says otherwise than by default.
fn append_set(set: &ChangeSet, to: &mut Text) -> Result<(), NoMemory> {
    to.push_str("\n")?;
    set.identity.append_to(to)?;
    append_count("changes", set.changes.len(), to)?;
    append_rollback(&set.rollback, to)?;
    append_flags(set, to)?;
    append_texts(set, to)?;
    append_asked(set, to)
}

fn append_sets(sets: &[ChangeSet], to: &mut Text) -> Result<(), NoMemory> {
    for set in sets {
        append_set(set, to)?;
    }
    Ok(())
}

fn append_sums(sets: &[ChangeSet], to: &mut Text) -> Result<(), NoMemory> {
    for set in sets {
        to.push_all(&["\n", set.sum.as_str()])?;
    }
    Ok(())
}

// The conditions of the changelog, and then a line for each changeset.
fn append_changelog(changelog: &Changelog, to: &mut Text) -> Result<(), NoMemory> {
    append_conds(&changelog.cond, to)?;
    to.push_str(reaction_name(changelog.on_fail))?;
    to.push_str(reaction_name(changelog.on_error))?;
    append_sets(changelog.sets.as_slice(), to)
}

/// What was loaded, or the fault's line of the log.
pub fn shown(alloc: Global, loaded: &Result<Changelog, LoadFault>) -> Result<Text, NoMemory> {
    let mut text = Text::new(alloc, "")?;
    match loaded {
        Ok(changelog) => append_changelog(changelog, &mut text)?,
        Err(fault) => append_load_fault(alloc, fault, &mut text)?,
    }
    Ok(text)
}

/// The checksums of the changesets that were loaded.
pub fn sums(alloc: Global, loaded: &Result<Changelog, LoadFault>) -> Result<Text, NoMemory> {
    let mut text = Text::new(alloc, "")?;
    match loaded {
        Ok(changelog) => append_sums(changelog.sets.as_slice(), &mut text)?,
        Err(fault) => append_load_fault(alloc, fault, &mut text)?,
    }
    Ok(text)
}
