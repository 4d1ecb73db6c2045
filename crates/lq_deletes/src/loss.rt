ghost use Rattle.std.specs.List.{list_any};
ghost use Rattle.std.specs.Prelude.{◌≡◌, ◌≤◌, ◌++◌, IfOk, OnOk, length, map, not};
ghost use Rattle.lq_parts.specs.Steps.{tables_of};
ghost use Rattle.lq_rows.specs.Stored.{Continues};
ghost use Rattle.lq_deletes.specs.Places.{AreMarked, losses, lost_in, marks_of, with_thinned, row_total};

use lq_base::{Duplicate, Name, NoMemory};
use lq_parts::Parts;
use lq_rows::Held;
use std::alloc::{AllocError, Global};

/// For each row of a table whether it stays.
#[derive(Drop)]
pub struct Loss {
    pub table: Name,
    pub marks: Vec<bool>,
}

fn has_mark(marks: &[bool]) -> bool
    ensures { result ≡ list_any (λ mark. mark) marks.now }
{
    marks.iter().any(|mark| *mark)
}

fn turned(alloc: Global, marks: &[bool]) -> Result<Vec<bool>, NoMemory>
    ensures { IfOk result (λ others. others.items ≡ map not marks.now) }
{
    let mut others = Vec::new(alloc);
    for mark in marks {
        others.push(!*mark)?;
    }
    Ok(others)
}

/// Which rows of a table stay, by the marks of those that go.
fn loss_of(alloc: Global, name: &Name, marks: &[bool]) -> Result<Loss, NoMemory>
    ensures { IfOk result (λ loss. marks_of loss ≡ (name.now, map not marks.now)) }
{
    let others = turned(alloc, marks)?;
    Ok(Loss {
        table: name.duplicate(alloc)?,
        marks: others,
    })
}

/// Adds which rows of a table stay, where one does not.
fn add_loss(alloc: Global, all: &mut Vec<Loss>, name: &Name, marks: &[bool]) -> Result<(), NoMemory>
    ensures { OnOk result
        (map marks_of all.new.items ≡ map marks_of all.old.items ++ lost_in name.now marks.now) }
{
    if !has_mark(marks) {
        return Ok(());
    }
    let loss = loss_of(alloc, name, marks)?;
    all.push(loss)?;
    Ok(())
}

/// Which rows stay of the tables of which one does not, by the marks of all rows that go.
pub fn losses_in(
    alloc: Global,
    entries: &[(Name, Held)],
    marks: &[bool],
) -> Result<Vec<Loss>, NoMemory>
    requires { row_total (tables_of entries.now) ≤ length marks.now }
    ensures { IfOk result
        (λ all. map marks_of all.items ≡ losses marks.now (tables_of entries.now)) }
{
    let mut all = Vec::new(alloc);
    let mut rest = marks;
    for entry in entries {
        let (own, after) = rest.split_at(entry.1.len());
        add_loss(alloc, &mut all, &entry.0, own)?;
        rest = after;
    }
    Ok(all)
}

fn copied(alloc: Global, marks: &[bool]) -> Result<Vec<bool>, AllocError>
    ensures { IfOk result (λ copy. copy.items ≡ marks.now) }
{
    marks.iter().copied().collect(alloc)
}

/// Takes the rows that do not stay out of their tables. At a fault some may be gone.
pub fn thin(parts: &mut Parts, alloc: Global, losses: &[Loss]) -> Result<(), NoMemory>
    requires { AreMarked (map marks_of losses.now) parts.old.now.tables }
    ensures ok { OnOk result
        (parts.new.now ≡ with_thinned (map marks_of losses.now) parts.old.now) }
    ensures goes { Continues parts.old parts.new }
{
    for loss in losses {
        let marks = copied(alloc, &loss.marks)?;
        parts.keep(alloc, &loss.table, marks)?;
    }
    Ok(())
}
