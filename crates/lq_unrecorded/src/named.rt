ghost use Rattle.std.specs.List.{filter, list_all};
ghost use Rattle.std.specs.Prelude.{◌≡◌, IfOk, IfSome, option_map, true};
ghost use Rattle.laws_repair.specs.Repair.{is_named_so, marked_set};
ghost use Rattle.lq_base.specs.Name.{is_named, is_text, identity_text};
ghost use Rattle.lq_base.specs.declared.dialect.Dialect.{Dialect};
ghost use Rattle.lq_expr.specs.declared.options.Options.{Options};
ghost use Rattle.lq_kinds.specs.ReadFor.{is_read_for};
ghost use Rattle.lq_seen.specs.View.{view, views};
ghost use Rattle.lq_turns.specs.Deed.{is_of};
ghost use Rattle.lq_turns.specs.Set.{has_row};
ghost use Rattle.lq_unrecorded.specs.Part.{named_from};

use lq_base::{Identity, NoMemory, Text, Tracked};
use lq_kinds::ChangeSet;
use std::alloc::Global;

/// The one changeset that is here, has no row and is printed so. None where there is no such
/// changeset, and where there are more.
pub fn set_marked<'a>(
    alloc: Global,
    sets: &'a [ChangeSet],
    rows: &[Tracked],
    name: &str,
) -> Result<Option<&'a ChangeSet>, NoMemory>
    ensures found { IfOk result (λ found. (options : Options)
        → option_map (λ set. view options set.now) found
        ≡ marked_set name.now rows.now (views options sets.now)) }
    ensures read { IfOk result (λ found. (d : Dialect)
        → list_all (is_read_for d) sets.now ≡ true
        → IfSome found (λ set. is_read_for d set.now ≡ true)) }
{
    let Some((set, behind)) = next_named(alloc, sets, rows, name)? else {
        return Ok(None);
    };
    match next_named(alloc, behind, rows, name)? {
        Some(_) => Ok(None),
        None => Ok(Some(set)),
    }
}

// The first of them, and the changesets behind it.
fn next_named<'a>(
    alloc: Global,
    sets: &'a [ChangeSet],
    rows: &[Tracked],
    name: &str,
) -> Result<Option<(&'a ChangeSet, &'a [ChangeSet])>, NoMemory>
    ensures found { IfOk result (λ found. (options : Options)
        → filter (is_named_so name.now rows.now) (views options sets.now)
        ≡ named_from options name.now rows.now
        (option_map (λ it. (it.0.now, it.1.now)) found)) }
    ensures read { IfOk result (λ found. (d : Dialect)
        → list_all (is_read_for d) sets.now ≡ true
        → IfSome found (λ it. is_read_for d it.0.now ≡ true)) }
{
    let mut rest = sets;
    while let Some((set, behind)) = rest.split_first() {
        if is_named_so(alloc, set, rows, name)? {
            return Ok(Some((set, behind)));
        }
        rest = behind;
    }
    Ok(None)
}

fn is_named_so(
    alloc: Global,
    set: &ChangeSet,
    rows: &[Tracked],
    name: &str,
) -> Result<bool, NoMemory>
    ensures { IfOk result (λ is. (options : Options)
        → is ≡ is_named_so name.now rows.now (view options set.now)) }
{
    if !set.here {
        return Ok(false);
    }
    let is_printed = is_printed(alloc, &set.identity, name)?;
    Ok(is_printed && !has_row(rows, &set.identity))
}

fn is_printed(alloc: Global, of: &Identity, name: &str) -> Result<bool, NoMemory>
    ensures { IfOk result (λ is. is ≡ is_text name.now (identity_text of.now)) }
{
    let mut text = Text::new(alloc, "")?;
    of.append_to(&mut text)?;
    Ok(is_name(name, &text))
}

fn is_name(name: &str, text: &Text) -> bool
    ensures { result ≡ is_text name.now text.now }
{
    name == text.as_str()
}

fn has_row(rows: &[Tracked], of: &Identity) -> bool
    ensures { result ≡ has_row rows.now of.now }
{
    rows.iter().any(|row| is_of(row, of))
}

fn is_of(row: &Tracked, of: &Identity) -> bool
    ensures { result ≡ is_of of.now row.now }
{
    is_same(&row.filename, of.file.as_str())
        && is_same(&row.id, of.id.as_str())
        && is_same(&row.author, of.author.as_str())
}

fn is_same(text: &Text, other: &str) -> bool
    ensures { result ≡ is_named text.now other.now }
{
    text.as_str() == other
}
