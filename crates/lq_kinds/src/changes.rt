ghost use Rattle.std.specs.List.{list_all, position};
ghost use Rattle.std.specs.Prelude.{◌≡◌, IfOk, option_copied, true};
ghost use Rattle.lq_tree.specs.Look.{Reads};
ghost use Rattle.lq_tree.specs.Items.{item_path};
ghost use Rattle.lq_any.specs.AnyChange.{is_for};
ghost use Rattle.lq_kinds.specs.Changes.{changes_at, changes_in, here_at, is_read, is_tagging, once_tagged, second_tag, tag_path, ReadsSet};

use crate::fault::SetFault;
use crate::loads::each_change;
use lq_any::AnyChange;
use lq_base::{Dialect, Items, KindFault, NoMemory, Text};
use lq_cond::{dialect_names, is_meant};
use lq_model::SqlText;
use lq_tree::{Given, Node, Reader, bad_key, optional_by};
use std::alloc::Global;

/// Reads `dbms`: whether it means a dialect (Liquibase's documentation, "dbms").
#[derive(Drop)]
struct Dialects {
    dialect: Dialect,
}

impl Reader for Dialects {
    ghost use Rattle.std.specs.Prelude.{true};
    ghost use Rattle.lq_kinds.specs.Changes.{a_dbms};

    type Read = bool;

    ghost of = { λ reader. a_dbms reader.dialect };

    ghost fits = { λ _ _. true };

    fn read(&self, alloc: Global, node: &Node) -> Result<bool, KindFault> {
        let text = Text::given(alloc, node)?;
        let names = dialect_names(alloc, text.as_str())?;
        Ok(is_meant(self.dialect, names.as_slice()))
    }
}

/// Whether what stands at a node is for the dialect: what its `dbms` says, true without it. A faulty
/// `dbms` is told by its path.
#[tactic(auto, unfolding(crate::specs::Changes::here_at))]
pub fn here_at(alloc: Global, node: &Node, dialect: Dialect) -> Result<bool, KindFault>
    ensures { Reads (here_at dialect node.now) result }
{
    let here = optional_by(alloc, node, "dbms", &Dialects { dialect })?;
    Ok(here.unwrap_or(true))
}

/// Whether the changes and the rollback are read.
pub fn is_read(alloc: Global, node: &Node, dialect: Dialect) -> Result<bool, NoMemory>
    ensures { IfOk result (λ so. so ≡ is_read dialect node.now) }
{
    match here_at(alloc, node, dialect) {
        Ok(here) => Ok(here),
        Err(KindFault::OutOfMemory) => Err(NoMemory),
        Err(_) => Ok(false),
    }
}

fn is_tagging(change: &AnyChange) -> bool
    ensures { result ≡ is_tagging change.now }
{
    match change {
        AnyChange::TagDatabase(_) => true,
        _ => false,
    }
}

/// The place of the first tag.
fn first_tag(changes: &[AnyChange]) -> Option<usize>
    ensures { result ≡ position is_tagging changes.now }
{
    changes.iter().position(|change| is_tagging(change))
}

fn second_tag(changes: &[AnyChange]) -> Option<usize>
    ensures { result ≡ second_tag changes.now }
{
    let first = first_tag(changes)?;
    let after = first_tag(&changes[first + 1..])?;
    Some(first + 1 + after)
}

/// The path of an item of the list that stands at a key.
pub fn item_path(alloc: Global, key: &str, place: usize) -> Result<Text, NoMemory>
    ensures { IfOk result (λ path. path ≡ item_path key.now place) }
{
    let digits = format!(in alloc; "{place}")?;
    let mut path = Text::new(alloc, key)?;
    path.push_all(&["[", digits.as_str(), "]"])?;
    Ok(path)
}

fn tag_path(alloc: Global, place: usize) -> Result<Text, NoMemory>
    ensures { IfOk result (λ path. path ≡ tag_path place) }
{
    let mut path = item_path(alloc, "changes", place)?;
    path.push_str(".tagDatabase")?;
    Ok(path)
}

fn once_tagged(alloc: Global, changes: Items<AnyChange>) -> Result<Items<AnyChange>, KindFault>
    ensures read { Reads (once_tagged changes) result }
    ensures kept { IfOk result (λ kept. kept ≡ changes) }
{
    match second_tag(changes.as_slice()) {
        None => Ok(changes),
        Some(place) => Err(KindFault::Bad(tag_path(alloc, place)?)),
    }
}

fn changes_in<P: SqlText>(
    alloc: Global,
    value: Option<&Node>,
    given: &[Items<u8>],
    dialect: Dialect,
    sql: &P,
) -> Result<Items<AnyChange>, SetFault>
    requires same { P.dialect ≡ dialect }
    ensures read { ReadsSet (changes_in dialect given.now (option_copied value.entry)) result }
    ensures right { IfOk result (λ changes. list_all (is_for dialect) changes ≡ true) }
{
    let Some(value) = value else {
        return Ok(Items::new(alloc));
    };
    let Some(nodes) = value.as_list() else {
        return Err(SetFault::InKeys(bad_key(alloc, "changes")));
    };
    let changes = each_change(alloc, nodes, given, dialect, sql)?;
    match once_tagged(alloc, changes) {
        Ok(kept) => Ok(kept),
        Err(fault) => Err(SetFault::InKeys(fault)),
    }
}

/// The changes of a changeset, with the bytes of the files that its loads take, as far as they are
/// given. Where it is not for the dialect they are not read.
#[tactic(auto, unfolding(crate::specs::Changes::changes_at))]
pub fn changes_at<P: SqlText>(
    alloc: Global,
    node: &Node,
    given: &[Items<u8>],
    dialect: Dialect,
    sql: &P,
) -> Result<Items<AnyChange>, SetFault>
    requires same { P.dialect ≡ dialect }
    ensures read { ReadsSet (changes_at dialect given.now node.now) result }
    ensures right { IfOk result (λ changes. list_all (is_for dialect) changes ≡ true) }
{
    if !is_read(alloc, node, dialect)? {
        return Ok(Items::new(alloc));
    }
    changes_in(alloc, node.value_at("changes"), given, dialect, sql)
}
