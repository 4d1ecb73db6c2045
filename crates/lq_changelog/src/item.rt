ghost use Rattle.std.specs.Prelude.{◌≡◌, IfOk, IfSome, true};
ghost use Rattle.lq_base.specs.Number.{if_there};
ghost use Rattle.lq_kinds.specs.ReadFor.{is_read_for};
ghost use Rattle.lq_kinds.specs.ChangeSets.{is_label};
ghost use Rattle.lq_sources.specs.Faults.{IsGathered, IsMade};
ghost use Rattle.lq_paths.specs.Paths.{format_of};
ghost use Rattle.lq_changelog.specs.Gathers.{line_of, reaction_in, set_by, set_in, sql_set, tree_set, what_at, HasShortTexts};

use crate::sql_parts::parts_set;
use crate::texts::read_set;
use lq_base::{Dialect, Items, KindFault, plain_number};
use lq_cond::Reaction;
use lq_contents::own_reaction;
use lq_kinds::{ChangeSet, SetFault, is_label};
use lq_model::SqlText;
use lq_paths::{Format, format_of};
use lq_sources::{Included, Lack, What, entry_of};
use lq_tree::{Node, bad_key, placed, placed_list};
use std::alloc::Global;

/// A changeset of a tree, with the bytes of the files that it loads, as far as they are given.
#[tactic(auto, unfolding(crate::specs::Gathers::tree_set))]
fn tree_set<P: SqlText>(
    alloc: Global,
    given: &[Items<u8>],
    path: &str,
    node: &Node,
    dialect: Dialect,
    sql: &P,
) -> Result<Option<ChangeSet>, Lack>
    requires same { P.dialect ≡ dialect }
    requires label { is_label path.now ≡ true }
    ensures made { IsGathered (tree_set dialect given.now path.now node.now) result }
    ensures right { IfOk result (λ set. if_there (is_read_for dialect) set ≡ true) }
    ensures short { IfOk result (λ set. IfSome set HasShortTexts) }
{
    match read_set(alloc, given, path, node, dialect, sql) {
        Ok(set) => Ok(set),
        Err(SetFault::BadPath) => Err(Lack::Wrong(What::BadPath)),
        Err(SetFault::Wants { file, is_relative }) => Err(Lack::File(Included {
            path: file,
            relative: is_relative,
        })),
        Err(SetFault::InKeys(fault)) => {
            Err(Lack::Wrong(What::Key(placed(alloc, "changeSet", fault))))
        }
    }
}

/// What a fault of a changeset of formatted SQL is, which begins at a line.
fn what_at(line: u64, fault: SetFault) -> What
    ensures { result ≡ what_at line fault }
{
    match fault {
        SetFault::InKeys(KindFault::OutOfMemory) => What::Key(KindFault::OutOfMemory),
        SetFault::InKeys(_) => What::Line(line),
        SetFault::BadPath => What::BadPath,
        SetFault::Wants {
            file: _,
            is_relative: _,
        } => What::Line(line),
    }
}

/// The number of a line.
fn line_of(key: &str) -> Option<u64>
    ensures { result ≡ line_of key.now }
{
    let number = plain_number(key.as_bytes())?;
    if number < 18_446_744_073_709_551_616 {
        Some(number as u64)
    } else {
        None
    }
}

/// A changeset of formatted SQL.
#[tactic(auto, unfolding(crate::specs::Gathers::sql_set))]
fn sql_set<P: SqlText>(
    alloc: Global,
    path: &str,
    node: &Node,
    dialect: Dialect,
    sql: &P,
) -> Result<Option<ChangeSet>, What>
    requires same { P.dialect ≡ dialect }
    requires label { is_label path.now ≡ true }
    ensures made { IsMade (sql_set dialect path.now node.now) result }
    ensures right { IfOk result (λ set. if_there (is_read_for dialect) set ≡ true) }
    ensures short { IfOk result (λ set. IfSome set HasShortTexts) }
{
    let Some(entry) = entry_of(node) else {
        return Err(What::Key(bad_key(alloc, "changeSet")));
    };
    let Some(line) = line_of(entry.0.as_str()) else {
        return Err(What::Key(bad_key(alloc, "changeSet")));
    };
    match parts_set(alloc, path, &entry.1, dialect, sql) {
        Ok(set) => Ok(set),
        Err(fault) => Err(what_at(line, fault)),
    }
}

/// A changeset, by what its file is written in.
fn set_by<P: SqlText>(
    alloc: Global,
    given: &[Items<u8>],
    path: &str,
    node: &Node,
    dialect: Dialect,
    sql: &P,
) -> Result<Option<ChangeSet>, Lack>
    requires same { P.dialect ≡ dialect }
    requires label { is_label path.now ≡ true }
    ensures made { IsGathered (set_by (format_of path.now) dialect given.now path.now node.now)
        result }
    ensures right { IfOk result (λ set. if_there (is_read_for dialect) set ≡ true) }
    ensures short { IfOk result (λ set. IfSome set HasShortTexts) }
{
    match format_of(path) {
        Some(Format::Sql) => match sql_set(alloc, path, node, dialect, sql) {
            Ok(set) => Ok(set),
            Err(what) => Err(Lack::Wrong(what)),
        },
        _ => tree_set(alloc, given, path, node, dialect, sql),
    }
}

/// A changeset of the file at a path: `None` where it is to be ignored. The path can be that of a
/// changeset, since it may name a file.
#[tactic(auto, unfolding(crate::specs::Gathers::set_in))]
pub fn set_in<P: SqlText>(
    alloc: Global,
    given: &[Items<u8>],
    path: &str,
    node: &Node,
    dialect: Dialect,
    sql: &P,
) -> Result<Option<ChangeSet>, Lack>
    requires same { P.dialect ≡ dialect }
    ensures made { IsGathered (set_in dialect given.now path.now node.now) result }
    ensures right { IfOk result (λ set. if_there (is_read_for dialect) set ≡ true) }
    ensures short { IfOk result (λ set. IfSome set HasShortTexts) }
{
    if is_label(path) {
        set_by(alloc, given, path, node, dialect, sql)
    } else {
        Err(Lack::Wrong(What::BadPath))
    }
}

/// A changelog's own preconditions.
#[tactic(auto, unfolding(crate::specs::Gathers::reaction_in))]
pub fn reaction_in<P: SqlText>(
    alloc: Global,
    node: &Node,
    dialect: Dialect,
    sql: &P,
) -> Result<Reaction, What>
    requires same { P.dialect ≡ dialect }
    ensures { IsMade (reaction_in dialect node.now) result }
{
    match own_reaction(alloc, node, dialect, sql) {
        Ok(reaction) => Ok(reaction),
        Err(fault) => Err(What::Key(placed_list(alloc, "preConditions", fault))),
    }
}
