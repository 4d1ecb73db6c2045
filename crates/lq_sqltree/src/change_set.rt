ghost use Rattle.std.specs.Prelude.{◌≡◌, [], ◌∷◌, ◌++◌, IfOk, OnOk};
ghost use Rattle.lq_sqltree.specs.SqlTree.{change_set, changes, check, conditions, elsewhere, heading, here, item, keys_of, own_keys, placed_keys, reaction, reactions, rollback_key, sql_change, undoing};
ghost use Rattle.lq_sqltree.specs.declared.attributes.Keys.TheVariants.{OfSql};

use crate::attributes::{Keys, keys_of, push_path};
use crate::entries::{push_entry, push_text, under};
use lq_base::{Items, NoMemory, Text};
use lq_sqlfile::SqlSet;
use lq_tree::Node;
use std::alloc::Global;

/// Appends what follows a precondition that fails or cannot be tested, if it is stated.
fn push_reaction(
    alloc: Global,
    key: &str,
    stated: &Option<Text>,
    to: &mut Items<Node>,
) -> Result<(), NoMemory>
    ensures { OnOk result (to.new ≡ to.old ++ reaction key.now stated.now) }
{
    if let Some(text) = stated {
        to.push(under(alloc, key, Node::Text(text.copy(alloc)?))?)?;
    }
    Ok(())
}

fn check(alloc: Global, expected: &str, query: &str) -> Result<Node, NoMemory>
    ensures { IfOk result (λ node. node ≡ check (expected.now, query.now)) }
{
    let mut keys = Items::new(alloc);
    push_text(alloc, "expectedResult", expected, &mut keys)?;
    push_text(alloc, "sql", query, &mut keys)?;
    let node = under(alloc, "sqlCheck", Node::Map(keys))?;
    Ok(node)
}

fn reactions(alloc: Global, set: &SqlSet) -> Result<Items<Node>, NoMemory>
    ensures { IfOk result (λ nodes. nodes ≡ reactions set.now) }
{
    let mut nodes = Items::new(alloc);
    push_reaction(alloc, "onFail", &set.on_fail, &mut nodes)?;
    push_reaction(alloc, "onError", &set.on_error, &mut nodes)?;
    Ok(nodes)
}

fn conditions(alloc: Global, set: &SqlSet) -> Result<Items<Node>, NoMemory>
    ensures { IfOk result (λ nodes. nodes ≡ conditions set.now) }
{
    let mut nodes = reactions(alloc, set)?;
    for pair in set.checks.as_slice() {
        nodes.push(check(alloc, pair.0.as_str(), pair.1.as_str())?)?;
    }
    Ok(nodes)
}

/// The `sql` change of a body that is taken apart as the attributes say.
fn sql_change(alloc: Global, body: &str, pairs: &[(Text, Text)]) -> Result<Node, NoMemory>
    ensures { IfOk result (λ node. node ≡ sql_change body.now (keys_of OfSql pairs.now)) }
{
    let mut keys = Items::new(alloc);
    push_text(alloc, "sql", body, &mut keys)?;
    keys.append(keys_of(alloc, Keys::OfSql, pairs)?)?;
    let node = under(alloc, "sql", Node::Map(keys))?;
    Ok(node)
}

/// The one change of an empty body, which says how the body is taken apart.
fn no_statement(alloc: Global, pairs: &[(Text, Text)]) -> Result<Items<Node>, NoMemory>
    ensures { IfOk result (λ nodes. nodes ≡ sql_change [] (keys_of OfSql pairs.now) ∷ []) }
{
    let mut nodes = Items::new(alloc);
    nodes.push(sql_change(alloc, "", pairs)?)?;
    Ok(nodes)
}

/// The body as an `sql` change, where there is one.
fn changes(alloc: Global, body: &str, pairs: &[(Text, Text)]) -> Result<Items<Node>, NoMemory>
    ensures { IfOk result (λ nodes. nodes ≡ changes body.now (keys_of OfSql pairs.now)) }
{
    let mut nodes = Items::new(alloc);
    if body.is_empty() {
        return Ok(nodes);
    }
    nodes.push(sql_change(alloc, body, pairs)?)?;
    Ok(nodes)
}

/// What takes the changeset back: a text, or nothing where it is `empty` or `not required`.
fn undoing(alloc: Global, text: &str) -> Result<Items<Node>, NoMemory>
    ensures { IfOk result (λ nodes. nodes ≡ undoing text.now) }
{
    let mut nodes = Items::new(alloc);
    if text == "empty" || text == "not required" {
        return Ok(nodes);
    }
    nodes.push(Node::Text(Text::new(alloc, text)?))?;
    Ok(nodes)
}

fn push_rollback(
    alloc: Global,
    rollback: &Option<Text>,
    to: &mut Items<(Text, Node)>,
) -> Result<(), NoMemory>
    ensures { OnOk result (to.new ≡ to.old ++ rollback_key rollback.now) }
{
    match rollback {
        Some(text) => {
            let nodes = undoing(alloc, text.as_str())?;
            push_entry(alloc, "rollback", Node::List(nodes), to)
        }
        None => Ok(()),
    }
}

/// The keys that stand beside the attributes, with these preconditions and changes.
fn own_keys(
    alloc: Global,
    set: &SqlSet,
    asked: Items<Node>,
    made: Items<Node>,
) -> Result<Items<(Text, Node)>, NoMemory>
    ensures { IfOk result (λ keys. keys ≡ own_keys set.now asked made) }
{
    let mut keys = Items::new(alloc);
    push_text(alloc, "id", set.id.as_str(), &mut keys)?;
    push_text(alloc, "author", set.author.as_str(), &mut keys)?;
    push_text(alloc, "comment", set.comment.as_str(), &mut keys)?;
    push_entry(alloc, "preConditions", Node::List(asked), &mut keys)?;
    push_entry(alloc, "changes", Node::List(made), &mut keys)?;
    Ok(keys)
}

/// Appends the attributes of a changeset of a file with that logical path.
fn push_attributes(
    alloc: Global,
    logical: &Option<Text>,
    set: &SqlSet,
    to: &mut Items<(Text, Node)>,
) -> Result<(), NoMemory>
    ensures { OnOk result (to.new ≡ to.old ++ placed_keys logical.now set.now) }
{
    let pairs = set.attributes.as_slice();
    to.append(keys_of(alloc, Keys::OfSet, pairs)?)?;
    push_path(alloc, logical, pairs, to)
}

#[tactic(auto, unfolding(crate::specs::SqlTree::heading))]
fn heading(alloc: Global, set: &SqlSet) -> Result<Node, NoMemory>
    ensures { IfOk result (λ node. node ≡ heading set.now) }
{
    let pairs = set.attributes.as_slice();
    let asked = reactions(alloc, set)?;
    let made = no_statement(alloc, pairs)?;
    let mut keys = own_keys(alloc, set, asked, made)?;
    keys.append(keys_of(alloc, Keys::OfHeading, pairs)?)?;
    Ok(Node::Map(keys))
}

#[tactic(auto, unfolding(crate::specs::SqlTree::elsewhere))]
fn elsewhere(alloc: Global, logical: &Option<Text>, set: &SqlSet) -> Result<Node, NoMemory>
    ensures { IfOk result (λ node. node ≡ elsewhere logical.now set.now) }
{
    let asked = reactions(alloc, set)?;
    let mut keys = own_keys(alloc, set, asked, Items::new(alloc))?;
    push_attributes(alloc, logical, set, &mut keys)?;
    Ok(Node::Map(keys))
}

#[tactic(auto, unfolding(crate::specs::SqlTree::here))]
fn here(alloc: Global, logical: &Option<Text>, set: &SqlSet) -> Result<Node, NoMemory>
    ensures { IfOk result (λ node. node ≡ here logical.now set.now) }
{
    let asked = conditions(alloc, set)?;
    let made = changes(alloc, set.body.as_str(), set.attributes.as_slice())?;
    let mut keys = own_keys(alloc, set, asked, made)?;
    push_attributes(alloc, logical, set, &mut keys)?;
    push_rollback(alloc, &set.rollback, &mut keys)?;
    Ok(Node::Map(keys))
}

#[tactic(auto, unfolding(crate::specs::SqlTree::change_set))]
fn change_set(alloc: Global, logical: &Option<Text>, set: &SqlSet) -> Result<Node, NoMemory>
    ensures { IfOk result (λ node. node ≡ change_set logical.now set.now) }
{
    let mut parts = Items::new(alloc);
    push_entry(alloc, "heading", heading(alloc, set)?, &mut parts)?;
    push_entry(
        alloc,
        "elsewhere",
        elsewhere(alloc, logical, set)?,
        &mut parts,
    )?;
    push_entry(alloc, "here", here(alloc, logical, set)?, &mut parts)?;
    Ok(Node::Map(parts))
}

/// A changeset of a file with that logical path, as an item of the changelog.
#[tactic(auto, unfolding(crate::specs::SqlTree::item))]
pub fn item(alloc: Global, logical: &Option<Text>, set: &SqlSet) -> Result<Node, NoMemory>
    ensures { IfOk result (λ node. node ≡ item logical.now set.now) }
{
    let line = set.line;
    let digits = format!(in alloc; "{line}")?;
    let keys = change_set(alloc, logical, set)?;
    let numbered = under(alloc, digits.as_str(), keys)?;
    let node = under(alloc, "changeSet", numbered)?;
    Ok(node)
}
