ghost use Rattle.std.specs.List.{list_all};
ghost use Rattle.std.specs.Prelude.{◌≡◌, IfOk, option_copied, true};
ghost use Rattle.lq_base.specs.Number.{if_there};
ghost use Rattle.lq_tree.specs.Look.{Reads};
ghost use Rattle.lq_any.specs.AnyChange.{is_for};
ghost use Rattle.lq_kinds.specs.ReadFor.{is_block_for, is_read_for};
ghost use Rattle.lq_kinds.specs.ChangeSets.{ReadsSet, heading, is_quoting, notes, only_known, path_at, path_in, reaction_in, running, selection, set_of, sums_in};

use crate::change_set::ChangeSet;
use crate::changes::{changes_at, here_at};
use crate::context::{LabelLists, context_at};
use crate::fault::SetFault;
use crate::heading::{Heading, Notes, Running, Selection};
use crate::joined::{comment_or, context_or, labels_or, reaction_or, set_with};
use crate::label::{Labels, is_label};
use crate::rollback::rollback_at;
use lq_base::{Dialect, Items, KindFault, Text};
use lq_cond::{Cond, Reaction};
use lq_model::SqlText;
use lq_tree::{
    Given, Node, Reader, bad, bad_key, each_item, known, optional, optional_by, placed_list,
    required_by,
};
use std::alloc::Global;

const KEYS: [&str; 18] = [
    "id",
    "author",
    "changes",
    "context",
    "contextFilter",
    "labels",
    "dbms",
    "runAlways",
    "runOnChange",
    "failOnError",
    "runInTransaction",
    "ignore",
    "logicalFilePath",
    "objectQuotingStrategy",
    "validCheckSum",
    "comment",
    "preConditions",
    "rollback",
];

/// Reads `objectQuotingStrategy`: names are always quoted.
#[derive(Drop)]
struct Quoting;

/// Reads texts.
#[derive(Drop)]
struct Texts;

fn is_quoting(text: &str) -> bool
    ensures { result ≡ is_quoting text.now }
{
    text == "QUOTE_ALL_OBJECTS"
}

impl Reader for Quoting {
    ghost use Rattle.std.specs.Prelude.{true};
    ghost use Rattle.lq_kinds.specs.ChangeSets.{a_quoting};

    type Read = Text;

    ghost of = { λ _. a_quoting };

    ghost fits = { λ _ _. true };

    fn read(&self, alloc: Global, node: &Node) -> Result<Text, KindFault> {
        let text = Text::given(alloc, node)?;
        if !is_quoting(text.as_str()) {
            return Err(bad(alloc));
        }
        Ok(text)
    }
}

impl Reader for Texts {
    ghost use Rattle.std.specs.Prelude.{true};
    ghost use Rattle.lq_tree.specs.Given.{a_text};

    type Read = Text;

    ghost of = { λ _. a_text };

    ghost fits = { λ _ _. true };

    fn read(&self, alloc: Global, node: &Node) -> Result<Text, KindFault> {
        Text::given(alloc, node)
    }
}

#[tactic(auto, unfolding(crate::specs::ChangeSets::heading))]
fn heading<P: SqlText>(
    alloc: Global,
    node: &Node,
    given: &[Items<u8>],
    dialect: Dialect,
    sql: &P,
) -> Result<Heading, SetFault>
    requires same { P.dialect ≡ dialect }
    ensures read { ReadsSet (heading dialect given.now node.now) result }
    ensures right { IfOk result (λ found. list_all (is_for dialect) found.changes ≡ true) }
{
    let id = required_by(alloc, node, "id", &Labels)?;
    let author = required_by(alloc, node, "author", &Labels)?;
    let changes = changes_at(alloc, node, given, dialect, sql)?;
    Ok(Heading {
        id,
        author,
        changes,
    })
}

#[tactic(auto, unfolding(crate::specs::ChangeSets::selection))]
fn selection(alloc: Global, node: &Node, dialect: Dialect) -> Result<Selection, KindFault>
    ensures { Reads (selection dialect node.now) result }
{
    let context = context_or(alloc, context_at(alloc, node)?)?;
    let labels = labels_or(alloc, optional_by(alloc, node, "labels", &LabelLists)?)?;
    let here = here_at(alloc, node, dialect)?;
    Ok(Selection {
        context,
        labels,
        here,
    })
}

#[tactic(auto, unfolding(crate::specs::ChangeSets::running))]
fn running(alloc: Global, node: &Node) -> Result<Running, KindFault>
    ensures { Reads (running node.now) result }
{
    let run_always: Option<bool> = optional(alloc, node, "runAlways")?;
    let run_on_change: Option<bool> = optional(alloc, node, "runOnChange")?;
    let fail_on_error: Option<bool> = optional(alloc, node, "failOnError")?;
    let in_transaction: Option<bool> = optional(alloc, node, "runInTransaction")?;
    let ignored: Option<bool> = optional(alloc, node, "ignore")?;
    Ok(Running {
        run_always: run_always.unwrap_or(false),
        run_on_change: run_on_change.unwrap_or(false),
        fail_on_error: fail_on_error.unwrap_or(true),
        in_transaction: in_transaction.unwrap_or(true),
        ignored: ignored.unwrap_or(false),
    })
}

/// `logicalFilePath`, and without it the path of the file.
fn path_in(alloc: Global, value: Option<&Node>, path: &str) -> Result<Text, SetFault>
    ensures { ReadsSet (path_in path.now (option_copied value.entry)) result }
{
    let Some(value) = value else {
        return Ok(Text::new(alloc, path)?);
    };
    let Some(text) = value.printed(alloc)? else {
        return Err(SetFault::InKeys(bad_key(alloc, "logicalFilePath")));
    };
    if is_label(text.as_str()) {
        Ok(text)
    } else {
        Err(SetFault::BadPath)
    }
}

#[tactic(auto, unfolding(crate::specs::ChangeSets::path_at))]
fn path_at(alloc: Global, node: &Node, path: &str) -> Result<Text, SetFault>
    ensures { ReadsSet (path_at path.now node.now) result }
{
    path_in(alloc, node.value_at("logicalFilePath"), path)
}

#[tactic(auto, unfolding(crate::specs::ChangeSets::only_known))]
fn only_known(alloc: Global, node: &Node, dialect: Dialect) -> Result<(), KindFault>
    ensures { Reads (only_known dialect node.now) result }
{
    let _ = dialect;
    known(alloc, node, &KEYS)
}

/// A text, or a list of texts.
fn sums_in(alloc: Global, value: Option<&Node>) -> Result<Items<Text>, KindFault>
    ensures { Reads (sums_in (option_copied value.entry)) result }
{
    let mut sums = Items::new(alloc);
    let Some(value) = value else {
        return Ok(sums);
    };
    if let Some(text) = value.printed(alloc)? {
        sums.push(text)?;
        return Ok(sums);
    }
    match value.as_list() {
        Some(nodes) => each_item(alloc, "validCheckSum", nodes, &Texts),
        None => Err(bad_key(alloc, "validCheckSum")),
    }
}

fn reaction_in<P: SqlText>(
    alloc: Global,
    value: Option<&Node>,
    dialect: Dialect,
    sql: &P,
) -> Result<Option<Reaction>, KindFault>
    requires same { P.dialect ≡ dialect }
    ensures { Reads (reaction_in dialect (option_copied value.entry)) result }
{
    let Some(value) = value else {
        return Ok(None);
    };
    match Cond::read(alloc, value, dialect, sql) {
        Ok(reaction) => Ok(Some(reaction)),
        Err(fault) => Err(placed_list(alloc, "preConditions", fault)),
    }
}

#[tactic(auto, unfolding(crate::specs::ChangeSets::notes))]
fn notes<P: SqlText>(
    alloc: Global,
    node: &Node,
    dialect: Dialect,
    sql: &P,
) -> Result<Notes, KindFault>
    requires same { P.dialect ≡ dialect }
    ensures read { Reads (notes dialect node.now) result }
    ensures right { IfOk result (λ found. is_block_for dialect found.rollback ≡ true) }
{
    optional_by(alloc, node, "objectQuotingStrategy", &Quoting)?;
    let valid_sums = sums_in(alloc, node.value_at("validCheckSum"))?;
    let comment = comment_or(alloc, optional(alloc, node, "comment")?)?;
    let reaction = reaction_or(
        alloc,
        reaction_in(alloc, node.value_at("preConditions"), dialect, sql)?,
    );
    let rollback = rollback_at(alloc, node, dialect, sql)?;
    Ok(Notes {
        valid_sums,
        comment,
        reaction,
        rollback,
    })
}

impl ChangeSet {
    /// The changeset of a node of the file at a path: `None` where it is to be ignored. The first
    /// fault is told in the order of the keys (docs/DECISIONS.md). What is read is for the dialect.
    ///
    /// `given` has the bytes of the files that its changes load, in their order, as far as they were
    /// read. The first load for which there are none is answered by `Wants` with its file.
    #[tactic(auto, unfolding(crate::specs::ChangeSets::set_of))]
    pub fn read<P: SqlText>(
        alloc: Global,
        node: &Node,
        dialect: Dialect,
        path: &str,
        sql: &P,
        given: &[Items<u8>],
    ) -> Result<Option<ChangeSet>, SetFault>
        requires same { P.dialect ≡ dialect }
        ensures read { ReadsSet (set_of dialect path.now given.now node.now) result }
        ensures right { IfOk result (λ set. if_there (is_read_for dialect) set ≡ true) }
    {
        only_known(alloc, node, dialect)?;
        let heading = heading(alloc, node, given, dialect, sql)?;
        let selection = selection(alloc, node, dialect)?;
        let running = running(alloc, node)?;
        let path = path_at(alloc, node, path)?;
        let notes = notes(alloc, node, dialect, sql)?;
        if running.ignored {
            return Ok(None);
        }
        let set = set_with(alloc, heading, selection, running, path, notes)?;
        Ok(Some(set))
    }
}
