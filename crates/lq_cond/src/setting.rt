ghost use Rattle.std.specs.Prelude.{◌≡◌, IfOk, ◌∷◌, []};
ghost use Rattle.lq_tree.specs.Look.{Reads, within};
ghost use Rattle.lq_cond.specs.Reading.{a_reaction, reaction_named, reaction_of, setting_at};
ghost use Rattle.lq_cond.specs.Stated.{and_more, nothing_stated, reaction_stated};

use crate::cond::{Cond, Reaction};
use crate::nested::inner_cond_at;
use lq_base::{Items, KindFault, NoMemory, OnFail};
use lq_model::SqlText;
use lq_tree::{Node, bad, placed};
use std::alloc::Global;

/// What a key of an item of `preConditions` says.
#[derive(Drop)]
pub(crate) enum Setting {
    Condition(Cond),
    OnFail(OnFail),
    OnError(OnFail),
    /// A message, which is ignored.
    Message,
}

/// What the items of `preConditions` have said so far.
#[derive(Drop)]
pub(crate) struct Stated {
    conds: Items<Cond>,
    on_fail: OnFail,
    on_error: OnFail,
}

impl Stated {
    pub(crate) fn new(alloc: Global) -> Stated
        ensures { result ≡ nothing_stated }
    {
        Stated {
            conds: Items::new(alloc),
            on_fail: OnFail::Halt,
            on_error: OnFail::Halt,
        }
    }

    /// With one more setting: a reaction takes the place of the one before it.
    pub(crate) fn with(self, setting: Setting) -> Result<Stated, NoMemory>
        ensures { IfOk result (λ stated. stated ≡ and_more self (setting ∷ [])) }
    {
        let mut stated = self;
        match setting {
            Setting::Condition(cond) => stated.conds.push(cond)?,
            Setting::OnFail(reaction) => stated.on_fail = reaction,
            Setting::OnError(reaction) => stated.on_error = reaction,
            Setting::Message => (),
        }
        Ok(stated)
    }

    pub(crate) fn reaction(self) -> Reaction
        ensures { result ≡ reaction_stated self }
    {
        let Stated {
            conds,
            on_fail,
            on_error,
        } = self;
        Reaction {
            cond: Cond::And(conds),
            on_fail,
            on_error,
        }
    }
}

fn reaction_named(name: &str) -> Option<OnFail>
    ensures { result ≡ reaction_named name.now }
{
    match name {
        "HALT" => Some(OnFail::Halt),
        "CONTINUE" => Some(OnFail::Continue),
        "MARK_RAN" => Some(OnFail::MarkRan),
        "WARN" => Some(OnFail::Warn),
        _ => None,
    }
}

fn a_reaction(alloc: Global, node: &Node) -> Result<OnFail, KindFault>
    ensures { Reads (a_reaction node.now) result }
{
    let Some(text) = node.as_text() else {
        return Err(bad(alloc));
    };
    match reaction_named(text) {
        Some(reaction) => Ok(reaction),
        None => Err(bad(alloc)),
    }
}

fn reaction_at(alloc: Global, key: &str, node: &Node) -> Result<OnFail, KindFault>
    ensures { Reads (within key.now (a_reaction node.now)) result }
{
    match a_reaction(alloc, node) {
        Ok(reaction) => Ok(reaction),
        Err(fault) => Err(placed(alloc, key, fault)),
    }
}

/// What stands at a key of an item of `preConditions`.
pub(crate) fn setting_at<P: SqlText>(
    alloc: Global,
    key: &str,
    node: &Node,
    sql: &P,
) -> Result<Setting, KindFault>
    ensures { Reads (setting_at P.dialect key.now node.now) result }
{
    match key {
        "onFail" => Ok(Setting::OnFail(reaction_at(alloc, key, node)?)),
        "onError" => Ok(Setting::OnError(reaction_at(alloc, key, node)?)),
        "onFailMessage" | "onErrorMessage" => Ok(Setting::Message),
        _ => Ok(Setting::Condition(inner_cond_at(alloc, key, node, sql)?)),
    }
}
