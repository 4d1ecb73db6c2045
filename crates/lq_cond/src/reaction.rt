ghost use Rattle.std.specs.Prelude.{[], ◌≡◌};
ghost use Rattle.lq_tree.specs.Look.{Reads, map_found, within};
ghost use Rattle.lq_tree.specs.Items.{item_path};
ghost use Rattle.lq_cond.specs.Reading.{an_item, each_item, each_key, reaction, setting_at};
ghost use Rattle.lq_cond.specs.Stated.{and_more};

use crate::cond::{Cond, Reaction};
use crate::nested::placed_item;
use crate::setting::{Stated, setting_at};
use lq_base::{Dialect, KindFault, Text};
use lq_model::SqlText;
use lq_tree::{Node, bad};
use std::alloc::Global;

#[tactic(auto, using(crate::proofs::StatedLemmas::key_read))]
fn at_keys<P: SqlText>(
    alloc: Global,
    entries: &[(Text, Node)],
    before: Stated,
    sql: &P,
) -> Result<Stated, KindFault>
    ensures { Reads (map_found (and_more before) (each_key (setting_at P.dialect) entries.now))
        result }
{
    let mut stated = before;
    for entry in entries {
        let setting = setting_at(alloc, entry.0.as_str(), &entry.1, sql)?;
        stated = stated.with(setting)?;
    }
    Ok(stated)
}

fn in_item<P: SqlText>(
    alloc: Global,
    node: &Node,
    before: Stated,
    sql: &P,
) -> Result<Stated, KindFault>
    ensures { Reads (map_found (and_more before) (an_item (setting_at P.dialect) node.now)) result }
{
    match node.as_map() {
        Some(entries) => at_keys(alloc, entries, before, sql),
        None => Err(bad(alloc)),
    }
}

fn at_place<P: SqlText>(
    alloc: Global,
    place: usize,
    node: &Node,
    before: Stated,
    sql: &P,
) -> Result<Stated, KindFault>
    ensures { Reads
        (within (item_path [] place)
        (map_found (and_more before) (an_item (setting_at P.dialect) node.now))) result }
{
    match in_item(alloc, node, before, sql) {
        Ok(stated) => Ok(stated),
        Err(fault) => Err(placed_item(alloc, place, fault)),
    }
}

#[tactic(auto, using(crate::proofs::StatedLemmas::item_stated, crate::proofs::StatedLemmas::item_faulty))]
fn in_items<P: SqlText>(
    alloc: Global,
    nodes: &[Node],
    before: Stated,
    sql: &P,
) -> Result<Stated, KindFault>
    ensures { Reads (map_found (and_more before) (each_item 0 (setting_at P.dialect) nodes.now))
        result }
{
    let mut stated = before;
    for (place, node) in nodes.iter().enumerate() {
        stated = at_place(alloc, place, node, stated, sql)?;
    }
    Ok(stated)
}

impl Cond {
    /// What the value of `preConditions` states: a list whose items are conditions, which all have to
    /// hold, and the reactions `onFail` and `onError`, of which the last ones count. The first fault in
    /// the order of the items and of their keys is `Missing`, `Unknown` or `Bad`; its path begins with
    /// the item's place, as `[0].tableExists.tableName`.
    #[tactic(auto, unfolding(crate::specs::Reading::reaction))]
    pub fn read<P: SqlText>(
        alloc: Global,
        node: &Node,
        dialect: Dialect,
        sql: &P,
    ) -> Result<Reaction, KindFault>
        requires sql { P.dialect ≡ dialect }
        ensures { Reads (reaction dialect node.now) result }
    {
        let Some(nodes) = node.as_list() else {
            return Err(bad(alloc));
        };
        let stated = in_items(alloc, nodes, Stated::new(alloc), sql)?;
        Ok(stated.reaction())
    }
}
