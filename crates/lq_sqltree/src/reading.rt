ghost use Rattle.std.specs.Prelude.{◌≡◌, ◌⊎◌, Err, IfOk, map};
ghost use Rattle.std.specs.Str.Lines.{lines};
ghost use Rattle.lq_sqlfile.specs.File.{file_of};
ghost use Rattle.lq_sqlfile.specs.declared.fault.SqlFault.TheVariants as sql;
ghost use Rattle.lq_sqltree.specs.SqlTree.{item, sql_tree, tree_of};
ghost use Rattle.lq_sqltree.specs.declared.fault.SqlTreeFault.TheVariants.{OutOfMemory};

use crate::change_set::item;
use crate::entries::under;
use crate::fault::SqlTreeFault;
use lq_base::{Items, NoMemory, Text};
use lq_sqlfile::{SqlFault, SqlFile, SqlSet, read_sql};
use lq_tree::Node;
use std::alloc::Global;

/// The longest file that is read.
const MOST_BYTES: usize = 16_777_216;

fn items(alloc: Global, logical: &Option<Text>, sets: &[SqlSet]) -> Result<Items<Node>, NoMemory>
    ensures { IfOk result (λ nodes. nodes ≡ map (item logical.now) sets.now) }
{
    let mut nodes = Items::new(alloc);
    for set in sets {
        nodes.push(item(alloc, logical, set)?)?;
    }
    Ok(nodes)
}

#[tactic(auto, unfolding(crate::specs::SqlTree::tree_of))]
fn tree_of(alloc: Global, file: &SqlFile) -> Result<Node, NoMemory>
    ensures { IfOk result (λ node. node ≡ tree_of file.now) }
{
    let items = items(alloc, &file.logical, file.sets.as_slice())?;
    let node = under(alloc, "databaseChangeLog", Node::List(items))?;
    Ok(node)
}

/// The file, by what its lines say. One of more than 16,777,216 bytes finds no memory.
fn file_in(alloc: Global, bytes: &[u8]) -> Result<SqlFile, SqlFault>
    ensures { (result ≡ Err sql.OutOfMemory) ⊎ (result ≡ file_of (lines bytes.now)) }
{
    if bytes.len() > MOST_BYTES {
        return Err(SqlFault::OutOfMemory);
    }
    read_sql(alloc, bytes)
}

/// The tree of a file of formatted SQL. Each changeset has the keys that it has in JSON and YAML, and
/// stands under the number of the line at which it begins. A file of more than 16,777,216 bytes, which
/// no loading reads, is answered by want of memory.
pub fn read_sql_tree(alloc: Global, bytes: &[u8]) -> Result<Node, SqlTreeFault>
    ensures { (result ≡ Err OutOfMemory) ⊎ (result ≡ sql_tree bytes.now) }
{
    match file_in(alloc, bytes) {
        Ok(file) => Ok(tree_of(alloc, &file)?),
        Err(fault) => Err(SqlTreeFault::from(fault)),
    }
}
