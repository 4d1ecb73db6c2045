ghost use Rattle.std.specs.Prelude.{◌≡◌};
ghost use Rattle.lq_sources.specs.Faults.{IsMade};
ghost use Rattle.lq_sqltree.specs.SqlTree.{sql_tree};
ghost use Rattle.lq_tree.specs.Json.{json_tree};
ghost use Rattle.lq_yaml.specs.Yaml.{yaml_tree};
ghost use Rattle.lq_contents.specs.Trees.{file_tree, in_json, in_sql, in_yaml, what_of_json, what_of_sql, what_of_yaml};

use lq_base::KindFault;
use lq_json::read_json;
use lq_paths::Format;
use lq_sources::What;
use lq_sqltree::{SqlTreeFault, read_sql_tree};
use lq_tree::{Node, TreeFault};
use lq_yaml::{YamlFault, read_yaml};
use std::alloc::Global;

fn what_of_json(fault: TreeFault) -> What
    ensures { result ≡ what_of_json fault }
{
    match fault {
        TreeFault::NotJson => What::NotJson,
        TreeFault::FloatNumber => What::FloatNumber,
        TreeFault::OutOfMemory => What::Key(KindFault::OutOfMemory),
    }
}

fn in_json(read: Result<Node, TreeFault>) -> Result<Node, What>
    ensures { result ≡ in_json read }
{
    match read {
        Ok(tree) => Ok(tree),
        Err(fault) => Err(what_of_json(fault)),
    }
}

fn json_of(alloc: Global, bytes: &[u8]) -> Result<Node, What>
    ensures { IsMade (in_json (json_tree bytes.now)) result }
{
    in_json(read_json(alloc, bytes))
}

fn what_of_yaml(fault: YamlFault) -> What
    ensures { result ≡ what_of_yaml fault }
{
    match fault {
        YamlFault::NotUtf8 => What::NotUtf8,
        YamlFault::Line(n) => What::Line(n),
        YamlFault::TooDeep => What::TooDeep,
        YamlFault::OutOfMemory => What::Key(KindFault::OutOfMemory),
    }
}

fn in_yaml(read: Result<Node, YamlFault>) -> Result<Node, What>
    ensures { result ≡ in_yaml read }
{
    match read {
        Ok(tree) => Ok(tree),
        Err(fault) => Err(what_of_yaml(fault)),
    }
}

fn yaml_of(alloc: Global, bytes: &[u8]) -> Result<Node, What>
    ensures { IsMade (in_yaml (yaml_tree bytes.now)) result }
{
    in_yaml(read_yaml(alloc, bytes))
}

fn what_of_sql(fault: SqlTreeFault) -> What
    ensures { result ≡ what_of_sql fault }
{
    match fault {
        SqlTreeFault::NoHeader => What::NoHeader,
        SqlTreeFault::Line(n) => What::Line(n),
        SqlTreeFault::OutOfMemory => What::Key(KindFault::OutOfMemory),
    }
}

fn in_sql(read: Result<Node, SqlTreeFault>) -> Result<Node, What>
    ensures { result ≡ in_sql read }
{
    match read {
        Ok(tree) => Ok(tree),
        Err(fault) => Err(what_of_sql(fault)),
    }
}

fn sql_of(alloc: Global, bytes: &[u8]) -> Result<Node, What>
    ensures { IsMade (in_sql (sql_tree bytes.now)) result }
{
    in_sql(read_sql_tree(alloc, bytes))
}

/// The tree of a file's bytes.
pub fn tree_of(alloc: Global, format: Format, bytes: &[u8]) -> Result<Node, What>
    ensures { IsMade (file_tree format bytes.now) result }
{
    match format {
        Format::Json => json_of(alloc, bytes),
        Format::Yaml => yaml_of(alloc, bytes),
        Format::Sql => sql_of(alloc, bytes),
    }
}
