ghost use Rattle.std.specs.Prelude.{◌≡◌, ◌++◌, IfOk, OnOk};
ghost use Rattle.lq_sqltree.specs.SqlTree.{is_key, is_of_place, is_of_sql, keys_of, names_path, path_key};

use crate::entries::{push_text, text_entry};
use lq_base::{Items, NoMemory, Text};
use lq_tree::Node;
use std::alloc::Global;

/// In which map attributes of a heading are keys.
#[derive(Clone, Copy)]
pub enum Keys {
    /// In the body's `sql` change.
    OfSql,
    /// In the changeset.
    OfSet,
    /// In what the heading says for every database and path.
    OfHeading,
}

/// Whether an attribute says how the body is taken apart.
fn is_of_sql(name: &str) -> bool
    ensures { result ≡ is_of_sql name.now }
{
    name == "splitStatements" || name == "endDelimiter" || name == "stripComments"
}

/// Whether an attribute says something else for each database or path.
fn is_of_place(name: &str) -> bool
    ensures { result ≡ is_of_place name.now }
{
    name == "dbms" || name == "logicalFilePath"
}

fn is_key(which: Keys, name: &str) -> bool
    ensures { result ≡ is_key which name.now }
{
    match which {
        Keys::OfSql => is_of_sql(name),
        Keys::OfSet => !is_of_sql(name),
        Keys::OfHeading => !(is_of_sql(name) || is_of_place(name)),
    }
}

/// The attributes that are keys of that map.
pub fn keys_of(
    alloc: Global,
    which: Keys,
    pairs: &[(Text, Text)],
) -> Result<Items<(Text, Node)>, NoMemory>
    ensures { IfOk result (λ keys. keys ≡ keys_of which pairs.now) }
{
    let mut keys = Items::new(alloc);
    for pair in pairs {
        if is_key(which, pair.0.as_str()) {
            keys.push(text_entry(alloc, pair.0.as_str(), pair.1.as_str())?)?;
        }
    }
    Ok(keys)
}

fn names_path(pairs: &[(Text, Text)]) -> bool
    ensures { result ≡ names_path pairs.now }
{
    pairs
        .iter()
        .any(|pair| pair.0.as_str() == "logicalFilePath")
}

/// Appends the file's logical path, where the heading names none.
pub fn push_path(
    alloc: Global,
    logical: &Option<Text>,
    pairs: &[(Text, Text)],
    to: &mut Items<(Text, Node)>,
) -> Result<(), NoMemory>
    ensures { OnOk result (to.new ≡ to.old ++ path_key logical.now pairs.now) }
{
    let Some(path) = logical else {
        return Ok(());
    };
    if !names_path(pairs) {
        push_text(alloc, "logicalFilePath", path.as_str(), to)?;
    }
    Ok(())
}
