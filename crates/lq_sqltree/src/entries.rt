ghost use Rattle.std.specs.Prelude.{◌≡◌, [], ◌∷◌, ◌++◌, IfOk, OnOk};
ghost use Rattle.lq_tree.specs.declared.node.Node.{Text as TextNode};
ghost use Rattle.lq_sqltree.specs.SqlTree.{under};

use lq_base::{Items, NoMemory, Text};
use lq_tree::Node;
use std::alloc::Global;

/// A key with its value.
pub fn entry(alloc: Global, key: &str, value: Node) -> Result<(Text, Node), NoMemory>
    ensures { IfOk result (λ made. made ≡ (key.now, value)) }
{
    Ok((Text::new(alloc, key)?, value))
}

/// A key with a text.
pub fn text_entry(alloc: Global, key: &str, text: &str) -> Result<(Text, Node), NoMemory>
    ensures { IfOk result (λ made. made ≡ (key.now, TextNode text.now)) }
{
    entry(alloc, key, Node::Text(Text::new(alloc, text)?))
}

/// Appends a key with its value.
pub fn push_entry(
    alloc: Global,
    key: &str,
    value: Node,
    to: &mut Items<(Text, Node)>,
) -> Result<(), NoMemory>
    ensures { OnOk result (to.new ≡ to.old ++ (key.now, value) ∷ []) }
{
    to.push(entry(alloc, key, value)?)?;
    Ok(())
}

/// Appends a key with a text.
pub fn push_text(
    alloc: Global,
    key: &str,
    text: &str,
    to: &mut Items<(Text, Node)>,
) -> Result<(), NoMemory>
    ensures { OnOk result (to.new ≡ to.old ++ (key.now, TextNode text.now) ∷ []) }
{
    to.push(text_entry(alloc, key, text)?)?;
    Ok(())
}

/// A map of one key.
pub fn under(alloc: Global, key: &str, value: Node) -> Result<Node, NoMemory>
    ensures { IfOk result (λ node. node ≡ under key.now value) }
{
    let mut entries = Items::new(alloc);
    push_entry(alloc, key, value, &mut entries)?;
    Ok(Node::Map(entries))
}
