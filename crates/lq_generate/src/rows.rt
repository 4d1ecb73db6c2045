ghost use Rattle.std.specs.Option.{option_copied, option_map};
ghost use Rattle.std.specs.Prelude.{[], ◌++◌, ◌∷◌, ◌≡◌, IfOk};
ghost use Rattle.lq_tree.specs.declared.node.Node.{Text as TextNode};
ghost use Rattle.lq_generate.specs.Created.{if_true};
ghost use Rattle.lq_generate.specs.Types.{present, schema_at, under};

use lq_base::{Items, Name, NoMemory, Text};
use lq_tree::Node;
use std::alloc::Global;

/// The entries of a map, and one more.
pub fn with_node(
    alloc: Global,
    entries: Items<(Text, Node)>,
    key: &str,
    node: Node,
) -> Result<Items<(Text, Node)>, NoMemory>
    ensures { IfOk result (λ more. more ≡ entries ++ (key.now, node) ∷ []) }
{
    let mut more = entries;
    let key = Text::new(alloc, key)?;
    more.push((key, node))?;
    Ok(more)
}

/// The entries of a map, and a text at one more key.
pub fn with_text(
    alloc: Global,
    entries: Items<(Text, Node)>,
    key: &str,
    text: &str,
) -> Result<Items<(Text, Node)>, NoMemory>
    ensures { IfOk result (λ more. more ≡ entries ++ (key.now, TextNode text.now) ∷ []) }
{
    let text = Text::new(alloc, text)?;
    with_node(alloc, entries, key, Node::Text(text))
}

/// The entries of a map, and one more if there is something to stand at its key.
pub fn with_some(
    alloc: Global,
    entries: Items<(Text, Node)>,
    key: &str,
    node: Option<Node>,
) -> Result<Items<(Text, Node)>, NoMemory>
    ensures { IfOk result (λ more. more ≡ entries ++ present ((key.now, node) ∷ [])) }
{
    match node {
        Some(node) => with_node(alloc, entries, key, node),
        None => Ok(entries),
    }
}

/// The entries of a map, and a name at one more key if there is one.
pub fn with_name(
    alloc: Global,
    entries: Items<(Text, Node)>,
    key: &str,
    name: Option<&Name>,
) -> Result<Items<(Text, Node)>, NoMemory>
    ensures { IfOk result (λ more. more
        ≡ entries ++ present ((key.now, option_map (λ n. TextNode n) (option_copied name.entry))
        ∷ [])) }
{
    match name {
        Some(name) => with_text(alloc, entries, key, name.as_key()),
        None => Ok(entries),
    }
}

/// The entries of a map, and the name's schema at one more key unless it is `public`.
pub fn with_schema(
    alloc: Global,
    entries: Items<(Text, Node)>,
    key: &str,
    name: &Name,
) -> Result<Items<(Text, Node)>, NoMemory>
    ensures { IfOk result (λ more. more
        ≡ entries ++ present ((key.now, schema_at name.now) ∷ [])) }
{
    if !name.is_elsewhere() {
        return Ok(entries);
    }
    with_text(alloc, entries, key, name.schema())
}

/// A map of one key.
pub fn under(alloc: Global, key: &str, node: Node) -> Result<Node, NoMemory>
    ensures { IfOk result (λ made. made ≡ under key.now node) }
{
    let entries = with_node(alloc, Items::new(alloc), key, node)?;
    Ok(Node::Map(entries))
}

/// True, or nothing.
pub fn true_if(so: bool) -> Option<Node>
    ensures { result ≡ if_true so }
{
    if so { Some(Node::Truth(true)) } else { None }
}
