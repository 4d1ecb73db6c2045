ghost use Rattle.std.specs.BTreeMap.{insert_entry};
ghost use Rattle.std.specs.Cmp.Lexicographic.{slice_cmp};
ghost use Rattle.std.specs.List.{insert};
ghost use Rattle.std.specs.Ordering.{nat_cmp};
ghost use Rattle.std.specs.Prelude.{◌≡◌, ◌≤◌, IfSome, OnSome, length};
ghost use Rattle.lq_tree.specs.declared.node.Node.{Node as Tree};

use lq_base::Text;
use lq_tree::Node;
use std::cmp::Ordering;

/// A map with more members is not read here, since a member's place is looked for from the front.
const MOST_MEMBERS: usize = 64;

/// Where a key goes among others, which are in order: None where it is one of them.
fn place_of(entries: &[(Text, Node)], key: &str) -> Option<usize>
    ensures within { IfSome result (λ place. place ≤ length entries.now) }
    ensures goes { IfSome result (λ place. (node : Tree) → insert_entry (slice_cmp nat_cmp)
        entries.now key.now node ≡ insert entries.now place (key.now, node)) }
{
    for (place, entry) in entries.iter().enumerate() {
        match key.cmp(entry.0.as_str()) {
            Ordering::Less => return Some(place),
            Ordering::Equal => return None,
            Ordering::Greater => continue,
        }
    }
    Some(entries.len())
}

/// Puts a new member in its place. None where its key is there, where there are too many, or where
/// there is no memory.
pub fn put(entries: &mut Vec<(Text, Node)>, key: Text, node: Node) -> Option<()>
    ensures { OnSome result (entries.new.items
        ≡ insert_entry (slice_cmp nat_cmp) entries.old.items key node) }
{
    if entries.len() == MOST_MEMBERS {
        return None;
    }
    let place = place_of(entries.as_slice(), key.as_str())?;
    match entries.insert(place, (key, node)) {
        Ok(()) => Some(()),
        Err(_) => None,
    }
}
