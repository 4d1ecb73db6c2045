ghost use Rattle.std.specs.List.{list_all};
ghost use Rattle.std.specs.Prelude.{◌≡◌, ◌<◌, ◌++◌, ◌∷◌, [], IfOk, OnOk, cond, length, true, vec_len};
ghost use Rattle.lq_deletes.specs.Places.{notes, numbered, AreMarks, Spread, are_below, children_of};

use lq_base::{Items, NoMemory};
use std::alloc::Global;

fn push_if(work: &mut Vec<usize>, mark: bool, node: usize) -> Result<(), NoMemory>
    ensures { OnOk result
        (work.new.items ≡ cond mark (work.old.items ++ node ∷ []) work.old.items) }
{
    if !mark {
        return Ok(());
    }
    work.push(node)?;
    Ok(())
}

/// The marked nodes.
pub fn marked(alloc: Global, marks: &[bool]) -> Result<Vec<usize>, NoMemory>
    ensures { IfOk result (λ work. work.items ≡ numbered (λ mark. mark) 0 marks.now) }
{
    let mut work = Vec::new(alloc);
    for at in 0..marks.len() {
        push_if(&mut work, marks[at], at)?;
    }
    Ok(work)
}

/// The children of the node.
#[tactic(auto, using(crate::proofs::Notes::children_are))]
fn children(edges: &[Items<usize>], node: usize) -> &[usize]
    requires { node < length edges.now }
    ensures { result.now ≡ children_of edges.now node }
{
    edges[node].as_slice()
}

/// Marks the nodes, and those that were not marked are to be looked at.
fn note_all(marks: &mut Vec<bool>, work: &mut Vec<usize>, nodes: &[usize]) -> Result<(), NoMemory>
    requires { are_below (vec_len marks.old) nodes.now ≡ true }
    ensures { OnOk result
        ((marks.new.items, work.new.items) ≡ notes nodes.now (marks.old.items, work.old.items)) }
{
    for node in nodes {
        if !marks[*node] {
            marks[*node] = true;
            work.push(*node)?;
        }
    }
    Ok(())
}

/// Marks all nodes that stand below a marked node, each edge looked at once. The marked nodes are
/// those to look at first.
pub fn spread(
    edges: &[Items<usize>],
    marks: &mut Vec<bool>,
    work: Vec<usize>,
) -> Result<(), NoMemory>
    requires nodes { length edges.now ≡ length marks.old.items }
    requires below { list_all (are_below (length marks.old.items)) edges.now ≡ true }
    requires work { are_below (length marks.old.items) work.items ≡ true }
    requires start { AreMarks work.items marks.old.items }
    ensures { OnOk result (Spread edges.now marks.old.items marks.new.items) }
{
    let mut work = work;
    while let Some(at) = work.pop() {
        note_all(marks, &mut work, children(edges, at))?;
    }
    Ok(())
}
