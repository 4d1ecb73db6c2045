ghost use Rattle.std.specs.Prelude.{◌≡◌, IfOk, true};
ghost use Rattle.lq_base.specs.Number.{if_there};
ghost use Rattle.lq_tree.specs.Look.{Reads, within, value_at};
ghost use Rattle.lq_tree.specs.Keys.{at_optional, at_required};

use crate::found::{missing, placed};
use crate::node::Node;
use lq_base::KindFault;
use std::alloc::Global;

/// What reads nodes with more than the node at hand, such as a dialect.
pub trait Reader {
    ghost use Rattle.std.specs.Prelude.{Bool};
    ghost use Rattle.lq_tree.specs.Look.{Taken};

    /// What it reads.
    type Read: Drop;

    /// What each node is read as.
    ghost of: { Self → Taken Self.Read };

    /// What holds of all that is read.
    ghost fits: { Self → Self.Read → Bool };

    /// What the node is read as. The paths of faults begin at the node.
    fn read(&self, alloc: Global, node: &Node) -> Result<Self::Read, KindFault>
        ensures read { Reads (of self.now node.now) result }
        ensures fits { IfOk result (λ given. fits self.now given ≡ true) };
}

/// What is read of the node that stands at `key`.
pub(crate) fn read_at<R: Reader>(
    alloc: Global,
    key: &str,
    node: &Node,
    reader: &R,
) -> Result<R::Read, KindFault>
    ensures read { Reads (within key.now (R.of reader.now node.now)) result }
    ensures fits { IfOk result (λ given. R.fits reader.now given ≡ true) }
{
    match reader.read(alloc, node) {
        Ok(given) => Ok(given),
        Err(fault) => Err(placed(alloc, key, fault)),
    }
}

/// What a reader reads at a key that has to be there: `Missing` where it is not.
pub fn required_by<R: Reader>(
    alloc: Global,
    node: &Node,
    key: &str,
    reader: &R,
) -> Result<R::Read, KindFault>
    ensures read { Reads (at_required key.now (R.of reader.now) (value_at key.now node.now))
        result }
    ensures fits { IfOk result (λ given. R.fits reader.now given ≡ true) }
{
    match node.value_at(key) {
        Some(value) => read_at(alloc, key, value, reader),
        None => Err(missing(alloc, key)),
    }
}

/// What a reader reads at a key that may be there.
pub fn optional_by<R: Reader>(
    alloc: Global,
    node: &Node,
    key: &str,
    reader: &R,
) -> Result<Option<R::Read>, KindFault>
    ensures read { Reads (at_optional key.now (R.of reader.now) (value_at key.now node.now))
        result }
    ensures fits { IfOk result (λ given. if_there (R.fits reader.now) given ≡ true) }
{
    match node.value_at(key) {
        Some(value) => {
            let given = read_at(alloc, key, value, reader)?;
            Ok(Some(given))
        }
        None => Ok(None),
    }
}
