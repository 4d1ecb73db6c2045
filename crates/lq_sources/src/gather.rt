use crate::fault::{Lack, What};
use lq_base::{Items, KindFault};
use lq_paths::Format;
use lq_tree::Node;
use std::alloc::Global;

/// What a loading does with files, but for their includes and properties.
pub trait Gather {
    ghost use Rattle.lq_tree.specs.Look.{Reads};
    ghost use Rattle.lq_sources.specs.Faults.{IsKept, IsMade, Makes};
    ghost use Rattle.lq_sources.specs.Items.{Meaning};

    /// What it gathers.
    type Gathered: Drop;

    /// What its calls mean.
    ghost means: { Self → Meaning Self.Gathered };

    /// The tree of a file's bytes.
    fn read_tree(&self, alloc: Global, format: Format, bytes: &[u8]) -> Result<Node, What>
        ensures { IsMade ((means self.now).tree format bytes.now) result };

    /// Whether a property is for the dialect, by its map.
    fn is_here(&self, alloc: Global, node: &Node) -> Result<bool, KindFault>
        ensures { Reads ((means self.now).here node.now) result };

    /// Gathers what stands at the key of an item that is no include, no includeAll and no property,
    /// with the bytes of the files that it wanted so far. The paths of faults begin with the key. Where
    /// it wants a file more, nothing is gathered.
    fn gather(
        &self,
        alloc: Global,
        given: &[Items<u8>],
        is_root: bool,
        path: &str,
        key: &str,
        node: &Node,
        gathered: &mut Self::Gathered,
    ) -> Result<(), Lack>
        ensures made { Makes
            ((means self.now).gathers given.now is_root path.now key.now node.now gathered.old)
            result gathered.new }
        ensures kept { IsKept result gathered.old gathered.new };
}
