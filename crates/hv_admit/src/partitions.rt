// The tree of partitions.

use hv_partition::Partition;
use hv_tree::IdTree;

/// All existing partitions by id, each below its parent, with everything that it holds.
pub type Partitions<A> = IdTree<Partition<A>, A>;
