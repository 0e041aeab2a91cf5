// Looks at a partition.
ghost use Rattle.std.specs.Prelude.{◌≡◌};
ghost use Rattle.hv_machine.specs.IsFlat.{IsFlat};
ghost use Rattle.hv_policy.specs.Flat.{Flat};
ghost use Rattle.hv_admit.specs.Served.{TreeInvariant};
ghost use Rattle.hv_admit.specs.Tie.{Refines};
ghost use Rattle.hv_tree.specs.Rows.{content};
ghost use Rattle.hv_looks.specs.Look.{child_seen, owner_seen, partition_seen};
ghost use Rattle.hv_looks.specs.Rows.{has_page as has_page_of};

use crate::tree::tree_of;
use hv_admit::Partitions;
use hv_defs::{Life, MAX_PAGES};
use hv_machine::Machine;
use hv_partition::PageKind;
use hv_privs::Privileges;
use std::alloc::Allocator;

// Every page number is below this.
const MOST: u64 = MAX_PAGES as u64;

/// What a look at a partition shows.
#[derive(Clone, Copy)]
pub struct PartitionLook {
    /// The life state.
    pub life: Life,
    /// The privilege mask.
    pub mask: Privileges,
    /// The parent's id. The root has none.
    pub parent: Option<u64>,
    /// The number of partitions above it: 0 for the root.
    pub depth: u64,
    /// The number of pages in its pool.
    pub pooled: u64,
    /// The number of pooled pages that pay for its children, processors, ports and connections.
    pub in_use: u64,
    /// The number of children.
    pub children: u32,
    /// The number of virtual processors.
    pub vps: u32,
    /// The number of ports.
    pub ports: u32,
    /// The number of connections.
    pub conns: u32,
}

/// Returns the state and the counts of a partition. `None` if there is no such partition.
pub fn partition<A: Allocator>(machine: &Machine<A>, id: u64) -> Option<PartitionLook>
    ensures { (f : Flat) → IsFlat machine.now f → result ≡ partition_seen f id }
{
    partition_in(tree_of(machine), id)
}

fn partition_in<A: Allocator>(tree: &Partitions<A>, id: u64) -> Option<PartitionLook>
    requires { TreeInvariant tree.now }
    ensures { (f : Flat) → Refines tree.now f → result ≡ partition_seen f id }
{
    let Some(partition) = tree.get(id) else {
        return None;
    };
    let Some(depth) = tree.depth_of(id) else {
        unreachable!()
    };
    let Some(children) = tree.children_of(id) else {
        unreachable!()
    };
    Some(PartitionLook {
        life: partition.life(),
        mask: partition.mask(),
        parent: tree.parent_of(id),
        depth,
        pooled: partition.pages(PageKind::Pooled).count(),
        in_use: partition.in_use(children),
        children,
        vps: partition.vp_count(),
        ports: partition.port_count(),
        conns: partition.conn_count(),
    })
}

/// Returns the least id above `previous` among a partition's children, or 0 if there is none.
///
/// This is what HvGetNextChildPartition answers. To walk over all children, start from 0 and pass each answer
/// to the next call. `None` if there is no such partition.
pub fn child_after<A: Allocator>(machine: &Machine<A>, parent: u64, previous: u64) -> Option<u64>
    ensures { (f : Flat) → IsFlat machine.now f → result ≡ child_seen f parent previous }
{
    let tree = tree_of(machine);
    if !tree.contains(parent) {
        return None;
    }
    match tree.child_after(parent, previous) {
        Some(child) => Some(child),
        None => Some(0),
    }
}

/// Returns the partition that has a page, loose or pooled.
///
/// `None` if boot gave no such page. The time is proportional to the number of ids given to partitions so
/// far.
pub fn page_owner<A: Allocator>(machine: &Machine<A>, page: u64) -> Option<u64>
    ensures { (f : Flat) → IsFlat machine.now f → result ≡ owner_seen f page }
{
    let tree = tree_of(machine);
    if page >= MOST {
        return None;
    }
    let number = page as u32;
    for id in 0..machine.next_id() {
        if has_page(tree, id, number) {
            return Some(id);
        }
    }
    None
}

// Returns whether the partition exists and has the page, loose or pooled.
fn has_page<A: Allocator>(tree: &Partitions<A>, id: u64, page: u32) -> bool
    ensures { result ≡ has_page_of page (content tree.now id) }
{
    match tree.get(id) {
        Some(partition) => {
            partition.pages(PageKind::Loose).holds(page)
                || partition.pages(PageKind::Pooled).holds(page)
        }
        None => false,
    }
}
