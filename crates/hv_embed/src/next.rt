// What a partition has, one after another: processors, ports, connections and pages.
ghost use Rattle.std.specs.Prelude.{◌≡◌, ℕ, ◌<◌, ◌≤◌, Bool, true, false, nat_le, length, slice_get};
ghost use Rattle.std.specs.Prelude.{IfSome, IfNone, if◌then◌else◌};
ghost use Rattle.hv_defs.specs.declared.sizes.TheConstants.{MAX_PAGES};
ghost use Rattle.hv_embed.specs.Held.{has_id, has_vp, holds, ids_of, is_held_by, is_pooled};
ghost use Rattle.hv_embed.specs.Next.{IsFirstOfKind, IsNext, IsNextRun, is_after as is_after_of};

use crate::layout::{FIRST, HvPageRun};
use hv_defs::MAX_PAGES;
use hv_partition::{PageKind, Partition};
use std::alloc::Global;

/// What a partition has by ids.
#[derive(Clone, Copy)]
pub enum Links {
    Ports,
    Connections,
}

// Returns the least index after `previous` of a processor. It looks at each index up to that of the last
// processor, of which there are 64.
pub(crate) fn next_vp(partition: &Partition<Global>, previous: u32) -> Option<u32>
    ensures { IsNext (has_vp partition.now) previous result }
{
    let mut left = partition.vp_count();
    for index in 0..FIRST {
        if left == 0 {
            return None;
        }
        if partition.vp(index).is_some() {
            if is_after(previous, index) {
                return Some(index);
            }
            left -= 1;
        }
    }
    None
}

// Returns the least id after `previous` of a port or a connection.
pub(crate) fn next_id(partition: &Partition<Global>, links: Links, previous: u32) -> Option<u32>
    ensures { IsNext (has_id links partition.now) previous result }
{
    let (mut low, mut high) = (0, count_of(partition, links));
    while low < high {
        let mid = low + (high - low) / 2;
        match id_at(partition, links, mid) {
            Some(id) if !is_after(previous, id) => low = mid + 1,
            Some(_) | None => high = mid,
        }
    }
    id_at(partition, links, low)
}

// Returns the number of ports or connections.
fn count_of(partition: &Partition<Global>, links: Links) -> u32
    ensures { result ≡ length (ids_of links partition.now) }
{
    match links {
        Links::Ports => partition.port_count(),
        Links::Connections => partition.conn_count(),
    }
}

// Returns the id at a place among the rising ids of the ports or connections.
fn id_at(partition: &Partition<Global>, links: Links, place: u32) -> Option<u32>
    ensures { result ≡ slice_get (ids_of links partition.now) place }
{
    match links {
        Links::Ports => match partition.port_at(place) {
            Some((id, _)) => Some(id),
            None => None,
        },
        Links::Connections => match partition.conn_at(place) {
            Some((id, _)) => Some(id),
            None => None,
        },
    }
}

// Returns the longest run of pages from the least page after `previous` on.
pub(crate) fn next_run(partition: &Partition<Global>, previous: u64) -> Option<HvPageRun>
    requires { (pooled : Bool) (page : ℕ) → is_held_by partition.now pooled page ≡ true → page < MAX_PAGES }
    ensures { IsNextRun (is_held_by partition.now) previous result }
{
    let from = page_after(previous);
    let loose = first_run(partition, PageKind::Loose, from);
    let pooled = first_run(partition, PageKind::Pooled, from);
    match (loose, pooled) {
        (Some(run), Some(other)) => Some(if run.page <= other.page { run } else { other }),
        (Some(run), None) => Some(run),
        (None, Some(other)) => Some(other),
        (None, None) => None,
    }
}

// Returns the first run of the partition's pages of a kind from this page on.
fn first_run(partition: &Partition<Global>, kind: PageKind, from: u32) -> Option<HvPageRun>
    requires { (page : ℕ) → holds kind partition.now page ≡ true → page < MAX_PAGES }
    ensures none { IfNone result ((page : ℕ) → from ≤ page → holds kind partition.now page ≡ false) }
    ensures some { IfSome result (IsFirstOfKind (holds kind partition.now) (is_pooled kind) from) }
{
    let (first, last) = partition.pages(kind).run_from(from)?;
    Some(HvPageRun {
        page: u64::from(first),
        count: last - first + 1,
        pooled: pooled_in(kind),
    })
}

// Returns 1 if pages of a kind are pooled, and 0 if they are loose.
fn pooled_in(kind: PageKind) -> u8
    ensures { result ≡ if is_pooled kind then 1 else 0 }
{
    match kind {
        PageKind::Loose => 0,
        PageKind::Pooled => 1,
    }
}

// Returns the first page number after `previous`, at most `MAX_PAGES`.
fn page_after(previous: u64) -> u32
    ensures most { result ≤ MAX_PAGES }
    ensures after { (page : ℕ) → page < MAX_PAGES → is_after_of previous page ≡ nat_le result page }
{
    if previous == u64::from(FIRST) {
        0
    } else if previous < u64::from(MAX_PAGES) {
        previous as u32 + 1
    } else {
        MAX_PAGES
    }
}

// Returns whether an id comes after `previous`.
fn is_after(previous: u32, id: u32) -> bool
    ensures { result ≡ is_after_of previous id }
{
    previous == FIRST || previous < id
}
