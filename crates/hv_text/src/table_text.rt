// The table.
ghost use Rattle.std.specs.Prelude.{◌≡◌, ◌+◌, ◌*◌, ◌^◌, ◌≤◌, ◌<◌, ◌++◌, length, Option, Some, IsSome, OnOk};
ghost use Rattle.std.specs.Prelude.{IfErr, codes, decimal};
ghost use Rattle.std.specs.FinMap as map;
ghost use Rattle.std.specs.FinSet as set;
ghost use Rattle.std.specs.Io.KnownBytes.{Appends};
ghost use Rattle.hv_machine.specs.IsFlat.{IsFlat};
ghost use Rattle.hv_partition.specs.Partition.{PartitionState, in_use};
ghost use Rattle.hv_policy.specs.Flat.{Flat};
ghost use Rattle.hv_privs.specs.Privileges.{bits_of};
ghost use Rattle.hv_admit.specs.Tie.{part_row};
ghost use Rattle.hv_tree.specs.Rows.{Row, children};
ghost use Rattle.hv_text.specs.Audit.{hex_64};
ghost use Rattle.hv_text.specs.Fault.{IsCut};
ghost use Rattle.hv_text.specs.Rows.{kept_counts, pages_of, rows_text};
ghost use Rattle.hv_text.specs.Table.{counts_text, head_text, life_text, parent_text, partition_text};
ghost use Rattle.hv_text.specs.Table.{table_text};
ghost use Rattle.hv_text.specs.declared.table_text.TheConstants.{LIFE, PART};
ghost use Rattle.hv_text.specs.declared.text.TheConstants.{LINE, MOST_DIGITS};

use crate::fault::PrintFault;
use crate::put::put;
use crate::text::Text;
use hv_admit::Partitions;
use hv_defs::Life;
use hv_history::Kept;
use hv_machine::Machine;
use hv_partition::{PageKind, Partition};
use std::alloc::Allocator;
use std::io::Write;

// More bytes than the first part of a line has, and than half of its counts have.
pub const PART: usize = 128;

// The most bytes of a life state.
pub const LIFE: usize = 9;

/// Writes the table of a history's current partitions, by rising id.
///
/// It doesn't flush. It takes memory for their ids alone, before anything is written.
pub fn table<W: Write, A: Allocator + Clone>(out: &mut W, kept: &Kept<A>) -> Result<(), PrintFault>
    ensures ok { (f : Flat) → IsFlat kept.now.machine f
        → OnOk result (Appends (W.contents out.old) (W.contents out.new) (table_text f)) }
    ensures cut { (f : Flat) → IsFlat kept.now.machine f
        → IfErr result (IsCut (W.contents out.old) (W.contents out.new) (table_text f)) }
{
    table_of(out, kept.machine())
}

/// Writes the table of a machine's partitions, as [`table`] does.
pub fn table_of<W: Write, A: Allocator + Clone>(
    out: &mut W,
    machine: &Machine<A>,
) -> Result<(), PrintFault>
    ensures ok { (f : Flat) → IsFlat machine.now f
        → OnOk result (Appends (W.contents out.old) (W.contents out.new) (table_text f)) }
    ensures cut { (f : Flat) → IsFlat machine.now f
        → IfErr result (IsCut (W.contents out.old) (W.contents out.new) (table_text f)) }
{
    let tree = machine.tree();
    match tree.ids() {
        Ok(ids) => put_rows(out, tree, &ids),
        Err(_) => Err(PrintFault::Memory),
    }
}

// No host has memory for the table of more partitions.
const MOST_ROWS: usize = 0xFFFF_FFFF;

// Writes the lines of all partitions, which have these ids, and the last line.
fn put_rows<W: Write, A: Allocator>(
    out: &mut W,
    tree: &Partitions<A>,
    ids: &[u64],
) -> Result<(), PrintFault>
    requires { ids.now ≡ map.keys tree.now }
    ensures ok { OnOk result (Appends (W.contents out.old) (W.contents out.new) (rows_text tree.now)) }
    ensures cut { IfErr result (IsCut (W.contents out.old) (W.contents out.new) (rows_text tree.now)) }
{
    if ids.len() > MOST_ROWS {
        return Err(PrintFault::Memory);
    }
    let mut line = Text::new();
    let mut written = 0;
    let mut pages = 0;
    for id in ids {
        pages += set_row(&mut line, tree, *id);
        put(out, &line, &mut written)?;
    }
    line.clear();
    line.push_text(b"pages ");
    line.push_wide(pages);
    line.push_text(b"\n");
    put(out, &line, &mut written)
}

// Sets the text to the line of the partition with this id, with its line feed. Returns its number of pages.
#[tactic(auto, unfolding(crate::specs::Table::partition_text))]
fn set_row<A: Allocator>(line: &mut Text, tree: &Partitions<A>, id: u64) -> u128
    requires { IsSome (map.get tree.now id) }
    ensures text { (row : Row PartitionState) → map.get tree.now id ≡ Some row
        → line.new ≡ partition_text id (part_row row) (kept_counts (length (children tree.now id)) row.1)
        ++ codes "\n" }
    ensures pages { (row : Row PartitionState) → map.get tree.now id ≡ Some row → result ≡ pages_of row.1 }
    ensures few { result < 2 ^ 65 }
    ensures most { length line.new ≤ LINE }
{
    let Some(partition) = tree.get(id) else {
        unreachable!()
    };
    let Some(count) = tree.children_of(id) else {
        unreachable!()
    };
    set_head(line, id, tree.parent_of(id), partition);
    push_counts(line, count, partition);
    line.push_text(b"\n");
    let loose = partition.pages(PageKind::Loose).count();
    let pooled = partition.pages(PageKind::Pooled).count();
    u128::from(loose) + u128::from(pooled)
}

// Sets the text to the first part of that line, up to the mask.
fn set_head<A: Allocator>(line: &mut Text, id: u64, parent: Option<u64>, partition: &Partition<A>)
    ensures text { line.new ≡ head_text id (part_row (parent, partition.now)) }
    ensures most { length line.new ≤ PART }
{
    line.clear();
    line.push_text(b"partition ");
    line.push_decimal(id);
    line.push_text(b" parent ");
    push_parent(line, parent);
    line.push_text(b" ");
    push_life(line, partition.life());
    line.push_text(b" mask ");
    line.push_bytes(&partition.mask().bits().to_be_bytes());
}

// Adds the counts of a partition with `count` children.
fn push_counts<A: Allocator>(line: &mut Text, count: u32, partition: &Partition<A>)
    requires { length line.old ≤ PART }
    ensures text { line.new ≡ line.old ++ counts_text (kept_counts count partition.now) }
    ensures most { length line.new ≤ length line.old + 2 * PART }
{
    line.push_named(b" loose ", partition.pages(PageKind::Loose).count());
    line.push_named(b" pooled ", partition.pages(PageKind::Pooled).count());
    line.push_named(b" inuse ", partition.in_use(count));
    line.push_named(b" vps ", u64::from(partition.vp_count()));
    line.push_named(b" ports ", u64::from(partition.port_count()));
    line.push_named(b" connections ", u64::from(partition.conn_count()));
}

// Adds the parent. The root has none.
fn push_parent(line: &mut Text, parent: Option<u64>)
    requires { length line.old + MOST_DIGITS ≤ LINE }
    ensures text { line.new ≡ line.old ++ parent_text parent }
    ensures most { length (parent_text parent) ≤ MOST_DIGITS }
{
    match parent {
        None => line.push_text(b"-"),
        Some(parent) => line.push_decimal(parent),
    }
}

fn push_life(line: &mut Text, life: Life)
    requires { length line.old + LIFE ≤ LINE }
    ensures text { line.new ≡ line.old ++ life_text life }
    ensures most { length (life_text life) ≤ LIFE }
{
    match life {
        Life::Created => line.push_text(b"Created"),
        Life::Active => line.push_text(b"Active"),
        Life::Finalized => line.push_text(b"Finalized"),
    }
}
