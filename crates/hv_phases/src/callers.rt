// The processors of a script.
ghost use Rattle.std.specs.Prelude.{◌≡◌, [], IfOk};
ghost use Rattle.hv_phases.specs.PassMap.{AreCallersOf, is_key};
ghost use Rattle.hv_phases.specs.Lines.{callers_in};
ghost use Rattle.indexmap.specs.IndexSet.{IsUnique};

use crate::pass_map::key_of;
use hv_policy::Caller;
use hv_script::Line;
use indexmap::IndexSet;
use std::alloc::{AllocError, Global};

/// The processors that lines name, each once, in the order of their first lines.
pub fn callers_of(alloc: Global, lines: &[Line<Global>]) -> Result<Vec<Caller>, AllocError>
    ensures all { IfOk result (λ callers. AreCallersOf lines.now callers.items) }
    ensures order { IfOk result (λ callers. callers.items ≡ callers_in [] lines.now) }
{
    let mut seen = IndexSet::new(alloc);
    for at in 0..lines.len() {
        seen.insert(key_of(lines[at].by))?;
    }
    let keys = keys_in(seen)?;
    let mut callers = Vec::with_capacity(alloc, keys.len())?;
    for place in 0..keys.len() {
        let (part, vp) = keys[place];
        callers.push(Caller { part, vp })?;
    }
    Ok(callers)
}

// Returns the keys of a set, in order.
fn keys_in(seen: IndexSet<(u64, u32)>) -> Result<Vec<(u64, u32)>, AllocError>
    ensures unique { IsUnique is_key seen }
    ensures all { IfOk result (λ keys. keys.items ≡ seen.keys) }
{
    let alloc = *seen.allocator();
    // proof: the keys differ.
    let _count = seen.len();
    seen.into_iter().collect(alloc)
}
