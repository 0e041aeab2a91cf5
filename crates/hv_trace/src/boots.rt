// Whether a script runs.
ghost use Rattle.std.specs.Prelude.{◌≡◌, IfErr, OnOk};
ghost use Rattle.hv_run.specs.Failure.{CanRun, exit_of};

use hv_history::Kept;
use hv_run::{Exit, Failure};
use hv_script::parse;
use std::alloc::Global;

/// Reads a script, and boots its machine. `Err` if the script has a fault, or its machine doesn't boot.
pub(crate) fn try_boot(alloc: Global, script: &[u8]) -> Result<(), Failure>
    ensures runs { OnOk result (CanRun script.now) }
    ensures faulty { IfErr result (λ failure. exit_of failure ≡ Exit.Script → CanRun script.now → ⊥) }
{
    let script = parse(alloc, script)?;
    let _kept = Kept::boot(alloc, script.config, script.limit)?;
    Ok(())
}
