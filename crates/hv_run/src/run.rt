// A whole run, from the script's bytes to the exit status.
ghost use Rattle.std.specs.Prelude.{◌≡◌, ◌≢◌, ◌<◌, length, Err, IfErr, IfNone, IfSome, IsSome};
ghost use Rattle.std.specs.Prelude.{None, OnErr, OnOk};
ghost use Rattle.std.specs.Io.KnownBytes.{Appends};
ghost use Rattle.hv_history.specs.Kept.{IsRun};
ghost use Rattle.hv_script.specs.declared.script.TheConstants.{MOST_BYTES as MOST};
ghost use Rattle.hv_phases.specs.Begun.{error_of};
ghost use Rattle.hv_run.specs.Failure.{CanRun, IsUnprinted, exit_of, failure_by};
ghost use Rattle.hv_run.specs.Written.{HasPart, HasWritten, HasWrittenPart, told_by};

use crate::failure::{Exit, Failure, tell};
use hv_history::Kept;
use hv_options::Options;
use hv_phases::{LinesDone, run_lines};
use hv_script::{FaultKind, Script, parse};
use hv_text::{audit, table};
use hv_threads::{Gate, Open};
use std::alloc::Global;
use std::io::Write;
use std::sync::Wait;
use std::thread::Threads;

/// Runs a script and prints its audit on `out`, and with `--table` its table.
///
/// If the script didn't all run, one line on `err` says why. After a fault of the script or a refused boot,
/// nothing is written to `out`, nor after a fault of the settlement. A processor stops when the host refuses
/// its event, and the others of its phase continue. The audit of what is kept is written then, too.
pub fn run_text<T: Threads + Wait + Sync, W: Write, E: Write>(
    rt: &T,
    alloc: Global,
    script: &[u8],
    options: &Options<'_>,
    out: &mut W,
    err: &mut E,
) -> Exit
    ensures told { result ≡ Exit.Done → HasWritten script.now options.now.serial options.now.table
        (W.contents out.old) (W.contents out.new) }
    ensures unfinished { result ≡ Exit.Host → HasWrittenPart script.now options.now.serial
        options.now.table (W.contents out.old) (W.contents out.new) }
    ensures long { MOST < length script.now → result ≡ Exit.Script }
    ensures silent { result ≡ Exit.Script → out.new ≡ out.old }
    ensures faulty { result ≡ Exit.Script → CanRun script.now → ⊥ }
    ensures no_usage { result ≢ Exit.Usage }
{
    run_gated(rt, alloc, script, options, &Open, out, err)
}

/// Runs a script as [`run_text`] does, with a gate around each hold of the machine's lock.
///
/// Its hooks run before the lock is taken, and after the receipts are kept.
pub fn run_gated<T: Threads + Wait + Sync, G: Gate, W: Write, E: Write>(
    rt: &T,
    alloc: Global,
    script: &[u8],
    options: &Options<'_>,
    gate: &G,
    out: &mut W,
    err: &mut E,
) -> Exit
    ensures told { result ≡ Exit.Done → HasWritten script.now options.now.serial options.now.table
        (W.contents out.old) (W.contents out.new) }
    ensures unfinished { result ≡ Exit.Host → HasWrittenPart script.now options.now.serial
        options.now.table (W.contents out.old) (W.contents out.new) }
    ensures long { MOST < length script.now → result ≡ Exit.Script }
    ensures silent { result ≡ Exit.Script → out.new ≡ out.old }
    ensures faulty { result ≡ Exit.Script → CanRun script.now → ⊥ }
    ensures no_usage { result ≢ Exit.Usage }
{
    match run_script(rt, alloc, script, options, gate, out) {
        Ok(()) => Exit::Done,
        Err(failure) => tell(failure, err),
    }
}

// Reads a script, boots its machine, runs the lines and prints what happened.
fn run_script<T: Threads + Wait + Sync, G: Gate, W: Write>(
    rt: &T,
    alloc: Global,
    script: &[u8],
    options: &Options<'_>,
    gate: &G,
    out: &mut W,
) -> Result<(), Failure>
    ensures told { OnOk result (HasWritten script.now options.now.serial options.now.table
        (W.contents out.old) (W.contents out.new)) }
    ensures unfinished { OnErr result (HasWrittenPart script.now options.now.serial options.now.table
        (W.contents out.old) (W.contents out.new)) }
    ensures long { MOST < length script.now → result ≡ Err (Failure.Fault 0 FaultKind.Long) }
    ensures silent { IfErr result (λ failure. exit_of failure ≡ Exit.Script → out.new ≡ out.old) }
    ensures faulty { IfErr result (λ failure. exit_of failure ≡ Exit.Script → CanRun script.now → ⊥) }
{
    let Script {
        config,
        limit,
        lines,
    } = parse(alloc, script)?;
    let kept = Kept::boot(alloc, config, limit)?;
    let done = run_lines(rt, gate, kept, lines, options.serial);
    print_run(&done, options.table, out)
}

/// Prints what a run of lines left: the audit, and with `with_table` the table, whether or not they all ran.
///
/// If the settlement found a fault, it prints nothing. Why the lines didn't all run comes before output that
/// couldn't be written.
pub fn print_run<W: Write>(done: &LinesDone, with_table: bool, out: &mut W) -> Result<(), Failure>
    ensures told { OnOk result ((done.now.stop ≡ None) × (done.now.fault ≡ None)
        × Appends (W.contents out.old) (W.contents out.new) (told_by with_table done.now.kept)) }
    ensures part { IfNone done.now.fault (HasPart (told_by with_table done.now.kept) (W.contents out.old)
        (W.contents out.new)) }
    ensures unsettled { IsSome done.now.fault → out.new ≡ out.old }
    ensures why { IfSome (error_of done.now.stop done.now.fault) (λ why. result ≡ Err (failure_by why)) }
    ensures unprinted { error_of done.now.stop done.now.fault ≡ None
        → IfErr result (IsUnprinted with_table) }
    ensures host { IfErr result (λ failure. exit_of failure ≡ Exit.Host) }
    ensures run { IsRun done.now.kept }
{
    // proof: the kept history is a run.
    let _history = done.kept.history();
    match (done.error(), done.fault) {
        (None, _) => print(&done.kept, with_table, out),
        (Some(why), None) => {
            let _ = print(&done.kept, with_table, out);
            Err(Failure::from(why))
        }
        (Some(why), Some(_)) => Err(Failure::from(why)),
    }
}

// Prints the audit, and with `with_table` the table.
fn print<W: Write>(kept: &Kept<Global>, with_table: bool, out: &mut W) -> Result<(), Failure>
    ensures told { OnOk result (Appends (W.contents out.old) (W.contents out.new)
        (told_by with_table kept.now)) }
    ensures part { HasPart (told_by with_table kept.now) (W.contents out.old) (W.contents out.new) }
    ensures unprinted { IfErr result (IsUnprinted with_table) }
{
    // proof: the kept history is a run.
    let _history = kept.history();
    audit(out, kept)?;
    if with_table {
        table(out, kept)?;
    }
    out.flush().map_err(|_| Failure::Write)
}
