// Charting a script, from its text to an exit status.
ghost use Rattle.std.specs.Prelude.{◌≡◌, ◌≢◌, ◌⊎◌, Err, IfErr, IfOk, IsOk};
ghost use Rattle.hv_explain.specs.Part.{HasPutPart, TellsPartOf};
ghost use Rattle.hv_run.specs.Failure.{CanRun, exit_of};
ghost use Rattle.hv_trace.specs.Framed.{IsFramed};
ghost use Rattle.hv_trace.specs.Perfetto.{HasCharted, charts, closing_text, opening_text};

mod chart;
mod lane;
mod lanes;
mod note;
mod slice;

use crate::boots::try_boot;
use crate::frame::{close, open};
use crate::perfetto::chart::Chart;
use hv_explain::tell_script;
use hv_run::{Exit, Failure, tell};
use std::alloc::Global;
use std::io::Write;

/// Runs a script's lines in order, and writes the run in the Chrome trace event form on `out`.
///
/// The events are those of `explain_text` of `hv_explain`. If not everything runs, the reason goes to `err`,
/// in one line. After a fault of the script or a refused boot, nothing is written to `out`. If the host
/// refuses an event, the array has the events before it. After a failed write, `out` has a first part of an
/// array.
pub fn perfetto_text<W: Write, E: Write>(
    alloc: Global,
    script: &[u8],
    out: &mut W,
    err: &mut E,
) -> Exit
    ensures charted { result ≡ Exit.Done → HasCharted script.now (W.contents out.old) (W.contents out.new) }
    ensures failed { result ≢ Exit.Done → HasPutPart
        (IsFramed opening_text closing_text (TellsPartOf charts script.now)) (W.contents out.old)
        (W.contents out.new) }
    ensures silent { result ≡ Exit.Script → out.new ≡ out.old }
    ensures faulty { result ≡ Exit.Script → CanRun script.now → ⊥ }
    ensures no_usage { result ≢ Exit.Usage }
{
    match prepare(alloc, script) {
        Ok(chart) => write_array(alloc, chart, script, out, err),
        Err(failure) => tell(failure, err),
    }
}

// Creates the teller of a script. `Err` if the script has a fault, or its machine doesn't boot.
fn prepare(alloc: Global, script: &[u8]) -> Result<Chart, Failure>
    ensures runs { IfOk result (λ chart. CanRun script.now) }
    ensures faulty { IfErr result (λ failure. exit_of failure ≡ Exit.Script → CanRun script.now → ⊥) }
{
    try_boot(alloc, script)?;
    match Chart::new(alloc) {
        Ok(chart) => Ok(chart),
        Err(_) => Err(Failure::Memory),
    }
}

// Writes the array of a script that runs.
fn write_array<W: Write, E: Write>(
    alloc: Global,
    mut chart: Chart,
    script: &[u8],
    out: &mut W,
    err: &mut E,
) -> Exit
    requires { CanRun script.now }
    ensures charted { result ≡ Exit.Done → HasCharted script.now (W.contents out.old) (W.contents out.new) }
    ensures failed { result ≢ Exit.Done → HasPutPart
        (IsFramed opening_text closing_text (TellsPartOf charts script.now)) (W.contents out.old)
        (W.contents out.new) }
    ensures status { (result ≡ Exit.Done) ⊎ (result ≡ Exit.Host) }
{
    let opening =
        "[{\"ph\":\"M\",\"name\":\"process_name\",\"pid\":1,\"args\":{\"name\":\"partition 1\"}}\n";
    let Ok(()) = open(opening, out) else {
        return tell(Failure::Write, err);
    };
    let told = tell_script(alloc, &mut chart, script, out);
    close(with_notes(told, chart.is_whole()), "]\n", out, err)
}

// Returns the result of a run. `is_whole` says whether there was memory for all notes.
fn with_notes(told: Result<(), Failure>, is_whole: bool) -> Result<(), Failure>
    ensures ok { IsOk result → IsOk told }
    ensures err { IfErr result (λ failure. (told ≡ Err failure)
        ⊎ (IsOk told × (failure ≡ Failure.Memory))) }
{
    match told {
        Ok(()) if !is_whole => Err(Failure::Memory),
        told => told,
    }
}
