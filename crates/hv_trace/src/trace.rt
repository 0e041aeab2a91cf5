// Tracing a script, from its text to an exit status.
ghost use Rattle.std.specs.Prelude.{◌≡◌, ◌≢◌, true, IfNone, IfSome};
ghost use Rattle.hv_check.specs.Legal.{IsLegalOf};
ghost use Rattle.hv_explain.specs.Followed.{HasFollowedText};
ghost use Rattle.hv_explain.specs.Part.{FollowsPartOf, HasPutPart, TellsPartOf};
ghost use Rattle.hv_explain.specs.Written.{HasExplainedText};
ghost use Rattle.hv_run.specs.Failure.{CanRun};
ghost use Rattle.hv_trace.specs.Trace.{traces};

use crate::lines::Lines;
use crate::object::Tracer;
use hv_explain::{explain_with, follow_with};
use hv_run::{Exit, Failure, tell};
use std::alloc::Global;
use std::io::Write;

/// Runs a script, and writes a JSON object about each event in a line on `out`.
///
/// Without an audit the events are those of the script's lines, one after another, as `explain_text` of
/// `hv_explain` runs them. With an audit they are its events, as `follow_text` of that crate takes them. If
/// not everything runs, this function writes what those two write.
pub fn trace_text<W: Write, E: Write>(
    alloc: Global,
    script: &[u8],
    audit: Option<&[u8]>,
    out: &mut W,
    err: &mut E,
) -> Exit
    ensures script { IfNone audit.entry (result ≡ Exit.Done → HasExplainedText traces script.now
        (W.contents out.old)
        (W.contents out.new)) }
    ensures audit { IfSome audit.entry (λ audit. result ≡ Exit.Done
        → HasFollowedText traces script.now audit.now (W.contents out.old) (W.contents out.new)) }
    ensures failed_script { IfNone audit.entry (result ≢ Exit.Done
        → HasPutPart (TellsPartOf traces script.now) (W.contents out.old) (W.contents out.new)) }
    ensures failed_audit { IfSome audit.entry (λ audit. result ≢ Exit.Done
        → IsLegalOf true true script.now audit.now
        → HasPutPart (FollowsPartOf traces script.now audit.now) (W.contents out.old)
        (W.contents out.new)) }
    ensures legal { IfSome audit.entry (λ audit. result ≡ Exit.Done
        → IsLegalOf true true script.now audit.now) }
    ensures illegal { IfSome audit.entry (λ audit. result ≡ Exit.Script
        → IsLegalOf true true script.now audit.now → ⊥) }
    ensures silent { IfNone audit.entry (result ≡ Exit.Script → out.new ≡ out.old) }
    ensures faulty { IfNone audit.entry (result ≡ Exit.Script → CanRun script.now → ⊥) }
    ensures no_usage { result ≢ Exit.Usage }
{
    let Ok(lines) = Lines::read(alloc, script) else {
        return tell(Failure::Memory, err);
    };
    let mut tracer = Tracer::new(lines);
    match audit {
        None => explain_with(alloc, &mut tracer, script, out, err),
        Some(audit) => follow_with(alloc, &mut tracer, script, audit, out, err),
    }
}
