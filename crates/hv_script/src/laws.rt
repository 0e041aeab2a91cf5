// What a reader makes of a recorded line.
ghost use Rattle.std.specs.Prelude.{◌≡◌, true, Ok, Some};
ghost use Rattle.hv_policy.specs.declared.event.Action.{Action};
ghost use Rattle.hv_policy.specs.declared.event.Caller.{Caller};
ghost use Rattle.hv_script.specs.Callers.{callers_of, have_room};
ghost use Rattle.hv_script.specs.Recorded.{IsRecordable, line_text};
ghost use Rattle.hv_script.specs.Script.{SoFar, read_line, with_line};

/// A recorded line reads back as that processor's line with that action.
///
/// This holds wherever the phase has room for the processor. The numbers fit their types, and the input list
/// has at most 4,096 bytes.
pub fn is_read_back<A>()
    ensures { (so_far : SoFar A) (by : Caller) (what : Action A) → IsRecordable by what
        → have_room (callers_of so_far.phase so_far.lines) by ≡ true
        → read_line (Some so_far) (line_text by what) ≡ Ok (Some (with_line so_far by what)) }
{}
