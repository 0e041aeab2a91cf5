// A session compared with a run of a script, and its answers in JSON.
ghost use Rattle.std.specs.Prelude.{◌≡◌, ◌≤◌, ◌++◌, ℕ, Bool, List, Option, Some, None, Ok, All, length};
ghost use Rattle.std.specs.Prelude.{true, false};
ghost use Rattle.std.specs.Io.KnownBytes.{Appends};
ghost use Rattle.hv_asm.specs.Text.{script_meant};
ghost use Rattle.hv_run.specs.Written.{HasWritten};
ghost use Rattle.hv_script.specs.declared.script.TheConstants.{MOST_BYTES as MOST};
ghost use Rattle.hv_serve.specs.Json.{IsOneLine};
ghost use Rattle.hv_serve.specs.Law.{IsServed, is_done, script_in, told_in};
ghost use Rattle.hv_serve.specs.Session.{AreTurns, HasServed, Served, Turn, end_text, history_of};
ghost use Rattle.hv_serve.specs.declared.form.Form.TheVariants.{Text, Json};

/// A session writes what a serial run writes.
///
/// Its answers to the lines that were done, with the count of events after them, are what a serial run of
/// these lines as a script writes, provided that the host refused nothing. Lines by names are the lines that
/// they mean. Faulty lines and tables between them change nothing. A session in which all lines were done
/// therefore wrote what a serial run of its whole input writes, or of the script that it means.
pub fn a_session_is_a_serial_run()
    ensures done { (names : Bool) (turns : List Turn) (now : Served)
        → AreTurns Text names 1 None turns (Some now) → All (λ turn. IsServed turn.outcome) turns
        → length (script_in names turns) ≤ MOST
        → (old new : Option (List ℕ)) → Appends old new (told_in turns ++ end_text (length now.kept.history))
        → HasWritten (script_in names turns) true false old new }
    ensures whole { (text : List ℕ) (old new : Option (List ℕ))
        (session : HasServed Text false (Some text) old new) (now : Served) → session.now ≡ Some now
        → All (λ turn. is_done turn.outcome ≡ true) session.turns → length text ≤ MOST
        → HasWritten text true false old new }
    ensures named { (text script : List ℕ) (old new : Option (List ℕ))
        (session : HasServed Text true (Some text) old new) (now : Served) → session.now ≡ Some now
        → All (λ turn. is_done turn.outcome ≡ true) session.turns → script_meant text ≡ Ok script
        → HasWritten script true false old new }
{}

/// Each answer in JSON is one line.
pub fn an_answer_in_json_is_one_line()
    ensures { (names : Bool) (turns : List Turn) (now : Option Served)
        → AreTurns Json names 1 None turns now → All (λ turn. IsOneLine turn.answer) turns }
{}
