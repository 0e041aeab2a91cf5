// Comparing a line of an audit with the policy's.
ghost use Rattle.std.specs.Prelude.{◌≡◌, ◌++◌, ℕ, List, IfNone, IfSome, codes, length};
ghost use Rattle.std.specs.declared.alloc.Global.{Global as GlobalValue};
ghost use Rattle.hv_history.specs.declared.entry.Entry.{Entry};
ghost use Rattle.hv_policy.specs.Parts.{reply_of};
ghost use Rattle.hv_text.specs.Audit.{entry_text};
ghost use Rattle.hv_check.specs.Legal.{IsLine};
ghost use Rattle.hv_check.specs.Tail.{IsBehindName, name_in};

use crate::reader::around;
use hv_history::Answer;
use hv_policy::Rule;

/// Returns the text after the line of an event, if the text begins with that line.
///
/// `line` is the policy's line, with its line feed, of an event that has this answer. Without `rules` the
/// name of a rule is not compared.
pub fn behind_line<'a>(text: &'a [u8], line: &[u8], answer: Answer, rules: bool) -> Option<&'a [u8]>
    ensures some { (number : ℕ) (entry : Entry GlobalValue) (output : List ℕ)
        → line.now ≡ entry_text number entry ++ codes "\n" → entry.reply ≡ reply_of answer output
        → IfSome result (λ rest. IsLine rules number entry text.now rest.now) }
    ensures none { (number : ℕ) (entry : Entry GlobalValue) (output : List ℕ)
        → line.now ≡ entry_text number entry ++ codes "\n" → entry.reply ≡ reply_of answer output
        → IfNone result ((rest : List ℕ) → IsLine rules number entry text.now rest → ⊥) }
{
    if rules {
        return behind(text, line);
    }
    match name_in(answer) {
        None => behind(text, line),
        Some(rule) => match behind(text, without_end(line, rule.name().len() + 2)) {
            Some(rest) => behind_name(rest),
            None => None,
        },
    }
}

// Returns the rule that refused an event.
fn name_in(answer: Answer) -> Option<Rule>
    ensures { result ≡ name_in answer }
{
    match answer {
        Answer::Served | Answer::More { .. } => None,
        Answer::Denied { rule, .. } | Answer::Fault { rule } => Some(rule),
    }
}

// Returns a text without this many of its last bytes.
fn without_end(text: &[u8], most: usize) -> &[u8]
    ensures { (before rest : List ℕ) → text.now ≡ before ++ rest → length rest ≡ most → result.now ≡ before }
{
    &text[..text.len().saturating_sub(most)]
}

/// Returns the text after these bytes, if the text begins with them.
pub fn behind<'a>(text: &'a [u8], bytes: &[u8]) -> Option<&'a [u8]>
    ensures some { IfSome result (λ rest. text.now ≡ bytes.now ++ rest.now) }
    ensures none { IfNone result ((rest : List ℕ) → text.now ≡ bytes.now ++ rest → ⊥) }
{
    if bytes.len() > text.len() {
        return None;
    }
    let (front, rest) = text.split_at(bytes.len());
    if front == bytes { Some(rest) } else { None }
}

// Returns the text after the first line feed, if nothing, or a space and other bytes, comes before it.
fn behind_name(text: &[u8]) -> Option<&[u8]>
    ensures some { IfSome result (λ rest. IsBehindName text.now rest.now) }
    ensures none { IfNone result ((rest : List ℕ) → IsBehindName text.now rest → ⊥) }
{
    if text.is_empty() {
        return None;
    }
    if text[0] == b'\n' {
        return Some(&text[1..]);
    }
    if text[0] != b' ' {
        return None;
    }
    match around(&text[1..], b'\n') {
        Some((_, rest)) => Some(rest),
        None => None,
    }
}
