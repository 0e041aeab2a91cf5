// The history: events with their replies.
ghost use Rattle.std.specs.Prelude.{◌≡◌, ◌↔◌, ◌+◌, ◌-◌, ◌<◌, ◌≤◌, ◌++◌, [], ◌∷◌, ℕ, IsTrue, OnOk, Some};
ghost use Rattle.std.specs.Prelude.{false, drop, length, slice_get, vec_len, vec_capacity};
ghost use Rattle.hv_abi.specs.declared.frame.Frame.{Frame as CallFrame};
ghost use Rattle.hv_defs.specs.declared.sizes.TheConstants.{REPS_END};
ghost use Rattle.hv_history.specs.History.{entries, entry_by, room_of};
ghost use Rattle.hv_history.specs.Row.{DifferInRcx, IsPlaced, asking, bytes_at, entry_of, head_at, rcx_in};
ghost use Rattle.hv_history.specs.Row.{with_rcx};
ghost use Rattle.hv_history.specs.Run.{element, restart};
ghost use Rattle.hv_history.specs.declared.entry.Entry.{Entry};
ghost use Rattle.hv_policy.specs.Parts.{next_in, reply_of};
ghost use Rattle.hv_policy.specs.declared.event.Action.TheVariants.{Hypercall};

use crate::entry::{EntryRef, Request, are_equal_replies};
use crate::row::{History, MOST_OUTPUT, Row};
use hv_abi::Frame;
use hv_machine::{Action, Answer, Caller, Event};
use std::alloc::{AllocError, Allocator};
use std::mem;

impl<A: Allocator + Copy> History<A> {
    /// Creates a history without events.
    pub fn new(alloc: A) -> History<A>
        ensures { entries result ≡ [] }
    {
        History {
            rows: Vec::new(alloc),
            heads: Vec::new(alloc),
            outputs: Vec::new(alloc),
        }
    }
}

impl<A: Allocator> History<A> {
    /// The number of events.
    pub fn len(&self) -> usize
        ensures { result ≡ length (entries self.now) }
    {
        self.rows.len()
    }

    /// The event at a place, counted from 0, with its reply.
    pub fn entry(&self, at: usize) -> EntryRef<'_>
        requires { at < length (entries self.now) }
        ensures entry { slice_get (entries self.now) at ≡ Some (entry_by result) }
        ensures index { next_in (reply_of result.answer []) < REPS_END }
        ensures most { length result.output.now ≤ MOST_OUTPUT }
    {
        let row = self.rows[at];
        let head = &self.heads[row.head];
        let (asked, input) = Request::of(&head.what, row.rcx);
        EntryRef {
            by: head.by,
            asked,
            input,
            answer: row.answer,
            output: &self.outputs[row.output..row.output + row.output_len as usize],
        }
    }

    /// Returns how many events from a place on equal those of another history from `place` on, with their
    /// replies. It compares at most `most` of them.
    pub fn common(&self, at: usize, other: &History<A>, place: usize, most: usize) -> usize
        requires here { at + most ≤ length (entries self.now) }
        requires there { place + most ≤ length (entries other.now) }
        ensures most { result ≤ most }
        ensures same { (i : ℕ) → i < result
            → slice_get (entries self.now) (at + i) ≡ slice_get (entries other.now) (place + i) }
        ensures next { result < most
            → slice_get (entries self.now) (at + result) ≡ slice_get (entries other.now) (place + result)
            → ⊥ }
    {
        // The elements of a call share a head. Two heads that were found alike are not compared again.
        let mut alike = None;
        for i in 0..most {
            let one = self.rows[at + i];
            let two = other.rows[place + i];
            let heads = Some((one.head, two.head));
            if alike != heads && !are_alike(&self.heads[one.head], &other.heads[two.head]) {
                return i;
            }
            alike = heads;
            if !self.is_row_of(&one, other, &two) {
                return i;
            }
        }
        most
    }

    // Whether two rows, whose heads are alike, are of the same event with the same reply.
    fn is_row_of(&self, one: &Row, other: &History<A>, two: &Row) -> bool
        requires one { IsPlaced (vec_len self.now.heads) (vec_len self.now.outputs) one.now }
        requires two { IsPlaced (vec_len other.now.heads) (vec_len other.now.outputs) two.now }
        requires alike { asking (head_at self.now.heads.items one.now.head) 0
            ≡ asking (head_at other.now.heads.items two.now.head) 0 }
        ensures { IsTrue result ↔ (entry_of self.now.heads.items self.now.outputs.items one.now
            ≡ entry_of other.now.heads.items other.now.outputs.items two.now) }
    {
        (one.rcx == two.rcx || is_access(&self.heads[one.head].what))
            && are_equal_replies(
                one.answer,
                self.output_of(one),
                two.answer,
                other.output_of(two),
            )
    }

    // The output of a row.
    fn output_of(&self, row: &Row) -> &[u8]
        requires { IsPlaced (vec_len self.now.heads) (vec_len self.now.outputs) row.now }
        ensures { result.now ≡ bytes_at self.now.outputs.items row.now.output row.now.output_len }
    {
        &self.outputs[row.output..row.output + row.output_len as usize]
    }

    /// The number of further events for which there is room, whatever they are.
    pub fn room(&self) -> usize
        ensures { result ≡ room_of self.now }
    {
        let rows = self.rows.capacity() - self.rows.len();
        let heads = self.heads.capacity() - self.heads.len();
        let outputs = (self.outputs.capacity() - self.outputs.len()) / MOST_OUTPUT;
        rows.min(heads).min(outputs)
    }

    /// Makes room for `more` further events, whatever they are.
    pub fn reserve(&mut self, more: usize) -> Result<(), AllocError>
        ensures same { entries self.new ≡ entries self.old }
        ensures room { OnOk result (more ≤ room_of self.new) }
    {
        // No host has more bytes of memory than a `usize` counts.
        let Some(bytes) = more.checked_mul(MOST_OUTPUT) else {
            return Err(AllocError);
        };
        // Most processors of a large script have a single event.
        if self.rows.capacity() == 0 {
            self.rows.reserve_exact(more)?;
            self.heads.reserve_exact(more)?;
        }
        self.rows.reserve(more)?;
        self.heads.reserve(more)?;
        self.outputs.reserve(bytes)
    }

    /// Adds an event, for which there is room, with its reply. The reply comes as its answer and its output.
    pub fn push(&mut self, event: Event<A>, answer: Answer, output: &[u8])
        requires room { 1 ≤ room_of self.old }
        requires most { length output.now ≤ MOST_OUTPUT }
        requires index { next_in (reply_of answer []) < REPS_END }
        ensures pushed { entries self.new ≡ entries self.old
            ++ record { event = event; reply = reply_of answer output.now } ∷ [] }
        ensures room { room_of self.old ≤ room_of self.new + 1 }
    {
        let rcx = rcx_of(&event.what);
        let mut event = event;
        let head = self.place(&mut event);
        self.push_row(head, rcx, answer, output);
    }

    /// Adds the events of another history from a place on, with their replies. There is room for them, and
    /// `event` differs from each of them in RCX alone. It stays as it is, or becomes a head.
    pub fn push_all(&mut self, event: &mut Event<A>, other: &History<A>, from: usize)
        requires from { from ≤ length (entries other.now) }
        requires alike { DifferInRcx event.old (drop from (entries other.now)) }
        requires room { length (entries other.now) ≤ from + room_of self.old }
        ensures pushed { entries self.new ≡ entries self.old ++ drop from (entries other.now) }
        ensures room { room_of self.old ≤ room_of self.new + (length (entries other.now) - from) }
    {
        if from == other.len() {
            return;
        }
        let head = self.place(event);
        for at in from..other.len() {
            let row = other.rows[at];
            let output = &other.outputs[row.output..row.output + row.output_len as usize];
            self.push_row(head, row.rcx, row.answer, output);
        }
    }

    // Returns the place of an event's head. If the event differs from the last head in RCX alone, that head
    // serves, and the event stays. Otherwise it becomes a head, and another event stands in its place.
    fn place(&mut self, event: &mut Event<A>) -> usize
        requires { vec_len self.old.heads < vec_capacity self.old.heads }
        ensures rows { self.new.rows ≡ self.old.rows }
        ensures outputs { self.new.outputs ≡ self.old.outputs }
        ensures same { entries self.new ≡ entries self.old }
        ensures there { result < vec_len self.new.heads }
        ensures head { asking (head_at self.new.heads.items result) (rcx_in event.old.what) ≡ event.old }
        ensures more { vec_len self.new.heads ≤ vec_len self.old.heads + 1 }
        ensures room { vec_capacity self.new.heads ≡ vec_capacity self.old.heads }
    {
        if let Some(last) = self.heads.last() {
            if are_alike(last, event) {
                return self.heads.len() - 1;
            }
        }
        self.heads.push_reserved(mem::replace(event, any_event()));
        self.heads.len() - 1
    }

    // Adds a row, whose head exists. There is room for the row and its output.
    fn push_row(&mut self, head: usize, rcx: u64, answer: Answer, output: &[u8])
        requires rows { vec_len self.old.rows < vec_capacity self.old.rows }
        requires outputs { vec_len self.old.outputs + MOST_OUTPUT ≤ vec_capacity self.old.outputs }
        requires head { head < vec_len self.old.heads }
        requires most { length output.now ≤ MOST_OUTPUT }
        requires index { next_in (reply_of answer []) < REPS_END }
        ensures pushed { entries self.new ≡ entries self.old ++ record {
          event = asking (head_at self.old.heads.items head) rcx;
          reply = reply_of answer output.now;
        } ∷ [] }
        ensures heads { self.new.heads ≡ self.old.heads }
        ensures row { vec_len self.new.rows ≡ vec_len self.old.rows + 1 }
        ensures row_room { vec_capacity self.new.rows ≡ vec_capacity self.old.rows }
        ensures bytes { vec_len self.new.outputs ≤ vec_len self.old.outputs + MOST_OUTPUT }
        ensures byte_room { vec_capacity self.old.outputs ≤ vec_capacity self.new.outputs }
    {
        let start = self.outputs.len();
        append(&mut self.outputs, output);
        self.rows.push_reserved(Row {
            rcx,
            head,
            output: start,
            output_len: output.len() as u16,
            answer,
        });
    }

    // Makes the last event's head ask for another element of its call. Returns the head's place.
    pub(crate) fn restart(&mut self, start: u16) -> usize
        requires some { 0 < length (entries self.old) }
        requires index { start < REPS_END }
        ensures same { entries self.new ≡ entries self.old }
        ensures room { room_of self.new ≡ room_of self.old }
        ensures there { result < vec_len self.new.heads }
        ensures head { (last : Entry A) (frame : CallFrame A)
            → slice_get (entries self.old) (length (entries self.old) - 1) ≡ Some last
            → last.event.what ≡ Hypercall frame
            → head_at self.new.heads.items result ≡ element last.event.by (restart frame start) }
    {
        let row = self.rows[self.rows.len() - 1];
        let event = mem::replace(&mut self.heads[row.head], any_event());
        self.heads[row.head] = at_element(event, row.rcx, start);
        row.head
    }

    // Adds the event in a head with its reply. There is room for it.
    pub(crate) fn push_head(&mut self, head: usize, answer: Answer, output: &[u8])
        requires there { head < vec_len self.old.heads }
        requires room { 1 ≤ room_of self.old }
        requires most { length output.now ≤ MOST_OUTPUT }
        requires index { next_in (reply_of answer []) < REPS_END }
        ensures { entries self.new ≡ entries self.old
            ++ record { event = head_at self.old.heads.items head; reply = reply_of answer output.now } ∷ [] }
    {
        let rcx = rcx_of(&self.heads[head].what);
        self.push_row(head, rcx, answer, output);
    }
}

// An event in the place of one that is taken.
fn any_event<A: Allocator>() -> Event<A> {
    Event {
        by: Caller { part: 0, vp: 0 },
        what: Action::TakeInterrupt,
    }
}

// Adds bytes, for which there is room. Most outputs have none.
fn append<A: Allocator>(outputs: &mut Vec<u8, A>, bytes: &[u8])
    requires { vec_len outputs.old + length bytes.now ≤ vec_capacity outputs.old }
    ensures items { outputs.new.items ≡ outputs.old.items ++ bytes.now }
    ensures len { vec_len outputs.new ≡ vec_len outputs.old + length bytes.now }
    ensures room { vec_capacity outputs.old ≤ vec_capacity outputs.new }
{
    if !bytes.is_empty() {
        outputs.extend_from_slice(bytes).unwrap();
    }
}

// RCX of a call. An access has none.
fn rcx_of<A: Allocator>(what: &Action<A>) -> u64
    ensures { result ≡ rcx_in what.now }
{
    match what.as_access() {
        Ok(_) => 0,
        Err(frame) => frame.rcx,
    }
}

// Whether an action is an access. A call alone has an RCX.
fn is_access<A: Allocator>(what: &Action<A>) -> bool
    ensures access { IsTrue result → (rcx : ℕ) → with_rcx what.now rcx ≡ what.now }
    ensures call { result ≡ false → (rcx : ℕ) → rcx_in (with_rcx what.now rcx) ≡ rcx }
{
    what.as_access().is_ok()
}

// Whether an event differs from a head in RCX alone.
// Inlined: messages in bench/largest.sh.
#[inline(always)]
fn are_alike<A: Allocator>(head: &Event<A>, event: &Event<A>) -> bool
    ensures { IsTrue result ↔ (asking head.now 0 ≡ asking event.now 0) }
{
    if head.by != event.by {
        return false;
    }
    match (&head.what, &event.what) {
        (Action::Hypercall(one), Action::Hypercall(other)) => {
            one.rdx == other.rdx
                && one.r8 == other.r8
                && one.input.as_slice() == other.input.as_slice()
        }
        (Action::ReadMsr(one), Action::ReadMsr(other)) => one == other,
        (Action::WriteMsr(one, value), Action::WriteMsr(other, also)) => {
            one == other && value == also
        }
        (Action::ReadSlot(one), Action::ReadSlot(other))
        | (Action::ClearSlot(one), Action::ClearSlot(other))
        | (Action::ReadFlags(one), Action::ReadFlags(other)) => one == other,
        (Action::ClearFlag(one, flag), Action::ClearFlag(other, also)) => {
            one == other && flag == also
        }
        (Action::TakeInterrupt, Action::TakeInterrupt) => true,
        _ => false,
    }
}

// Returns the head's event, a call, with this RCX and this start index.
fn at_element<A: Allocator>(head: Event<A>, rcx: u64, start: u16) -> Event<A>
    requires { start < REPS_END }
    ensures call { (frame : CallFrame A) → (asking head rcx).what ≡ Hypercall frame
        → result ≡ element head.by (restart frame start) }
    ensures alike { (other : ℕ) → asking result other ≡ asking head other }
{
    let Event { by, what } = head;
    match what {
        Action::Hypercall(frame) => {
            let frame = Frame { rcx, ..frame };
            Event {
                by,
                what: Action::Hypercall(frame.with_start(start)),
            }
        }
        access => Event { by, what: access },
    }
}
