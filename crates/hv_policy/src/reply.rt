// The reply to an event.
ghost use Rattle.std.specs.Prelude.{◌≡◌, ◌+◌, ◌≤◌, ◌++◌, [], length};
ghost use Rattle.std.specs.Int.{w64, to_le_bytes};
ghost use Rattle.hv_policy.specs.Parts.{reply_of};

use crate::answer::Answer;
use crate::rule::Rule;
use arrayvec::ArrayVec;
use hv_abi::Status;
use std::marker::Model;

/// The output bytes of one event, at most 256.
#[derive(Debug, Drop)]
pub struct Output {
    bytes: ArrayVec<u8, 256>,
}

impl Model for Output {
    ghost use Rattle.std.specs.Prelude.{List, ℕ};

    ghost Value = { List ℕ };

    ghost view = { λ o. o.bytes.items };
}

impl Output {
    /// Returns an output of no bytes.
    pub fn new() -> Output
        ensures { result ≡ [] }
    {
        Output {
            bytes: ArrayVec::new(),
        }
    }

    /// Appends bytes. An output has at most 256 bytes in all.
    pub fn extend_from_slice(&mut self, bytes: &[u8])
        requires { length self.old + length bytes.now ≤ 256 }
        ensures { self.new ≡ self.old ++ bytes.now }
    {
        let Ok(()) = self.bytes.try_extend_from_slice(bytes) else {
            unreachable!()
        };
    }

    /// Appends a number as 8 bytes, the lowest first.
    pub fn push_number(&mut self, number: u64)
        requires { length self.old + 8 ≤ 256 }
        ensures { self.new ≡ self.old ++ to_le_bytes w64 number }
    {
        self.extend_from_slice(&number.to_le_bytes());
    }

    /// Removes all bytes.
    pub fn clear(&mut self)
        ensures { self.new ≡ [] }
    {
        self.bytes.clear();
    }

    /// Returns the bytes.
    pub fn as_slice(&self) -> &[u8]
        ensures bytes { result.now ≡ self.now }
        ensures most { length self.now ≤ 256 }
    {
        self.bytes.as_slice()
    }
}

/// The reply to an event.
#[derive(Debug, Drop)]
pub enum Reply {
    /// The event is done. For a rep call, its last element is done, and the output is that of this element
    /// alone.
    Served(Output),
    /// The element is done, and the call continues with the element `next`.
    More {
        next: u16,
        output: Output,
    },
    /// The hypercall is refused, and nothing changed: `rule` is the first rule that it breaks.
    Denied {
        rule: Rule,
        status: Status,
        /// The number of elements of a rep call that were done before, as its result value counts them.
        reps: u16,
    },
    /// The access is refused, and nothing changed: `rule` is the first rule that it breaks.
    Fault {
        rule: Rule,
    },
}

impl Reply {
    /// Joins an answer and an output into a reply. Only a served event has output.
    pub fn of(answer: Answer, output: &[u8]) -> Reply
        requires { length output.now ≤ 256 }
        ensures { result ≡ reply_of answer output.now }
    {
        let mut own = Output::new();
        own.extend_from_slice(output);
        match answer {
            Answer::Served => Reply::Served(own),
            Answer::More { next } => Reply::More { next, output: own },
            Answer::Denied { rule, status, reps } => Reply::Denied { rule, status, reps },
            Answer::Fault { rule } => Reply::Fault { rule },
        }
    }

    /// Splits the reply into its answer and its output.
    pub fn parts(&self) -> (Answer, &[u8])
        ensures reply { reply_of result.0 result.1.now ≡ self.now }
        ensures most { length result.1.now ≤ 256 }
    {
        match self {
            Reply::Served(output) => (Answer::Served, output.as_slice()),
            Reply::More { next, output } => (Answer::More { next: *next }, output.as_slice()),
            Reply::Denied { rule, status, reps } => (
                Answer::Denied {
                    rule: *rule,
                    status: *status,
                    reps: *reps,
                },
                &[],
            ),
            Reply::Fault { rule } => (Answer::Fault { rule: *rule }, &[]),
        }
    }
}
