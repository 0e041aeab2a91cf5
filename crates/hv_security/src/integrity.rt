// Integrity and confidentiality of one event: what a processor can change, and what it can learn.
//
// Both are limited to its own partition and that partition's children, except for what it sends through a
// connection and the port that it names. No theorem here assumes that a state is lawful.

ghost use Rattle.std.specs.Prelude.{◌≡◌, ℕ, List};
ghost use Rattle.hv_policy.specs.Flat.{Flat};
ghost use Rattle.hv_policy.specs.Step.{run_from, step};
ghost use Rattle.hv_policy.specs.declared.event.Event.{Event};
ghost use Rattle.hv_security.specs.Agreed.{Agrees, LowEquivalent, AgreesOnAction};
ghost use Rattle.hv_security.specs.Integrity.{Integrity};
ghost use Rattle.hv_security.specs.Unrelated.{AreUnrelated};

/// An event leaves unchanged every partition that is neither its caller nor the caller's child, before or
/// after.
///
/// There are two exceptions:
///
/// - A post or a signal may add to the SINT at which its connection's port aims, at the processor that takes
///   it. A post adds its message behind all others, and no flag. A signal adds no message, and only its own
///   flag, which is one of the port's. Nothing goes there: a shown message stays shown. Either may raise the
///   vector of that SINT, and no other.
/// - A mask that is given to an Active child also restricts the masks of all descendants of that child.
#[tactic(auto, using(crate::proofs::Confining::confined))]
pub fn each_event_is_confined<A>()
    ensures { (f : Flat) (e : Event A) → Integrity e f (step f e).0 }
{}

/// The reply to an event depends only on this part of the state:
///
/// - the next id, and which partitions exist and their parents;
/// - what the caller and its children have;
/// - for three calls, the port that they name;
/// - for a post and a signal, also the processor at which that port aims, or all processors of its partition
///   if it aims at any;
/// - for a post, also the number of that port's messages that are kept.
#[tactic(auto, using(crate::proofs::Replies::same_reply))]
pub fn each_reply_is_of_what_relatives_have<A>()
    ensures { (f g : Flat) (e : Event A) → LowEquivalent e f g → (step f e).1 ≡ (step g e).1 }
{}

/// Events of unrelated partitions do not show. After any number of them, a partition and its children have
/// what they had, and the reply to an event is what it was before them.
#[tactic(auto, using(crate::proofs::UnrelatedEvents::agreed_all, crate::proofs::UnrelatedEvents::hidden))]
pub fn unrelated_events_do_not_show<A>()
    ensures kept { (f : Flat) (others : List (Event A)) (id : ℕ) → AreUnrelated others id f
        → Agrees id f (run_from f others).0 }
    ensures reply { (f : Flat) (others : List (Event A)) (e : Event A) → AreUnrelated others e.by.part f
        → AgreesOnAction e.what e.by.part f (run_from f others).0
        → (step (run_from f others).0 e).1 ≡ (step f e).1 }
{}
