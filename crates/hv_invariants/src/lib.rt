//! The invariant of the flat model: what holds in every state that is reachable from boot.
//!
//! The crate has no code. `StateInvariant` in `specs/` is the invariant, and a state is lawful if it holds.
//! Each function's contract is a theorem about the definitions of `hv_policy`.
#![tactic(auto)]

ghost use Rattle.std.specs.Prelude.{◌≡◌, ◌+◌, ◌≤◌, ◌↔◌, ℕ, Some, true, List, None, length};
ghost use Rattle.std.specs.FinMap.{get, len};
ghost use Rattle.hv_policy.specs.Boot.{boot};
ghost use Rattle.hv_policy.specs.Effect.{effect};
ghost use Rattle.hv_policy.specs.Flat.{Flat, PartRow, VpRow, PortRow, ConnRow};
ghost use Rattle.hv_abi.specs.declared.frame.Frame.{Frame};
ghost use Rattle.hv_policy.specs.Mail.{kept_of};
ghost use Rattle.hv_policy.specs.Same.{IsSame};
ghost use Rattle.hv_policy.specs.Next.{GoesOn};
ghost use Rattle.hv_policy.specs.Result.{HasResult};
ghost use Rattle.hv_policy.specs.Rules.{asked, unmet};
ghost use Rattle.hv_policy.specs.Step.{NamesAsked, run, run_from, step};
ghost use Rattle.hv_policy.specs.Subtree.{IsInSubtree, is_in_subtree};
ghost use Rattle.hv_policy.specs.declared.event.Action.TheVariants.{Hypercall};
ghost use Rattle.hv_policy.specs.declared.event.Caller.{Caller};
ghost use Rattle.hv_policy.specs.declared.config.Config.{Config};
ghost use Rattle.hv_policy.specs.declared.event.Event.{Event};
ghost use Rattle.hv_policy.specs.Met.{is_active, is_running};
ghost use Rattle.hv_policy.specs.BootFault.{boot_fault};
ghost use Rattle.hv_privs.specs.Privileges.{IsSubset};
ghost use Rattle.hv_invariants.specs.StateInvariant.{StateInvariant, mail_where};

/// Every state of a run from boot is lawful. Boot gives a lawful state, and an event, served or refused,
/// leaves a lawful state lawful.
pub fn every_state_is_lawful<A>()
    ensures booted { (config : Config) → boot_fault config ≡ None
        → StateInvariant config.pages (boot config) }
    ensures served { (pages : ℕ) (f : Flat) (e : Event A) → StateInvariant pages f → unmet f e ≡ None
        → StateInvariant pages (effect f e) }
    ensures steps { (pages : ℕ) (f : Flat) (e : Event A) → StateInvariant pages f → StateInvariant pages
        (step f e).0 }
    ensures runs { (config : Config) (events : List (Event A)) → boot_fault config ≡ None
        → StateInvariant config.pages (run config events).0 }
{}

/// In a lawful state, every processor, port and connection belongs to a partition that exists and is Active.
/// Every parent exists and is Active.
pub fn each_row_is_of_a_running_partition()
    ensures vps { (pages : ℕ) (f : Flat) → StateInvariant pages f → (key : ℕ × ℕ) (row : VpRow) → get f.vp key
        ≡ Some row → is_running f key.0 ≡ true }
    ensures ports { (pages : ℕ) (f : Flat) → StateInvariant pages f → (key : ℕ × ℕ) (row : PortRow)
        → get f.port key ≡ Some row → is_running f key.0 ≡ true }
    ensures conns { (pages : ℕ) (f : Flat) → StateInvariant pages f → (key : ℕ × ℕ) (row : ConnRow)
        → get f.conn key ≡ Some row → is_running f key.0 ≡ true }
    ensures parents { (pages : ℕ) (f : Flat) → StateInvariant pages f → (id parent : ℕ) (row : PartRow)
        → get f.part id ≡ Some row → row.parent ≡ Some parent → is_running f parent ≡ true }
{}

/// In a lawful state, every message of an existing port is where the port aims. The messages there are
/// therefore all of the port's messages. They are at its SINT, at its one processor, or at all processors of
/// its partition if it aims at any.
pub fn each_message_is_counted_where_its_port_aims()
    ensures kept { (pages : ℕ) (f : Flat) → StateInvariant pages f → (part port born : ℕ) (row : PortRow)
        → get f.port (part, port) ≡ Some row → row.born ≡ born → kept_of part port born f.mail
        ≡ kept_of part port born (mail_where part row.vp row.sint f.mail) }
{}

/// An Active partition gains no privilege. A privilege that was taken from it stays taken.
pub fn a_running_partition_gets_no_privilege<A>()
    ensures { (pages : ℕ) (f : Flat) (e : Event A) → StateInvariant pages f → (id : ℕ) (old new : PartRow)
        → get f.part id ≡ Some old → is_active old.life ≡ true → get (step f e).0.part id ≡ Some new
        → IsSubset new.mask old.mask }
{}

/// In a lawful state, a partition is in a subtree exactly if a chain of parents leads to the top.
pub fn each_partition_of_a_subtree_leads_up_to_its_top()
    ensures { (pages : ℕ) (f : Flat) → StateInvariant pages f → (top id : ℕ) → (is_in_subtree f top id ≡ true)
        ↔ IsInSubtree f top id }
{}

/// The order of messages matters only within a place. Two states that differ only in the order across places
/// give the same replies to the same events, and continue to differ only in that order.
#[tactic(auto, using(crate::proofs::OrderOfMessages::step_same, crate::proofs::OrderOfMessages::run_same))]
pub fn order_across_places_does_not_count<A>()
    ensures steps { (f g : Flat) (e : Event A) → IsSame f g → ((step f e).1 ≡ (step g e).1)
        × IsSame (step f e).0 (step g e).0 }
    ensures runs { (f g : Flat) (events : List (Event A)) → IsSame f g
        → ((run_from f events).1 ≡ (run_from g events).1)
        × IsSame (run_from f events).0 (run_from g events).0 }
    ensures lawful { (pages : ℕ) (f g : Flat) → IsSame f g → StateInvariant pages f → StateInvariant pages g }
{}

/// A run serves at most as many events as it has.
#[tactic(auto, using(crate::proofs::ServedCount::run_few))]
pub fn no_more_events_are_served_than_there_are<A>()
    ensures runs { (config : Config) (events : List (Event A))
        → (run config events).0.served ≤ length events }
{}

/// A run has at most one partition more than it has events. Each partition except the root took an event to
/// create.
#[tactic(auto, using(crate::proofs::Partitions::few_partitions))]
pub fn each_partition_but_the_root_took_an_event<A>()
    ensures { (config : Config) (events : List (Event A))
        → len (run config events).0.part ≤ length events + 1 }
{}

/// The event alone decides which rules apply, and in which order. The state plays no part.
#[tactic(auto, using(crate::proofs::Replies::asked_alike))]
pub fn the_event_decides_what_is_asked<A>()
    ensures { (f g : Flat) (e : Event A) → asked f e ≡ asked g e }
{}

/// A refusal names a rule that applies to its event. Every reply to a hypercall has a result value, and a
/// call continues with the element after the one that was served.
#[tactic(auto, using(crate::proofs::Replies::names_asked, crate::proofs::Replies::goes_on))]
pub fn each_reply_fits_its_event<A>()
    ensures asked { (f : Flat) (e : Event A) → NamesAsked e (step f e).1 }
    ensures result { (f : Flat) (by : Caller) (frame : Frame A)
        → HasResult (step f (record { by = by; what = Hypercall frame })).1 }
    ensures next { (f : Flat) (e : Event A) → GoesOn e.what (step f e).1 }
{}
