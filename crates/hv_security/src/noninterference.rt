// Noninterference over a whole run: what the partitions of a set can see.
//
// They see what they do, what is done to them, and of other partitions only what a few of their events look
// at. The partitions of the set are its members. Two runs are compared turn by turn: an event comes in one of
// them, or in both. A birth counts only as far as it is that of the existing port.

ghost use Rattle.std.specs.Prelude.{◌≡◌, ℕ, Bool, true, List, None, Some};
ghost use Rattle.std.specs.FinMap.{contains_key, get};
ghost use Rattle.hv_calls.specs.declared.call.Call.{Call};
ghost use Rattle.hv_security.specs.Same.{HasSame};
ghost use Rattle.hv_invariants.specs.StateInvariant.{StateInvariant};
ghost use Rattle.hv_policy.specs.Count.{depth};
ghost use Rattle.hv_policy.specs.Flat.{Flat, PartRow};
ghost use Rattle.hv_policy.specs.Step.{run_from, step};
ghost use Rattle.hv_policy.specs.declared.event.Event.{Event};
ghost use Rattle.hv_privs.specs.Privileges.{IsSubset};
ghost use Rattle.hv_privs.specs.declared.TheConstants.Privileges as privilege;
ghost use Rattle.hv_security.specs.Alike.{AreLowEquivalent};
ghost use Rattle.hv_security.specs.Looks.{CallLooksAlike, LooksUpNothing};
ghost use Rattle.hv_security.specs.Misses.{LeavesOthers};
ghost use Rattle.hv_security.specs.Tenant.{AreTenantTurns, IsTenant, SeesAlike, only};
ghost use Rattle.hv_security.specs.Turns.{AreAnsweredAlike, AreMatched, IsReached, Turn, own_events};
ghost use Rattle.hv_security.specs.Turns.{own_replies, turns_of};
ghost use Rattle.hv_security.specs.Within.{AreWithin};

/// An event leaves unchanged every partition that it is not about. It is about its target, the partition that
/// it creates or to which it sends, the subtree that it narrows, and its caller if it moves the caller's
/// pages. Two states that are equal in all that members have are low-equivalent for the members.
pub fn each_event_is_of_what_it_is_about<A>()
    ensures rows { (f : Flat) (e : Event A) → LeavesOthers e f (step f e).0 }
    ensures alike { (members : ℕ → Bool) (f g : Flat) → ((id : ℕ) → members id ≡ true → HasSame id f g)
        → AreLowEquivalent members f g }
{}

/// Two runs that are matched for the members give them the same replies and low-equivalent final states. The
/// runs begin in two states that runs from boot reach and that are low-equivalent for the members. Matched
/// means that members do the same, and see the same where their events look outside. What others do to
/// members comes at the same place in both runs, is served in both, and does the same to them. Whatever else
/// others do in each run does not matter.
#[tactic(auto, using(crate::proofs::MatchedRuns::replies_matched))]
pub fn replies_are_of_what_members_do_and_is_done_to_them<A>()
    ensures { (members : ℕ → Bool) (turns : List (Turn A)) (f g : Flat) → IsReached A f
        → IsReached A g → AreLowEquivalent members f g → AreMatched members turns f g
        → AreAnsweredAlike members turns f g }
{}

/// Removing the events of others from a run changes no reply to a member. This holds from any point of the
/// run on, if none of these events changes what a member has, and members see the same where their events
/// look outside, with these events and without them.
pub fn events_of_others_do_not_show<A>()
    ensures { (members : ℕ → Bool) (events : List (Event A)) (f : Flat) → IsReached A f
        → AreMatched members (turns_of members events) f f
        → (own_replies members events (run_from f events).1 ≡ (run_from f (own_events members events)).1)
        × AreLowEquivalent members (run_from f events).0 (run_from f (own_events members events)).0 }
{}

/// Members look at nothing outside if their calls name only members and their connections lead to members. If
/// the same is done to them, they get the same replies, whatever else others do. A member that creates a
/// partition sees the next id, and whether it is too deep to create one.
#[tactic(auto, using(crate::proofs::MembersOnly::replies_within))]
pub fn a_closed_set_looks_at_nothing_outside<A>()
    ensures { (members : ℕ → Bool) (turns : List (Turn A)) (f g : Flat) → IsReached A f
        → IsReached A g → AreLowEquivalent members f g → AreWithin members turns f g
        → AreAnsweredAlike members turns f g }
{}

/// A tenant's replies depend on its own events, what is done to it, and the ends of its connections. Only the
/// end that a post or a signal of its own uses counts. A tenant has none of the privileges for partitions,
/// pools, ports and connections, as with the start mask. It is Active and has no children in the states in
/// which the runs begin. Nothing else is required.
#[tactic(auto, using(crate::proofs::Tenants::replies_of_tenant))]
pub fn a_tenant_sees_no_more_than_the_ends_of_its_connections<A>()
    ensures { (tenant : ℕ) (turns : List (Turn A)) (f g : Flat) → IsReached A f → IsReached A g
        → IsTenant f tenant → IsTenant g tenant → AreLowEquivalent (only tenant) f g → AreTenantTurns tenant
        turns f g
        → AreAnsweredAlike (only tenant) turns f g }
{}

/// A member without the privileges of `LooksUpNothing` looks outside only through its connections, whatever
/// it calls. A mask within the one that a new partition gets has none of these privileges.
#[tactic(auto, using(crate::proofs::Unprivileged::looks_through, crate::proofs::Unprivileged::starts_plain))]
pub fn nothing_is_looked_up_without_privileges()
    ensures looks { (members : ℕ → Bool) (f g : Flat) (caller : ℕ) → members caller ≡ true → LooksUpNothing f
        caller
        → (call : Call) → SeesAlike members call caller f g → CallLooksAlike members (Some call) caller f g }
    ensures start { (f : Flat) (id : ℕ) (row : PartRow) → get f.part id ≡ Some row
        → IsSubset row.mask privilege.NEW_PARTITION → LooksUpNothing f id }
{}

/// A partition keeps its depth as long as it exists. Whether it is too deep to create another partition is
/// therefore settled when it is created.
pub fn a_partition_keeps_its_depth<A>()
    ensures { (pages : ℕ) (f : Flat) (e : Event A) → StateInvariant pages f → (id : ℕ) → contains_key f.part
        id ≡ true
        → contains_key (step f e).0.part id ≡ true → depth (step f e).0 id ≡ depth f id }
{}
