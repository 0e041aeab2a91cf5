// The rules on the caller, and the rules that decide whether it may make a call.
ghost use Rattle.std.specs.Prelude.{◌≡◌, ◌++◌, IfErr, IfNone, IfOk, IfSome, List, None, Some, length};
ghost use Rattle.std.specs.Borrow.{LendsIfOk, sem};
ghost use Rattle.std.specs.FinMap.{get};
ghost use Rattle.hv_partition.specs.Partition.{PartitionState, with_vp_of};
ghost use Rattle.hv_partition.specs.contracts.partition.Partition.{the_row as partition_row};
ghost use Rattle.hv_policy.specs.Flat.{Flat};
ghost use Rattle.hv_tree.specs.Rows.{Rows, change, children as children_of, content};
ghost use Rattle.hv_tree.specs.Relative.{IsRelative};
ghost use Rattle.hv_tree.specs.contracts.tree.IdTree.{the_row as tree_row};
ghost use Rattle.hv_vp.specs.contracts.vp.Vp.{the_row as vp_row};
ghost use Rattle.hv_policy.specs.Needs.{needs_of, target_at, target_of};
ghost use Rattle.hv_policy.specs.declared.event.Caller.{Caller as AnyCaller};
ghost use Rattle.hv_policy.specs.Rules.{Ask, caller_asks, first_unmet, target_asks};
ghost use Rattle.hv_admit.specs.Asked.{AreFound, IsGranted};
ghost use Rattle.hv_admit.specs.Done.{IsRefused, unmet_in_tree};
ghost use Rattle.hv_admit.specs.Served.{TreeInvariant, unmet_further};
ghost use Rattle.hv_admit.specs.Tie.{Refines};

use crate::partitions::Partitions;
use crate::refused::CallError;
use crate::rules::resolve_partition_id;
use hv_calls::Call;
use hv_defs::Life;
use hv_partition::Partition;
use hv_policy::{Caller, Kin, Need, Rule, needs};
use hv_tree::Relative;
use hv_vp::Vp;
use std::alloc::Allocator;

/// Checks P1 to P3 and returns the caller's partition.
///
/// The error is the first of the three rules that fails.
pub fn caller_in<A: Allocator>(tree: &Partitions<A>, by: Caller) -> Result<&Partition<A>, Rule>
    ensures met { IfOk result (λ _. (f : Flat) → Refines tree.now f → first_unmet (caller_asks f by) ≡ None) }
    ensures there { IfOk result (λ caller. content tree.now by.part ≡ Some caller.now) }
    ensures unmet { IfErr result (λ rule. (f : Flat) → Refines tree.now f
        → first_unmet (caller_asks f by) ≡ Some rule) }
{
    let Some(caller) = tree.get(by.part) else {
        return Err(Rule::CallerExists);
    };
    match caller_rule(caller, by.vp) {
        None => Ok(caller),
        Some(rule) => Err(rule),
    }
}

/// Checks P1 to P3, and returns the first of them that fails, or else `rule`, which fails behind them.
pub fn first_rule<A: Allocator>(tree: &Partitions<A>, by: Caller, rule: Rule) -> Rule
    ensures { (f : Flat) (asks : List Ask) → Refines tree.now f → first_unmet asks ≡ Some rule
        → first_unmet (caller_asks f by ++ asks) ≡ Some result }
{
    match caller_in(tree, by) {
        Ok(_) => rule,
        Err(earlier) => earlier,
    }
}

/// What P1 to P10 found in the tree for a call.
#[derive(Clone, Copy)]
pub struct Found<'t, A: Allocator> {
    /// The call's row in the table of needs.
    pub need: Need,
    /// The caller's partition, and the target.
    pub caller: &'t Partition<A>,
    pub target: &'t Partition<A>,
    /// The number of the target's children.
    pub children: u32,
}

/// Checks P1 to P3 and P8 to P10 for a call, and returns what they found.
///
/// The error is the first of these rules that fails. Each partition is looked up once.
// Inlined: calls for the own id in bench/embed.sh.
#[inline(always)]
pub fn admit<'t, A: Allocator>(
    tree: &'t Partitions<A>,
    by: Caller,
    call: &Call<'_>,
) -> Result<Found<'t, A>, CallError>
    ensures found { IfOk result (λ found. AreFound tree.now by.part call.now found.need found.caller.now
        found.target.now found.children) }
    ensures further { IfOk result (λ _. (f : Flat) → Refines tree.now f
        → unmet_in_tree f by call.now ≡ unmet_further f by.part call.now) }
    ensures grants { IfOk result (λ _. (t : TreeInvariant tree.now)
        → unmet_further t.flat by.part call.now ≡ None → IsGranted tree.now by.part call.now) }
    ensures unmet { IfErr result (λ why. (f : Flat) → Refines tree.now f
        → IsRefused f by call.now why) }
{
    let need = needs(call);
    let id = target(by.part, need.named);
    let (caller, count, relative) = match caller_with(tree, by, id) {
        Ok(found) => found,
        Err(rule) => return Err(CallError::Unmet(rule)),
    };
    match target_in(tree, by, caller, count, relative, call, need) {
        Ok((target, children)) => Ok(Found {
            need,
            caller,
            target,
            children,
        }),
        Err(rule) => Err(CallError::Unmet(rule)),
    }
}

// Checks P1 to P3, and returns the caller's partition, the number of its children, and how the partition with
// the id `other` stands to it.
// Inlined: calls for the own id in bench/embed.sh.
#[inline(always)]
fn caller_with<A: Allocator>(
    tree: &Partitions<A>,
    by: Caller,
    other: u64,
) -> Result<(&Partition<A>, u32, Relative<'_, Partition<A>>), Rule>
    ensures met { IfOk result (λ _. (f : Flat) → Refines tree.now f → first_unmet (caller_asks f by) ≡ None) }
    ensures there { IfOk result (λ found. content tree.now by.part ≡ Some found.0.now) }
    ensures children { IfOk result (λ found. found.1 ≡ length (children_of tree.now by.part)) }
    ensures other { IfOk result (λ found. IsRelative tree.now by.part other found.2) }
    ensures unmet { IfErr result (λ rule. (f : Flat) → Refines tree.now f
        → first_unmet (caller_asks f by) ≡ Some rule) }
{
    let Some((caller, count, relative)) = tree.get_with(by.part, other) else {
        return Err(Rule::CallerExists);
    };
    match caller_rule(caller, by.vp) {
        None => Ok((caller, count, relative)),
        Some(rule) => Err(rule),
    }
}

// Returns the first of P2 and P3 that fails for a processor of a partition.
fn caller_rule<A: Allocator>(caller: &Partition<A>, vp: u32) -> Option<Rule>
    ensures { (tree : Rows PartitionState) (f : Flat) (by : AnyCaller) → by.vp ≡ vp
        → content tree by.part ≡ Some caller.now → Refines tree f → first_unmet (caller_asks f by) ≡ result }
{
    if caller.life() != Life::Active {
        return Some(Rule::CallerActive);
    }
    if caller.vp(vp).is_none() {
        return Some(Rule::CallerVpExists);
    }
    None
}

/// Checks P1 to P3 for an access and returns the processor that makes it, to read or change.
///
/// The error is the first of the three rules that fails. The partitions are then unchanged.
#[tactic(auto, using(hv_tree::proofs::Laws::unchanged))]
pub fn caller_vp<A: Allocator>(tree: &mut Partitions<A>, by: Caller) -> Result<&mut Vp<A>, Rule>
    ensures* writes_back { sem 𝓛 (LendsIfOk (tree_row (partition_row A.row A.Allocator) A.row A.Allocator)
        (vp_row A.row A.Allocator) tree.entry result
        (λ w. change tree.old by.part (λ p. with_vp_of p by.vp w)) tree.old) }
    ensures there { IfOk result (λ vp. IfSome (content tree.old by.part)
        (λ p. get p.vps.vps by.vp ≡ Some vp.now)) }
    ensures met { IfOk result (λ _. (f : Flat) → Refines tree.old f → first_unmet (caller_asks f by) ≡ None) }
    ensures unmet { IfErr result (λ rule. (f : Flat) → Refines tree.old f
        → first_unmet (caller_asks f by) ≡ Some rule) }
{
    let Some(caller) = tree.get_mut(by.part) else {
        return Err(Rule::CallerExists);
    };
    if caller.life() != Life::Active {
        return Err(Rule::CallerActive);
    }
    match caller.vp_mut(by.vp) {
        Some(vp) => Ok(vp),
        None => Err(Rule::CallerVpExists),
    }
}

// Checks P8 to P10, and returns the target and the number of its children.
//
// `owner` is the caller's partition, which has `count` children, and `relative` is the target as it stands to
// it. The error is the first of the three rules that fails.
fn target_in<'t, A: Allocator>(
    tree: &'t Partitions<A>,
    by: Caller,
    owner: &'t Partition<A>,
    count: u32,
    relative: Relative<'t, Partition<A>>,
    call: &Call<'_>,
    need: Need,
) -> Result<(&'t Partition<A>, u32), Rule>
    requires row { need ≡ needs_of call.now }
    requires owner { content tree.now by.part ≡ Some owner.now }
    requires count { count ≡ length (children_of tree.now by.part) }
    requires relative { IsRelative tree.now by.part (target_of call.now by.part) relative }
    ensures found { IfOk result (λ found. AreFound tree.now by.part call.now need owner.now found.0.now
        found.1) }
    ensures met { IfOk result (λ _. (f : Flat) → Refines tree.now f
        → first_unmet (target_asks f by.part call.now) ≡ None) }
    ensures unmet { IfErr result (λ rule. (f : Flat) → Refines tree.now f
        → first_unmet (target_asks f by.part call.now) ≡ Some rule) }
{
    if !owner.mask().contains(need.privilege) {
        return Err(Rule::Privilege);
    }
    match (relative, need.kin) {
        (Relative::Itself, Kin::Caller | Kin::CallerOrChild) => Ok((owner, count)),
        (Relative::Child(found, children), Kin::Child | Kin::CallerOrChild) => Ok((
            found, children,
        )),
        (Relative::Itself, Kin::Child) => Err(Rule::TargetScope),
        (Relative::Child(_, _), Kin::Caller) => Err(Rule::TargetScope),
        (Relative::Other, _) => Err(Rule::TargetScope),
        (Relative::Absent, _) => Err(Rule::TargetExists),
    }
}

// The target of a call by this caller, if the call's input names `named` first.
fn target(caller: u64, named: Option<u64>) -> u64
    ensures { result ≡ target_at named caller }
{
    match named {
        None => caller,
        Some(id) => resolve_partition_id(caller, id),
    }
}
