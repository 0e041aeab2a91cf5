// Dispatches each call and each access to its call group.
ghost use Rattle.std.specs.Prelude.{◌≡◌, ◌+◌, ◌-◌, ◌^◌, ◌<◌, [], IfOk};
ghost use Rattle.std.specs.Result.{result_err, result_map_both};
ghost use Rattle.hv_defs.specs.declared.sizes.TheConstants.{MAX_SERVED};
ghost use Rattle.hv_policy.specs.Call.{action_of};
ghost use Rattle.hv_policy.specs.Flat.{Flat};
ghost use Rattle.hv_admit.specs.Access.{IsAnswered};
ghost use Rattle.hv_admit.specs.Asked.{AreFound, IsGranted};
ghost use Rattle.hv_admit.specs.Done.{IsCalled, IsDone};
ghost use Rattle.hv_admit.specs.Served.{TreeInvariant, unmet_further};
ghost use Rattle.hv_admit.specs.Tie.{Refines};
ghost use Rattle.hv_machine.specs.Next.{next_after as next_id_after};
ghost use Rattle.hv_machine.specs.Plan.{IsPlanned};
ghost use Rattle.hv_machine.specs.declared.dispatch.Plan.TheVariants as plan;

use hv_admit::{Balance, CallError, Effect, Found, Partitions, admit, balance_of};
use hv_calls::Call;
use hv_messages::{
    Aimed, ask_post, ask_signal, clear_flag, clear_slot, do_post, do_signal, read_flags, read_slot,
    take_interrupt,
};
use hv_partition_calls::{
    Setting, ask_create_partition, ask_delete_partition, ask_deposit, ask_finalize,
    ask_get_property, ask_initialize, ask_next_child, ask_set_property, ask_withdraw, do_balance,
    do_create_partition, do_delete_partition, do_deposit, do_finalize, do_get_property,
    do_initialize, do_next_child, do_own_id, do_set_property, do_withdraw,
};
use hv_policy::{Access, Caller, Output, Rule};
use hv_port_calls::{
    NewConnection, NewPort, ask_connect, ask_create_port, ask_delete_port, ask_disconnect,
    do_connect, do_create_port, do_delete_port, do_disconnect,
};
use hv_privs::Privileges;
use hv_processors::{
    ask_create_vp, ask_delete_vp, ask_get_registers, ask_set_registers, do_create_vp, do_delete_vp,
    do_get_registers, do_set_registers, read_msr, write_msr,
};
use std::alloc::{AllocError, Allocator};

// What the question of a call leaves for its deed.
#[derive(Clone, Copy)]
pub enum Plan {
    // Nothing: the call's parameters are enough.
    Plain,
    // The mask of the new partition.
    Mask(Privileges),
    // The number of runs of the target's pages.
    Runs(u64),
    // The property to set, and how.
    Setting(Setting),
    // The page to move.
    Page(u32),
    // The balance to output.
    Balance(Balance),
    // The value to output, or the birth of the port.
    Value(u64),
    // Where a message or a flag goes.
    Aim(Aimed),
}

// Serves a call for which P4 to P7 hold: admits it, asks its own rules, and does it. The call appends its
// output to `output`, which must be empty. `next` is the id that the next partition gets, and `served` is the
// count of served events.
// Inlined: calls for the own id in bench/embed.sh.
#[inline(always)]
pub fn dispatch<A: Allocator + Clone>(
    tree: &mut Partitions<A>,
    alloc: &A,
    by: Caller,
    next: u64,
    served: u64,
    call: &Call<'_>,
    output: &mut Output,
) -> Result<Effect, CallError>
    requires rows { (t : TreeInvariant tree.old) × (t.flat.next ≡ next) }
    requires count { served < MAX_SERVED }
    requires empty { output.old ≡ [] }
    ensures { (f : Flat) → Refines tree.old f → f.next ≡ next → f.served ≡ served
        → IsCalled f by call.now tree.old
        (result_map_both (λ effect. (output.new, effect)) (λ why. why) result) tree.new }
{
    let found = admit(tree, by, call)?;
    let plan = ask(tree, by.part, found, call)?;
    Ok(do_planned(tree, alloc, by.part, next, served, call, plan, output)?)
}

// Checks the own rules of a call, P11 to P24, and returns what its deed needs.
// Inlined: calls for the own id in bench/embed.sh.
#[inline(always)]
fn ask<A: Allocator>(
    tree: &Partitions<A>,
    by: u64,
    found: Found<'_, A>,
    call: &Call<'_>,
) -> Result<Plan, Rule>
    requires rows { TreeInvariant tree.now }
    requires found { AreFound tree.now by call.now found.need found.caller.now found.target.now
        found.children }
    ensures unmet { (f : Flat) → Refines tree.now f → result_err result ≡ unmet_further f by call.now }
    ensures planned { IfOk result (IsPlanned tree.now by call.now) }
{
    match *call {
        Call::CreatePartition { .. } => Ok(Plan::Mask(ask_create_partition(tree, by, found)?)),
        Call::InitializePartition { .. } => plain(ask_initialize(found)),
        Call::FinalizePartition { .. } => plain(ask_finalize(found)),
        Call::DeletePartition { .. } => Ok(Plan::Runs(ask_delete_partition(found)?)),
        Call::GetPartitionProperty { code, .. } => Ok(Plan::Value(ask_get_property(found, code)?)),
        Call::SetPartitionProperty { code, value, .. } => Ok(Plan::Setting(ask_set_property(
            found, code, value,
        )?)),
        Call::GetPartitionId => Ok(Plan::Plain),
        Call::GetNextChildPartition {
            partition,
            previous,
        } => plain(ask_next_child(tree, by, partition, previous)),
        Call::DepositMemory { page, .. } => plain(ask_deposit(found, page)),
        Call::WithdrawMemory { .. } => Ok(Plan::Page(ask_withdraw(found)?)),
        Call::GetMemoryBalance { .. } => Ok(Plan::Balance(balance_of(
            found.target,
            found.children,
        ))),
        Call::CreateVp { vp, .. } => plain(ask_create_vp(found, vp)),
        Call::DeleteVp { vp, .. } => plain(ask_delete_vp(found, vp)),
        Call::GetVpRegisters { vp, name, .. } => Ok(Plan::Value(ask_get_registers(
            found, vp, name,
        )?)),
        Call::SetVpRegisters {
            vp,
            name,
            value,
            ..
        } => plain(ask_set_registers(found, vp, name, value)),
        Call::DeletePort { port, .. } => plain(ask_delete_port(found, port)),
        Call::DisconnectPort { connection, .. } => plain(ask_disconnect(found, connection)),
        Call::CreatePort {
            port,
            peer,
            kind,
            sint,
            vp,
            base,
            count,
            ..
        } => {
            let new = NewPort {
                port,
                peer,
                kind,
                sint,
                vp,
                base,
                count,
            };
            plain(ask_create_port(tree, by, found, new))
        }
        Call::ConnectPort {
            partition,
            connection,
            port_partition,
            port,
            kind,
        } => {
            let new = NewConnection {
                connection,
                port_partition,
                port,
                kind,
            };
            Ok(Plan::Value(ask_connect(tree, by, found, partition, new)?))
        }
        Call::PostMessage { connection, .. } => Ok(Plan::Aim(ask_post(
            tree,
            found.caller,
            connection,
        )?)),
        Call::SignalEvent { connection, flag } => Ok(Plan::Aim(ask_signal(
            tree,
            found.caller,
            connection,
            flag,
        )?)),
    }
}

// The plan of a call whose question leaves nothing.
fn plain(asked: Result<(), Rule>) -> Result<Plan, Rule>
    ensures unmet { result_err result ≡ result_err asked }
    ensures planned { IfOk result (λ left. left ≡ plan.Plain) }
{
    match asked {
        Ok(()) => Ok(Plan::Plain),
        Err(rule) => Err(rule),
    }
}

// Does a call whose rules hold, by what its question left.
// Inlined: calls for the own id in bench/embed.sh.
#[inline(always)]
fn do_planned<A: Allocator + Clone>(
    tree: &mut Partitions<A>,
    alloc: &A,
    caller: u64,
    next: u64,
    served: u64,
    call: &Call<'_>,
    plan: Plan,
    output: &mut Output,
) -> Result<Effect, AllocError>
    requires rows { (t : TreeInvariant tree.old) × (t.flat.next ≡ next) }
    requires granted { IsGranted tree.old caller call.now }
    requires planned { IsPlanned tree.old caller call.now plan }
    requires count { served < MAX_SERVED }
    requires empty { output.old ≡ [] }
    ensures { (f : Flat) → Refines tree.old f → f.next ≡ next → f.served ≡ served
        → IsDone f caller call.now tree.old
        (result_map_both (λ effect. (output.new, effect)) (λ why. why) result) tree.new }
{
    match *call {
        Call::CreatePartition { .. } => {
            let Plan::Mask(mask) = plan else {
                unreachable!()
            };
            do_create_partition(tree, alloc, caller, next, mask, output)
        }
        Call::InitializePartition { partition } => Ok(do_initialize(tree, caller, partition)),
        Call::FinalizePartition { partition } => Ok(do_finalize(tree, caller, partition)),
        Call::DeletePartition { partition } => {
            let Plan::Runs(runs) = plan else {
                unreachable!()
            };
            do_delete_partition(tree, caller, partition, runs)
        }
        Call::GetPartitionProperty { .. } => {
            let Plan::Value(value) = plan else {
                unreachable!()
            };
            Ok(do_get_property(value, output))
        }
        Call::SetPartitionProperty {
            partition,
            value,
            ..
        } => {
            let Plan::Setting(setting) = plan else {
                unreachable!()
            };
            Ok(do_set_property(tree, caller, partition, setting, value))
        }
        Call::GetPartitionId => Ok(do_own_id(caller, output)),
        Call::GetNextChildPartition {
            partition,
            previous,
        } => Ok(do_next_child(tree, caller, partition, previous, output)),
        Call::DepositMemory { partition, page } => do_deposit(tree, caller, partition, page),
        Call::WithdrawMemory { partition } => {
            let Plan::Page(page) = plan else {
                unreachable!()
            };
            do_withdraw(tree, caller, partition, page, output)
        }
        Call::GetMemoryBalance { .. } => {
            let Plan::Balance(balance) = plan else {
                unreachable!()
            };
            Ok(do_balance(balance, output))
        }
        Call::CreateVp { partition, vp } => do_create_vp(tree, alloc, caller, partition, vp),
        Call::DeleteVp { partition, vp } => Ok(do_delete_vp(tree, caller, partition, vp)),
        Call::GetVpRegisters { .. } => {
            let Plan::Value(value) = plan else {
                unreachable!()
            };
            Ok(do_get_registers(value, output))
        }
        Call::SetVpRegisters {
            partition,
            vp,
            name,
            value,
        } => Ok(do_set_registers(tree, caller, partition, vp, name, value)),
        Call::DeletePort { partition, port } => Ok(do_delete_port(tree, caller, partition, port)),
        Call::DisconnectPort {
            partition,
            connection,
        } => Ok(do_disconnect(tree, caller, partition, connection)),
        Call::CreatePort {
            partition,
            port,
            peer,
            kind,
            sint,
            vp,
            base,
            count,
        } => {
            let new = NewPort {
                port,
                peer,
                kind,
                sint,
                vp,
                base,
                count,
            };
            do_create_port(tree, caller, served, partition, new)
        }
        Call::ConnectPort {
            partition,
            connection,
            port_partition,
            port,
            kind,
        } => {
            let Plan::Value(born) = plan else {
                unreachable!()
            };
            let new = NewConnection {
                connection,
                port_partition,
                port,
                kind,
            };
            do_connect(tree, caller, partition, new, born)
        }
        Call::PostMessage {
            connection,
            message_type,
            ref payload,
        } => {
            let Plan::Aim(aimed) = plan else {
                unreachable!()
            };
            do_post(tree, caller, connection, aimed, message_type, payload)
        }
        Call::SignalEvent { connection, flag } => {
            let Plan::Aim(aimed) = plan else {
                unreachable!()
            };
            Ok(do_signal(tree, caller, connection, aimed, flag))
        }
    }
}

// Dispatches an access to its call group, which also checks P1 to P3. The access appends its result to
// `output`, which must be empty.
pub fn dispatch_access<A: Allocator>(
    tree: &mut Partitions<A>,
    by: Caller,
    access: Access,
    output: &mut Output,
) -> Result<Effect, Rule>
    requires { output.old ≡ [] }
    ensures { (f : Flat) → Refines tree.old f → IsAnswered {A = A} f by (action_of access) tree.old
        (result_map_both (λ effect. (output.new, effect)) (λ rule. rule) result) tree.new }
{
    match access {
        Access::ReadMsr(msr) => read_msr(tree, by, msr, output),
        Access::WriteMsr(msr, value) => write_msr(tree, by, msr, value),
        Access::ReadSlot(sint) => read_slot(tree, by, sint, output),
        Access::ClearSlot(sint) => clear_slot(tree, by, sint),
        Access::ReadFlags(sint) => read_flags(tree, by, sint, output),
        Access::ClearFlag(sint, flag) => clear_flag(tree, by, sint, flag),
        Access::TakeInterrupt => take_interrupt(tree, by, output),
    }
}

// The id that the next partition gets after a call.
pub fn next_after(call: &Call<'_>, next: u64) -> u64
    requires { next < 2 ^ 64 - 1 }
    ensures { result ≡ next_id_after call.now next }
{
    match call {
        Call::CreatePartition { .. } => next + 1,
        _ => next,
    }
}
