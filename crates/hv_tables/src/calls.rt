// The tables of calls: rows, policies and blocks. A call's privilege is written as a power of 2, by its bit.
ghost use Rattle.std.specs.Prelude.{◌≡◌, ℕ, ◌+◌, ◌*◌, ◌^◌, ◌==◌, ◌||◌, true, false, List, [], ◌∷◌, length};
ghost use Rattle.std.specs.Prelude.{None, ◌&&◌, nat_le};
ghost use Rattle.hv_abi.specs.CallRow.{kind_of, row_of};
ghost use Rattle.hv_abi.specs.declared.call_kind.CallKind.TheVariants as kind;
ghost use Rattle.hv_abi.specs.declared.call_kind.TheConstants.{ALL_CALLS};
ghost use Rattle.hv_calls.specs.Call.{kind_of_call, call_in, port_aim, port_kind, are_well_formed};
ghost use Rattle.hv_calls.specs.declared.call.Call.{Call};
ghost use Rattle.hv_calls.specs.declared.call.Call.TheVariants as call;
ghost use Rattle.hv_defs.specs.declared.aim.Aim.{Aim};
ghost use Rattle.hv_defs.specs.declared.life.Life.TheVariants.{Created, Active, Finalized};
ghost use Rattle.hv_defs.specs.declared.port_kind.PortKind.{PortKind};
ghost use Rattle.hv_policy.specs.Needs.{target_of, resolved_id};
ghost use Rattle.hv_policy.specs.Flat.{Flat};
ghost use Rattle.hv_policy.specs.Property.{property_of};
ghost use Rattle.hv_policy.specs.Met.{is_kin, is_child};
ghost use Rattle.hv_policy.specs.calls.{policy_of};
ghost use Rattle.hv_policy.specs.declared.need.Kin.TheVariants as kin;
ghost use Rattle.hv_tables.specs.Lines.{frame_line, list_line, need_line, rules_line};
ghost use Rattle.hv_calls.specs.Bytes.{bytes_at};
ghost use Rattle.hv_calls.specs.Params.{element_at};
ghost use Rattle.hv_calls.specs.Fields.{are_flags, is_id, is_message_type, is_port_type};
ghost use Rattle.hv_defs.specs.Field.{field};
ghost use Rattle.hv_defs.specs.declared.port_kind.PortKind.TheVariants as port;

/// The number of calls in the profile, and the neighboring codes, which no call has.
pub fn the_profile_has_its_calls()
    ensures profile { length ALL_CALLS ≡ 21 }
    ensures before { kind_of 0x3F ≡ None }
    ensures after_memory_balance { kind_of 0x4B ≡ None }
    ensures before_create_vp { kind_of 0x4D ≡ None }
    ensures after_set_vp_registers { kind_of 0x52 ≡ None }
    ensures after_connect_port { kind_of 0x97 ≡ None }
{}

/// Each call's code, whether it is a rep call, and whether it accepts the fast bit.
pub fn each_call_has_its_frame()
    ensures create_partition { frame_line kind.CreatePartition ≡ (0x40, false, false) }
    ensures initialize_partition { frame_line kind.InitializePartition ≡ (0x41, false, true) }
    ensures finalize_partition { frame_line kind.FinalizePartition ≡ (0x42, false, true) }
    ensures delete_partition { frame_line kind.DeletePartition ≡ (0x43, false, true) }
    ensures get_partition_property { frame_line kind.GetPartitionProperty ≡ (0x44, false, false) }
    ensures set_partition_property { frame_line kind.SetPartitionProperty ≡ (0x45, false, false) }
    ensures get_partition_id { frame_line kind.GetPartitionId ≡ (0x46, false, false) }
    ensures get_next_child_partition { frame_line kind.GetNextChildPartition ≡ (0x47, false, false) }
    ensures deposit_memory { frame_line kind.DepositMemory ≡ (0x48, true, false) }
    ensures withdraw_memory { frame_line kind.WithdrawMemory ≡ (0x49, true, false) }
    ensures get_memory_balance { frame_line kind.GetMemoryBalance ≡ (0x4A, false, false) }
    ensures create_vp { frame_line kind.CreateVp ≡ (0x4E, false, true) }
    ensures delete_vp { frame_line kind.DeleteVp ≡ (0x4F, false, true) }
    ensures get_vp_registers { frame_line kind.GetVpRegisters ≡ (0x50, true, false) }
    ensures set_vp_registers { frame_line kind.SetVpRegisters ≡ (0x51, true, false) }
    ensures delete_port { frame_line kind.DeletePort ≡ (0x58, false, true) }
    ensures disconnect_port { frame_line kind.DisconnectPort ≡ (0x5B, false, true) }
    ensures post_message { frame_line kind.PostMessage ≡ (0x5C, false, false) }
    ensures signal_event { frame_line kind.SignalEvent ≡ (0x5D, false, true) }
    ensures create_port { frame_line kind.CreatePort ≡ (0x95, false, false) }
    ensures connect_port { frame_line kind.ConnectPort ≡ (0x96, false, false) }
{}

/// The policy of each call names the call's own row.
pub fn each_policy_has_its_row()
    ensures { (call : Call) → (policy_of call).row ≡ row_of (kind_of_call call) }
{}

/// The lengths of each call's input and output list in bytes, for n reps.
pub fn each_call_has_its_lists()
    ensures create_partition { (n : ℕ) → list_line kind.CreatePartition n ≡ (8, 8) }
    ensures initialize_partition { (n : ℕ) → list_line kind.InitializePartition n ≡ (8, 0) }
    ensures finalize_partition { (n : ℕ) → list_line kind.FinalizePartition n ≡ (8, 0) }
    ensures delete_partition { (n : ℕ) → list_line kind.DeletePartition n ≡ (8, 0) }
    ensures get_partition_property { (n : ℕ) → list_line kind.GetPartitionProperty n ≡ (16, 8) }
    ensures set_partition_property { (n : ℕ) → list_line kind.SetPartitionProperty n ≡ (24, 0) }
    ensures get_partition_id { (n : ℕ) → list_line kind.GetPartitionId n ≡ (0, 8) }
    ensures get_next_child_partition { (n : ℕ) → list_line kind.GetNextChildPartition n ≡ (16, 8) }
    ensures deposit_memory { (n : ℕ) → list_line kind.DepositMemory n ≡ (8 + 8 * n, 0) }
    ensures withdraw_memory { (n : ℕ) → list_line kind.WithdrawMemory n ≡ (8, 8 * n) }
    ensures get_memory_balance { (n : ℕ) → list_line kind.GetMemoryBalance n ≡ (8, 16) }
    ensures create_vp { (n : ℕ) → list_line kind.CreateVp n ≡ (16, 0) }
    ensures delete_vp { (n : ℕ) → list_line kind.DeleteVp n ≡ (16, 0) }
    ensures get_vp_registers { (n : ℕ) → list_line kind.GetVpRegisters n ≡ (16 + 4 * n, 16 * n) }
    ensures set_vp_registers { (n : ℕ) → list_line kind.SetVpRegisters n ≡ (16 + 32 * n, 0) }
    ensures delete_port { (n : ℕ) → list_line kind.DeletePort n ≡ (16, 0) }
    ensures disconnect_port { (n : ℕ) → list_line kind.DisconnectPort n ≡ (16, 0) }
    ensures post_message { (n : ℕ) → list_line kind.PostMessage n ≡ (256, 0) }
    ensures signal_event { (n : ℕ) → list_line kind.SignalEvent n ≡ (8, 0) }
    ensures create_port { (n : ℕ) → list_line kind.CreatePort n ≡ (48, 0) }
    ensures connect_port { (n : ℕ) → list_line kind.ConnectPort n ≡ (48, 0) }
{}

/// The privilege that each call needs, which partitions may be its target, and their life states.
pub fn each_call_has_its_needs()
    ensures create_partition { (flags : ℕ) → need_line (call.CreatePartition flags)
        ≡ (2 ^ 32, kin.Caller, Created ∷ Active ∷ Finalized ∷ []) }
    ensures initialize_partition { (partition : ℕ) → need_line (call.InitializePartition partition)
        ≡ (2 ^ 32, kin.Child, Created ∷ []) }
    ensures finalize_partition { (partition : ℕ) → need_line (call.FinalizePartition partition)
        ≡ (2 ^ 32, kin.Child, Created ∷ Active ∷ []) }
    ensures delete_partition { (partition : ℕ) → need_line (call.DeletePartition partition)
        ≡ (2 ^ 32, kin.Child, Created ∷ Finalized ∷ []) }
    ensures get_partition_property { (partition code : ℕ)
        → need_line (call.GetPartitionProperty partition code)
        ≡ (2 ^ 32, kin.CallerOrChild, Created ∷ Active ∷ Finalized ∷ []) }
    ensures set_partition_property_privilege_flags { (partition value : ℕ)
        → need_line (call.SetPartitionProperty partition 0x00010000 value)
        ≡ (2 ^ 32, kin.Child, Created ∷ Active ∷ []) }
    ensures set_partition_property_cpu_reserve { (partition value : ℕ)
        → need_line (call.SetPartitionProperty partition 0x00020001 value)
        ≡ (2 ^ 32, kin.Child, Created ∷ Active ∷ []) }
    ensures set_partition_property_cpu_cap { (partition value : ℕ)
        → need_line (call.SetPartitionProperty partition 0x00020002 value)
        ≡ (2 ^ 32, kin.Child, Created ∷ Active ∷ []) }
    ensures set_partition_property_cpu_weight { (partition value : ℕ)
        → need_line (call.SetPartitionProperty partition 0x00020003 value)
        ≡ (2 ^ 32, kin.Child, Created ∷ Active ∷ []) }
    ensures set_partition_property_of_no_code { (partition code value : ℕ) → property_of code ≡ None
        → need_line (call.SetPartitionProperty partition code value) ≡ (2 ^ 32, kin.Child, Created ∷ []) }
    ensures get_partition_id { need_line call.GetPartitionId
        ≡ (2 ^ 33, kin.Caller, Created ∷ Active ∷ Finalized ∷ []) }
    ensures get_next_child_partition { (partition previous : ℕ)
        → need_line (call.GetNextChildPartition partition previous)
        ≡ (2 ^ 32, kin.CallerOrChild, Created ∷ Active ∷ Finalized ∷ []) }
    ensures deposit_memory { (partition page : ℕ) → need_line (call.DepositMemory partition page)
        ≡ (2 ^ 34, kin.CallerOrChild, Created ∷ Active ∷ []) }
    ensures withdraw_memory { (partition : ℕ) → need_line (call.WithdrawMemory partition)
        ≡ (2 ^ 34, kin.CallerOrChild, Created ∷ Active ∷ Finalized ∷ []) }
    ensures get_memory_balance { (partition : ℕ) → need_line (call.GetMemoryBalance partition)
        ≡ (2 ^ 34, kin.CallerOrChild, Created ∷ Active ∷ Finalized ∷ []) }
    ensures create_vp { (partition vp : ℕ) → need_line (call.CreateVp partition vp)
        ≡ (2 ^ 32, kin.CallerOrChild, Active ∷ []) }
    ensures delete_vp { (partition vp : ℕ) → need_line (call.DeleteVp partition vp)
        ≡ (2 ^ 32, kin.CallerOrChild, Active ∷ []) }
    ensures get_vp_registers { (partition vp name : ℕ) → need_line (call.GetVpRegisters partition vp name)
        ≡ (2 ^ 32, kin.CallerOrChild, Active ∷ []) }
    ensures set_vp_registers { (partition vp name value : ℕ)
        → need_line (call.SetVpRegisters partition vp name value) ≡ (2 ^ 32, kin.CallerOrChild, Active ∷ []) }
    ensures delete_port { (partition port : ℕ) → need_line (call.DeletePort partition port)
        ≡ (2 ^ 38, kin.CallerOrChild, Active ∷ []) }
    ensures disconnect_port { (partition connection : ℕ)
        → need_line (call.DisconnectPort partition connection) ≡ (2 ^ 39, kin.CallerOrChild, Active ∷ []) }
    ensures post_message { (connection message_type : ℕ) (payload : List ℕ)
        → need_line (call.PostMessage connection message_type payload)
        ≡ (2 ^ 36, kin.Caller, Created ∷ Active ∷ Finalized ∷ []) }
    ensures signal_event { (connection flag : ℕ) → need_line (call.SignalEvent connection flag)
        ≡ (2 ^ 37, kin.Caller, Created ∷ Active ∷ Finalized ∷ []) }
    ensures create_port { (partition port peer : ℕ) (port_kind : PortKind) (sint : ℕ) (vp : Aim)
        (base count : ℕ) → need_line (call.CreatePort partition port peer port_kind sint vp base count)
        ≡ (2 ^ 38, kin.CallerOrChild, Active ∷ []) }
    ensures connect_port { (partition connection port_partition port : ℕ)
        (port_kind : PortKind)
        → need_line (call.ConnectPort partition connection port_partition port port_kind)
        ≡ (2 ^ 39, kin.CallerOrChild, Active ∷ []) }
{}

/// Which partitions of a state each kin names.
pub fn each_kin_has_its_partitions()
    ensures caller { (f : Flat) (caller id : ℕ) → is_kin kin.Caller f caller id ≡ (id == caller) }
    ensures caller_or_child { (f : Flat) (caller id : ℕ) → is_kin kin.CallerOrChild f caller id
        ≡ ((id == caller) || is_child f caller id) }
    ensures child { (f : Flat) (caller id : ℕ) → is_kin kin.Child f caller id ≡ is_child f caller id }
{}

/// The further rules of each call by number, its charge in pages, and whether it may need memory of the host.
///
/// These rules do not depend on the call's parameters, its caller or the state.
pub fn each_call_has_its_rules()
    ensures create_partition { (f : Flat) (caller flags : ℕ)
        → rules_line f caller (call.CreatePartition flags) ≡ (14 ∷ 24 ∷ [], 2, true) }
    ensures initialize_partition { (f : Flat) (caller partition : ℕ)
        → rules_line f caller (call.InitializePartition partition) ≡ (12 ∷ [], 0, false) }
    ensures finalize_partition { (f : Flat) (caller partition : ℕ)
        → rules_line f caller (call.FinalizePartition partition) ≡ (12 ∷ 13 ∷ [], 0, false) }
    ensures delete_partition { (f : Flat) (caller partition : ℕ)
        → rules_line f caller (call.DeletePartition partition) ≡ (12 ∷ [], 0, true) }
    ensures get_partition_property { (f : Flat) (caller partition code : ℕ)
        → rules_line f caller (call.GetPartitionProperty partition code) ≡ (11 ∷ [], 0, false) }
    ensures set_partition_property { (f : Flat) (caller partition code value : ℕ)
        → rules_line f caller (call.SetPartitionProperty partition code value)
        ≡ (11 ∷ 12 ∷ 18 ∷ 20 ∷ [], 0, false) }
    ensures get_partition_id { (f : Flat) (caller : ℕ) → rules_line f caller call.GetPartitionId
        ≡ ([], 0, false) }
    ensures get_next_child_partition { (f : Flat) (caller partition previous : ℕ)
        → rules_line f caller (call.GetNextChildPartition partition previous) ≡ (15 ∷ [], 0, false) }
    ensures deposit_memory { (f : Flat) (caller partition page : ℕ)
        → rules_line f caller (call.DepositMemory partition page) ≡ (12 ∷ 21 ∷ [], 0, true) }
    ensures withdraw_memory { (f : Flat) (caller partition : ℕ)
        → rules_line f caller (call.WithdrawMemory partition) ≡ (24 ∷ [], 1, true) }
    ensures get_memory_balance { (f : Flat) (caller partition : ℕ)
        → rules_line f caller (call.GetMemoryBalance partition) ≡ ([], 0, false) }
    ensures create_vp { (f : Flat) (caller partition vp : ℕ)
        → rules_line f caller (call.CreateVp partition vp) ≡ (12 ∷ 19 ∷ 24 ∷ [], 4, true) }
    ensures delete_vp { (f : Flat) (caller partition vp : ℕ)
        → rules_line f caller (call.DeleteVp partition vp) ≡ (12 ∷ 19 ∷ [], 0, false) }
    ensures get_vp_registers { (f : Flat) (caller partition vp name : ℕ)
        → rules_line f caller (call.GetVpRegisters partition vp name) ≡ (12 ∷ 18 ∷ 19 ∷ 21 ∷ [], 0, false) }
    ensures set_vp_registers { (f : Flat) (caller partition vp name value : ℕ)
        → rules_line f caller (call.SetVpRegisters partition vp name value)
        ≡ (12 ∷ 18 ∷ 19 ∷ 21 ∷ [], 0, false) }
    ensures delete_port { (f : Flat) (caller partition port : ℕ)
        → rules_line f caller (call.DeletePort partition port) ≡ (12 ∷ 17 ∷ [], 0, false) }
    ensures disconnect_port { (f : Flat) (caller partition connection : ℕ)
        → rules_line f caller (call.DisconnectPort partition connection) ≡ (12 ∷ 16 ∷ [], 0, false) }
    ensures post_message { (f : Flat) (caller connection message_type : ℕ) (payload : List ℕ)
        → rules_line f caller (call.PostMessage connection message_type payload)
        ≡ (16 ∷ 17 ∷ 19 ∷ 21 ∷ 22 ∷ 23 ∷ [], 0, true) }
    ensures signal_event { (f : Flat) (caller connection flag : ℕ)
        → rules_line f caller (call.SignalEvent connection flag) ≡ (16 ∷ 17 ∷ 19 ∷ 21 ∷ 22 ∷ [], 0, false) }
    ensures create_port { (f : Flat) (caller partition port peer : ℕ) (port_kind : PortKind)
        (sint : ℕ) (vp : Aim) (base count : ℕ)
        → rules_line f caller (call.CreatePort partition port peer port_kind sint vp base count)
        ≡ (12 ∷ 15 ∷ 17 ∷ 19 ∷ 24 ∷ [], 1, true) }
    ensures connect_port { (f : Flat) (caller partition connection port_partition port : ℕ)
        (port_kind : PortKind)
        → rules_line f caller (call.ConnectPort partition connection port_partition port port_kind)
        ≡ (12 ∷ 15 ∷ 16 ∷ 17 ∷ 18 ∷ 21 ∷ 24 ∷ [], 1, true) }
{}

/// The target of each call: the caller, or the partition that a parameter names. All ones is the caller's own
/// id.
pub fn each_call_has_its_target()
    ensures all_ones { (caller : ℕ) → resolved_id caller 18446744073709551615 ≡ caller }
    ensures another_id { (caller id : ℕ) → ¬ (id ≡ 18446744073709551615) → resolved_id caller id ≡ id }
    ensures create_partition { (caller flags : ℕ) → target_of (call.CreatePartition flags) caller ≡ caller }
    ensures initialize_partition { (caller partition : ℕ)
        → target_of (call.InitializePartition partition) caller ≡ resolved_id caller partition }
    ensures finalize_partition { (caller partition : ℕ)
        → target_of (call.FinalizePartition partition) caller ≡ resolved_id caller partition }
    ensures delete_partition { (caller partition : ℕ) → target_of (call.DeletePartition partition) caller
        ≡ resolved_id caller partition }
    ensures get_partition_property { (caller partition code : ℕ)
        → target_of (call.GetPartitionProperty partition code) caller ≡ resolved_id caller partition }
    ensures set_partition_property { (caller partition code value : ℕ)
        → target_of (call.SetPartitionProperty partition code value) caller ≡ resolved_id caller partition }
    ensures get_partition_id { (caller : ℕ) → target_of call.GetPartitionId caller ≡ caller }
    ensures get_next_child_partition { (caller partition previous : ℕ)
        → target_of (call.GetNextChildPartition partition previous) caller ≡ resolved_id caller partition }
    ensures deposit_memory { (caller partition page : ℕ)
        → target_of (call.DepositMemory partition page) caller ≡ resolved_id caller partition }
    ensures withdraw_memory { (caller partition : ℕ) → target_of (call.WithdrawMemory partition) caller
        ≡ resolved_id caller partition }
    ensures get_memory_balance { (caller partition : ℕ) → target_of (call.GetMemoryBalance partition) caller
        ≡ resolved_id caller partition }
    ensures create_vp { (caller partition vp : ℕ) → target_of (call.CreateVp partition vp) caller
        ≡ resolved_id caller partition }
    ensures delete_vp { (caller partition vp : ℕ) → target_of (call.DeleteVp partition vp) caller
        ≡ resolved_id caller partition }
    ensures get_vp_registers { (caller partition vp name : ℕ)
        → target_of (call.GetVpRegisters partition vp name) caller ≡ resolved_id caller partition }
    ensures set_vp_registers { (caller partition vp name value : ℕ)
        → target_of (call.SetVpRegisters partition vp name value) caller ≡ resolved_id caller partition }
    ensures delete_port { (caller partition port : ℕ) → target_of (call.DeletePort partition port) caller
        ≡ resolved_id caller partition }
    ensures disconnect_port { (caller partition connection : ℕ)
        → target_of (call.DisconnectPort partition connection) caller ≡ resolved_id caller partition }
    ensures post_message { (caller connection message_type : ℕ) (payload : List ℕ)
        → target_of (call.PostMessage connection message_type payload) caller ≡ caller }
    ensures signal_event { (caller connection flag : ℕ)
        → target_of (call.SignalEvent connection flag) caller ≡ caller }
    ensures create_port { (caller partition port peer : ℕ) (port_kind : PortKind) (sint : ℕ) (vp : Aim)
        (base count : ℕ) → target_of (call.CreatePort partition port peer port_kind sint vp base count) caller
        ≡ resolved_id caller partition }
    ensures connect_port { (caller partition connection port_partition port : ℕ)
        (port_kind : PortKind)
        → target_of (call.ConnectPort partition connection port_partition port port_kind) caller
        ≡ resolved_id caller partition }
{}

/// The offset and size of each call's parameters.
pub fn each_block_has_its_fields()
    ensures create_partition { (block : List ℕ) (element : ℕ) → call_in kind.CreatePartition block element
        ≡ call.CreatePartition (field block 0 8) }
    ensures initialize_partition { (block : List ℕ) (element : ℕ)
        → call_in kind.InitializePartition block element ≡ call.InitializePartition (field block 0 8) }
    ensures finalize_partition { (block : List ℕ) (element : ℕ)
        → call_in kind.FinalizePartition block element ≡ call.FinalizePartition (field block 0 8) }
    ensures delete_partition { (block : List ℕ) (element : ℕ) → call_in kind.DeletePartition block element
        ≡ call.DeletePartition (field block 0 8) }
    ensures get_partition_property { (block : List ℕ) (element : ℕ)
        → call_in kind.GetPartitionProperty block element
        ≡ call.GetPartitionProperty (field block 0 8) (field block 8 4) }
    ensures set_partition_property { (block : List ℕ) (element : ℕ)
        → call_in kind.SetPartitionProperty block element
        ≡ call.SetPartitionProperty (field block 0 8) (field block 8 4) (field block 16 8) }
    ensures get_partition_id { (block : List ℕ) (element : ℕ) → call_in kind.GetPartitionId block element
        ≡ call.GetPartitionId }
    ensures get_next_child_partition { (block : List ℕ) (element : ℕ)
        → call_in kind.GetNextChildPartition block element
        ≡ call.GetNextChildPartition (field block 0 8) (field block 8 8) }
    ensures deposit_memory { (block : List ℕ) (element : ℕ) → call_in kind.DepositMemory block element
        ≡ call.DepositMemory (field block 0 8) (field block element 8) }
    ensures withdraw_memory { (block : List ℕ) (element : ℕ) → call_in kind.WithdrawMemory block element
        ≡ call.WithdrawMemory (field block 0 8) }
    ensures get_memory_balance { (block : List ℕ) (element : ℕ)
        → call_in kind.GetMemoryBalance block element ≡ call.GetMemoryBalance (field block 0 8) }
    ensures create_vp { (block : List ℕ) (element : ℕ) → call_in kind.CreateVp block element
        ≡ call.CreateVp (field block 0 8) (field block 8 4) }
    ensures delete_vp { (block : List ℕ) (element : ℕ) → call_in kind.DeleteVp block element
        ≡ call.DeleteVp (field block 0 8) (field block 8 4) }
    ensures get_vp_registers { (block : List ℕ) (element : ℕ) → call_in kind.GetVpRegisters block element
        ≡ call.GetVpRegisters (field block 0 8) (field block 8 4) (field block element 4) }
    ensures set_vp_registers { (block : List ℕ) (element : ℕ) → call_in kind.SetVpRegisters block element
        ≡ call.SetVpRegisters (field block 0 8) (field block 8 4) (field block element 4)
        (field block (element + 16) 8) }
    ensures delete_port { (block : List ℕ) (element : ℕ) → call_in kind.DeletePort block element
        ≡ call.DeletePort (field block 0 8) (field block 8 4) }
    ensures disconnect_port { (block : List ℕ) (element : ℕ) → call_in kind.DisconnectPort block element
        ≡ call.DisconnectPort (field block 0 8) (field block 8 4) }
    ensures post_message { (block : List ℕ) (element : ℕ) → call_in kind.PostMessage block element
        ≡ call.PostMessage (field block 0 4) (field block 8 4) (bytes_at block 16 (field block 12 4)) }
    ensures signal_event { (block : List ℕ) (element : ℕ) → call_in kind.SignalEvent block element
        ≡ call.SignalEvent (field block 0 4) (field block 4 2) }
    ensures create_port { (block : List ℕ) (element : ℕ) → call_in kind.CreatePort block element
        ≡ call.CreatePort (field block 0 8) (field block 8 4) (field block 16 8)
        (port_kind (field block 24 4)) (field block 32 4) (port_aim (field block 36 4)) (field block 40 2)
        (field block 42 2) }
    ensures connect_port { (block : List ℕ) (element : ℕ) → call_in kind.ConnectPort block element
        ≡ call.ConnectPort (field block 0 8) (field block 8 4) (field block 16 8) (field block 24 4)
        (port_kind (field block 32 4)) }
{}

/// The bytes of each number and the offset of each element.
///
/// Numbers are little-endian, and bytes missing at the end read as zero. The elements of a rep call follow
/// the header, one after another.
pub fn each_field_has_its_bytes()
    ensures little_endian { field (0 ∷ 0x78 ∷ 0x56 ∷ 0x34 ∷ 0x12 ∷ 0 ∷ []) 1 4 ≡ 0x12345678 }
    ensures cut { field (0x78 ∷ 0x56 ∷ []) 0 8 ≡ 0x5678 }
    ensures past_the_end { field (0x78 ∷ 0x56 ∷ []) 2 8 ≡ 0 }
    ensures payload { bytes_at (1 ∷ 2 ∷ 3 ∷ []) 1 3 ≡ 2 ∷ 3 ∷ 0 ∷ [] }
    ensures deposit_memory { (start : ℕ) → element_at kind.DepositMemory start ≡ 8 + start * 8 }
    ensures get_vp_registers { (start : ℕ) → element_at kind.GetVpRegisters start ≡ 16 + start * 4 }
    ensures set_vp_registers { (start : ℕ) → element_at kind.SetVpRegisters start ≡ 16 + start * 32 }
{}

/// The parameters of each call that rule P7 checks.
pub fn each_call_has_its_checks()
    ensures create_partition { (block : List ℕ) (element : ℕ)
        → are_well_formed kind.CreatePartition block element ≡ true }
    ensures initialize_partition { (block : List ℕ) (element : ℕ)
        → are_well_formed kind.InitializePartition block element ≡ true }
    ensures finalize_partition { (block : List ℕ) (element : ℕ)
        → are_well_formed kind.FinalizePartition block element ≡ true }
    ensures delete_partition { (block : List ℕ) (element : ℕ)
        → are_well_formed kind.DeletePartition block element ≡ true }
    ensures get_partition_property { (block : List ℕ) (element : ℕ)
        → are_well_formed kind.GetPartitionProperty block element ≡ true }
    ensures set_partition_property { (block : List ℕ) (element : ℕ)
        → are_well_formed kind.SetPartitionProperty block element ≡ true }
    ensures get_partition_id { (block : List ℕ) (element : ℕ)
        → are_well_formed kind.GetPartitionId block element ≡ true }
    ensures get_next_child_partition { (block : List ℕ) (element : ℕ)
        → are_well_formed kind.GetNextChildPartition block element ≡ true }
    ensures deposit_memory { (block : List ℕ) (element : ℕ)
        → are_well_formed kind.DepositMemory block element ≡ true }
    ensures withdraw_memory { (block : List ℕ) (element : ℕ)
        → are_well_formed kind.WithdrawMemory block element ≡ true }
    ensures get_memory_balance { (block : List ℕ) (element : ℕ)
        → are_well_formed kind.GetMemoryBalance block element ≡ true }
    ensures create_vp { (block : List ℕ) (element : ℕ) → are_well_formed kind.CreateVp block element ≡ true }
    ensures delete_vp { (block : List ℕ) (element : ℕ) → are_well_formed kind.DeleteVp block element ≡ true }
    ensures get_vp_registers { (block : List ℕ) (element : ℕ)
        → are_well_formed kind.GetVpRegisters block element ≡ true }
    ensures set_vp_registers { (block : List ℕ) (element : ℕ)
        → are_well_formed kind.SetVpRegisters block element ≡ (field block (element + 24) 8 == 0) }
    ensures delete_port { (block : List ℕ) (element : ℕ) → are_well_formed kind.DeletePort block element
        ≡ is_id (field block 8 4) }
    ensures disconnect_port { (block : List ℕ) (element : ℕ)
        → are_well_formed kind.DisconnectPort block element ≡ is_id (field block 8 4) }
    ensures post_message { (block : List ℕ) (element : ℕ) → are_well_formed kind.PostMessage block element
        ≡ (is_id (field block 0 4) && is_message_type (field block 8 4) && nat_le (field block 12 4) 240) }
    ensures signal_event { (block : List ℕ) (element : ℕ) → are_well_formed kind.SignalEvent block element
        ≡ is_id (field block 0 4) }
    ensures create_port { (block : List ℕ) (element : ℕ) → are_well_formed kind.CreatePort block element
        ≡ (is_id (field block 8 4) && is_port_type (field block 24 4) && nat_le (field block 32 4) 15
        && are_flags (field block 24 4) (field block 40 2) (field block 42 2)) }
    ensures connect_port { (block : List ℕ) (element : ℕ) → are_well_formed kind.ConnectPort block element
        ≡ (is_id (field block 8 4) && is_id (field block 24 4) && is_port_type (field block 32 4)) }
{}

/// The edges of what rule P7 accepts: ids of ports and connections, port types, flags and message types.
pub fn each_check_has_its_edges()
    ensures highest_id { is_id 0x00FFFFFF ≡ true }
    ensures above_ids { is_id 0x01000000 ≡ false }
    ensures below_types { is_port_type 0 ≡ false }
    ensures message_type { is_port_type 1 ≡ true }
    ensures event_type { is_port_type 2 ≡ true }
    ensures above_types { is_port_type 3 ≡ false }
    ensures message_port { port_kind 1 ≡ port.Message }
    ensures event_port { port_kind 2 ≡ port.Event }
    ensures flags_of_messages { (base count : ℕ) → are_flags 1 base count ≡ true }
    ensures no_flags { are_flags 2 5 0 ≡ false }
    ensures one_flag { are_flags 2 2047 1 ≡ true }
    ensures all_flags { are_flags 2 0 2048 ≡ true }
    ensures past_the_flags { are_flags 2 1 2048 ≡ false }
    ensures no_message_type { is_message_type 0 ≡ false }
    ensures lowest_message_type { is_message_type 1 ≡ true }
    ensures highest_message_type { is_message_type 0x7FFFFFFF ≡ true }
    ensures hypervisors_message_type { is_message_type 0x80000000 ≡ false }
{}
