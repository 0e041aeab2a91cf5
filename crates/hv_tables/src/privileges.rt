// The bits of a privilege mask.
ghost use Rattle.std.specs.Prelude.{◌≡◌, ◌^◌};
ghost use Rattle.hv_privs.specs.Privileges.{bits_of};
ghost use Rattle.hv_privs.specs.declared.TheConstants.Privileges as privilege;

/// The bit of each named privilege, and the most that a new partition gets of its creator's mask.
pub fn each_privilege_has_its_bit()
    ensures access_synic_regs { bits_of privilege.ACCESS_SYNIC_REGS ≡ 2 ^ 2 }
    ensures access_vp_index { bits_of privilege.ACCESS_VP_INDEX ≡ 2 ^ 6 }
    ensures create_partitions { bits_of privilege.CREATE_PARTITIONS ≡ 2 ^ 32 }
    ensures access_partition_id { bits_of privilege.ACCESS_PARTITION_ID ≡ 2 ^ 33 }
    ensures access_memory_pool { bits_of privilege.ACCESS_MEMORY_POOL ≡ 2 ^ 34 }
    ensures post_messages { bits_of privilege.POST_MESSAGES ≡ 2 ^ 36 }
    ensures signal_events { bits_of privilege.SIGNAL_EVENTS ≡ 2 ^ 37 }
    ensures create_port { bits_of privilege.CREATE_PORT ≡ 2 ^ 38 }
    ensures connect_port { bits_of privilege.CONNECT_PORT ≡ 2 ^ 39 }
    ensures new_partition { bits_of privilege.NEW_PARTITION ≡ 0x0000003000000044 }
{}
