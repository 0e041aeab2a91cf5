// The numbers of the profile, and what boot, blocks and start values take from them.
ghost use Rattle.std.specs.Prelude.{◌≡◌};
ghost use Rattle.hv_defs.specs.declared.sizes.TheConstants.{PAGE_SIZE, MAX_PAGES, MAX_VPS, SELF_ID, ROOT_ID};
ghost use Rattle.hv_defs.specs.declared.sizes.TheConstants.{MAX_DEPTH, FIRST_CHILD_ID, PARTITION_CHARGE};
ghost use Rattle.hv_defs.specs.declared.sizes.TheConstants.{VP_CHARGE, PORT_CHARGE, CONNECTION_CHARGE};
ghost use Rattle.hv_defs.specs.declared.sizes.TheConstants.{CPU_RESERVE_START, CPU_CAP_START};
ghost use Rattle.hv_defs.specs.declared.sizes.TheConstants.{CPU_WEIGHT_START, MAX_CPU_RESERVE, MAX_CPU_CAP};
ghost use Rattle.hv_defs.specs.declared.sizes.TheConstants.{MIN_CPU_WEIGHT, MAX_CPU_WEIGHT, SINTS};
ghost use Rattle.hv_defs.specs.declared.sizes.TheConstants.{EVENT_FLAGS, MAX_MESSAGES, MAX_PAYLOAD};
ghost use Rattle.hv_defs.specs.declared.sizes.TheConstants.{MAX_PORT_ID, MAX_MESSAGE_TYPE, ANY_VP, REPS_END};
ghost use Rattle.hv_defs.specs.declared.sizes.TheConstants.{MAX_SERVED};

/// The numbers of the profile.
pub fn each_size_has_its_value()
    ensures page_size { PAGE_SIZE ≡ 4096 }
    ensures max_pages { MAX_PAGES ≡ 65536 }
    ensures max_vps { MAX_VPS ≡ 64 }
    ensures self_id { SELF_ID ≡ 18446744073709551615 }
    ensures root_id { ROOT_ID ≡ 1 }
    ensures first_child_id { FIRST_CHILD_ID ≡ 2 }
    ensures max_depth { MAX_DEPTH ≡ 7 }
    ensures partition_charge { PARTITION_CHARGE ≡ 2 }
    ensures vp_charge { VP_CHARGE ≡ 4 }
    ensures port_charge { PORT_CHARGE ≡ 1 }
    ensures connection_charge { CONNECTION_CHARGE ≡ 1 }
    ensures cpu_reserve_start { CPU_RESERVE_START ≡ 0 }
    ensures cpu_cap_start { CPU_CAP_START ≡ 65536 }
    ensures cpu_weight_start { CPU_WEIGHT_START ≡ 100 }
    ensures max_cpu_reserve { MAX_CPU_RESERVE ≡ 65536 }
    ensures max_cpu_cap { MAX_CPU_CAP ≡ 65536 }
    ensures min_cpu_weight { MIN_CPU_WEIGHT ≡ 1 }
    ensures max_cpu_weight { MAX_CPU_WEIGHT ≡ 10000 }
    ensures sints { SINTS ≡ 16 }
    ensures event_flags { EVENT_FLAGS ≡ 2048 }
    ensures max_messages { MAX_MESSAGES ≡ 8 }
    ensures max_payload { MAX_PAYLOAD ≡ 240 }
    ensures max_port_id { MAX_PORT_ID ≡ 0x00FFFFFF }
    ensures max_message_type { MAX_MESSAGE_TYPE ≡ 0x7FFFFFFF }
    ensures any_vp { ANY_VP ≡ 0xFFFFFFFF }
    ensures reps_end { REPS_END ≡ 4096 }
    ensures max_served { MAX_SERVED ≡ 18446744073709551613 }
{}
