// The status values.
ghost use Rattle.std.specs.Prelude.{◌≡◌, codes};
ghost use Rattle.hv_abi.specs.declared.status.Status.TheVariants as status;
ghost use Rattle.hv_tables.specs.Lines.{status_line};

/// Each status's number and name.
pub fn each_status_has_its_line()
    ensures success { status_line status.Success ≡ (0x0, codes "SUCCESS") }
    ensures invalid_hypercall_code { status_line status.InvalidHypercallCode
        ≡ (0x2, codes "INVALID_HYPERCALL_CODE") }
    ensures invalid_hypercall_input { status_line status.InvalidHypercallInput
        ≡ (0x3, codes "INVALID_HYPERCALL_INPUT") }
    ensures invalid_alignment { status_line status.InvalidAlignment ≡ (0x4, codes "INVALID_ALIGNMENT") }
    ensures invalid_parameter { status_line status.InvalidParameter ≡ (0x5, codes "INVALID_PARAMETER") }
    ensures access_denied { status_line status.AccessDenied ≡ (0x6, codes "ACCESS_DENIED") }
    ensures invalid_partition_state { status_line status.InvalidPartitionState
        ≡ (0x7, codes "INVALID_PARTITION_STATE") }
    ensures unknown_property { status_line status.UnknownProperty ≡ (0x9, codes "UNKNOWN_PROPERTY") }
    ensures property_value_out_of_range { status_line status.PropertyValueOutOfRange
        ≡ (0xA, codes "PROPERTY_VALUE_OUT_OF_RANGE") }
    ensures insufficient_memory { status_line status.InsufficientMemory ≡ (0xB, codes "INSUFFICIENT_MEMORY") }
    ensures partition_too_deep { status_line status.PartitionTooDeep ≡ (0xC, codes "PARTITION_TOO_DEEP") }
    ensures invalid_partition_id { status_line status.InvalidPartitionId
        ≡ (0xD, codes "INVALID_PARTITION_ID") }
    ensures invalid_vp_index { status_line status.InvalidVpIndex ≡ (0xE, codes "INVALID_VP_INDEX") }
    ensures invalid_port_id { status_line status.InvalidPortId ≡ (0x11, codes "INVALID_PORT_ID") }
    ensures invalid_connection_id { status_line status.InvalidConnectionId
        ≡ (0x12, codes "INVALID_CONNECTION_ID") }
    ensures insufficient_buffers { status_line status.InsufficientBuffers
        ≡ (0x13, codes "INSUFFICIENT_BUFFERS") }
    ensures invalid_synic_state { status_line status.InvalidSynicState ≡ (0x18, codes "INVALID_SYNIC_STATE") }
    ensures object_in_use { status_line status.ObjectInUse ≡ (0x19, codes "OBJECT_IN_USE") }
    ensures no_resources { status_line status.NoResources ≡ (0x1D, codes "NO_RESOURCES") }
{}
