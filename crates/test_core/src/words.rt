// A status and a call, by their numbers and names.

use hv_abi::{CallKind, Status};

#[test]
fn words_are_told(rt: HostRuntime) {
    let status = Status::NoResources;
    let call = CallKind::GetVpRegisters;
    assert!(rt; status.code() == 0x1D && status.name() == "NO_RESOURCES");
    assert!(rt; call.code() == 0x50 && call.is_rep() && !call.accepts_fast());
    assert!(rt; call.input_len(40) == 176 && call.output_len(40) == 640);
}
