//! The words that several crates of the partition manager share: life states, kinds of ports and their aims,
//! the sizes and charges of the profile, and the registers of a virtual processor.
//!
//! `specs/` has the definitions that more than one crate cites: a little-endian field of a block of bytes,
//! bits of a register value, the registers of a new processor, and what a register keeps of a written value;
//! the bytes of a message slot and of a SINT's event flags, when a processor takes messages and flags, which
//! vector a SINT raises, and the highest pending vector. The crate has no logic.
#![tactic(auto)]

mod aim;
mod life;
mod port_kind;
mod registers;
mod sizes;

pub use aim::Aim;
pub use life::Life;
pub use port_kind::PortKind;
pub use registers::{
    EOM, REGISTER_COUNT, REGISTERS, RegFault, RegisterRow, SCONTROL, SIEFP, SIMP, SINT0, Takes,
    VP_INDEX,
};
pub use sizes::{
    ANY_VP, CONNECTION_CHARGE, CPU_CAP_START, CPU_RESERVE_START, CPU_WEIGHT_START, EVENT_FLAGS,
    FIRST_CHILD_ID, MAX_CPU_CAP, MAX_CPU_RESERVE, MAX_CPU_WEIGHT, MAX_DEPTH, MAX_MESSAGE_TYPE,
    MAX_MESSAGES, MAX_PAGES, MAX_PAYLOAD, MAX_PORT_ID, MAX_SERVED, MAX_VPS, MIN_CPU_WEIGHT,
    PAGE_SIZE, PARTITION_CHARGE, PORT_CHARGE, REPS_END, ROOT_ID, SELF_ID, SINTS, VP_CHARGE,
};
