//! The tables of a partition's ports and connections (TLFS 4.0, "Inter-Partition Communication").
//!
//! Callers choose the ids, which are scattered, and a partition may have thousands of ports. So the rows are
//! in blocks of up to 16. A look-up is a binary search of the blocks, then one in a block, and a row that
//! comes or goes moves those of its block. `reserve_one` makes room first, and is the only call that can need
//! memory. The calls after it need room and cannot fail.
//!
//! Contracts see a table as the finite map from id to row, together with its room: the number of further rows
//! for which there is memory. How the rows are kept is not promised.
#![tactic(auto)]

mod blocks;
mod ports;
mod table;

pub use hv_defs::Aim;
pub use ports::{Conn, ConnTable, Port, PortTable};
pub use table::Table;
