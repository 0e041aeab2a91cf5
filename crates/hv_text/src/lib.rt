//! The texts of the program `hvpm`: the script that it reads, the audit of a history and the table of its
//! partitions.
//!
//! [`parse`] reads a script. It is `hv_script`'s, whose names are here too. [`audit`] writes a line for each
//! event of a history, and [`table`] a line for each partition of its machine. Both write exactly the bytes
//! that `specs/` define. After a failed write they report how many of the first bytes went out. [`put_bytes`]
//! writes any text so.
//! [`audit_line`] puts the line of one event into a buffer, for a caller that keeps no history. The texts'
//! forms are this project's own.
#![tactic(auto)]

mod audit_text;
mod fault;
mod put;
mod table_text;
mod text;

pub use audit_text::{Scratch, audit, audit_line};
pub use fault::PrintFault;
pub use hv_script::{Line, Script, ScriptFault, parse};
pub use put::put_bytes;
pub use table_text::{table, table_of};
pub use text::LINE;
