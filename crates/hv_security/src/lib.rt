//! The security of the policy: integrity, noninterference and provenance.
//!
//! The crate has no code. Each function's contract is a theorem about the definitions of `hv_policy`: about
//! one event from any state, or about whole runs of the model from any configuration.
#![tactic(auto)]

mod integrity;
mod noninterference;
mod provenance;

pub use integrity::{
    each_event_is_confined, each_reply_is_of_what_relatives_have, unrelated_events_do_not_show,
};
pub use noninterference::{
    a_closed_set_looks_at_nothing_outside, a_partition_keeps_its_depth,
    a_tenant_sees_no_more_than_the_ends_of_its_connections, each_event_is_of_what_it_is_about,
    events_of_others_do_not_show, nothing_is_looked_up_without_privileges,
    replies_are_of_what_members_do_and_is_done_to_them,
};
pub use provenance::{
    each_connection_is_of_its_ports_peer, every_flag_was_signalled, every_message_was_posted,
    every_port_and_connection_has_its_making,
};
