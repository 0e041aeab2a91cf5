// Provenance: which history entries account for each port, connection, message and event flag.
//
// `WasMade`, `WasConnected`, `WasPosted` and `WasSignalled` in `specs/` say which entries of a history
// account for a row. A history is a list of events with their replies, refused events included. Entries are
// numbered from 1, as the audit's lines are.

ghost use Rattle.std.specs.Prelude.{◌≡◌, ℕ, List, Some, true, length};
ghost use Rattle.std.specs.FinMap.{get};
ghost use Rattle.hv_policy.specs.Flat.{ConnRow, PortRow};
ghost use Rattle.hv_policy.specs.Mail.{Place, mail_at};
ghost use Rattle.hv_policy.specs.Step.{run};
ghost use Rattle.hv_policy.specs.declared.config.Config.{Config};
ghost use Rattle.hv_policy.specs.declared.event.Event.{Event};
ghost use Rattle.hv_security.specs.Operation.{operations_of, served_to};
ghost use Rattle.hv_security.specs.Justified.{AreOfPeers, WasConnected, WasMade, WasSignalled, WerePosted};
ghost use Rattle.hv_security.specs.Justified.{is_flag_set, state_before};

/// In every state of a run, an entry created each port and connection, and nothing has ended it since. At a
/// port's entry, the count of served events is the port's birth. At a connection's entry, the port to which
/// it leads existed, for the connection's partition; the connection keeps that port's type and birth.
pub fn every_port_and_connection_has_its_making<A>()
    ensures entries { (config : Config) (events : List (Event A))
        → length (operations_of events (run config events).1) ≡ length events }
    ensures served { (config : Config) (events : List (Event A))
        → (run config events).0.served ≡ served_to (operations_of events (run config events).1)
        (length events) }
    ensures ports { (config : Config) (events : List (Event A)) (key : ℕ × ℕ) (port : PortRow)
        → get (run config events).0.port key ≡ Some port
        → WasMade (operations_of events (run config events).1) key port }
    ensures conns { (config : Config) (events : List (Event A)) (key : ℕ × ℕ) (conn : ConnRow)
        → get (run config events).0.conn key ≡ Some conn
        → WasConnected (operations_of events (run config events).1) key conn }
{}

/// In every state of a run, a connection that keeps the birth of its port belongs to that port's peer. What
/// arrives at a port therefore comes from the partition for which the port was created.
pub fn each_connection_is_of_its_ports_peer<A>()
    ensures { (config : Config) (events : List (Event A)) → AreOfPeers (run config events).0 }
{}

/// In every state of a run, each message was posted through a connection to the port of its birth. The sender
/// is the partition for which that port was created, and both the port and the connection existed then. The
/// message went to the processor that took it: the one at which the port aims, or the lowest that was ready
/// for messages if the port aims at any. That processor has existed since. The messages of a place are in the
/// order in which they were posted, each from a post of its own, and so are all messages.
pub fn every_message_was_posted<A>()
    ensures all { (config : Config) (events : List (Event A))
        → WerePosted (state_before config events) (operations_of events (run config events).1) 0
        (run config events).0.mail }
    ensures places { (config : Config) (events : List (Event A)) (place : Place)
        → WerePosted (state_before config events) (operations_of events (run config events).1) 0
        (mail_at place (run config events).0.mail) }
{}

/// In every state of a run, each set event flag was signalled through a connection to an event port, and is
/// one of that port's flags. The sender is the partition for which that port was created, and both the port
/// and the connection existed then. The flag is at the processor that took the signal. That processor has
/// existed since, and has not cleared the flag.
pub fn every_flag_was_signalled<A>()
    ensures flags { (config : Config) (events : List (Event A)) (id vp sint flag : ℕ)
        → is_flag_set (run config events).0 id vp sint flag ≡ true
        → WasSignalled (state_before config events) (operations_of events (run config events).1) id vp sint
        flag }
{}
