// The help of a session.

// What a line `help` shows, whose last line is that of `help`.
pub(crate) const HELP: &str = "\
Lines:
  boot PAGES POOL VPS MASK LIMIT  Boot a machine, with POOL of its PAGES pooled
  phase                           Begin a phase, which may name 64 VPs
  ID.VP call RCX RDX R8 BYTES     Make a hypercall as VP of partition ID
  ID.VP CALL FIELD=VALUE ..       Make it by names, if the session takes --names
  ID.VP rdmsr MSR                 Read an MSR
  ID.VP wrmsr MSR VALUE           Write an MSR
  ID.VP slot S                    Read the message slot of SINT S
  ID.VP clearslot S               Clear it
  ID.VP flags S                   Read the event flags of SINT S
  ID.VP clearflag S F             Clear flag F of them
  ID.VP interrupt                 Take the highest pending vector
  table                           Show the partitions
  peek ID.VP slot S               Show a message slot, without an event
  peek ID.VP flags S              Show event flags
  peek ID.VP rdmsr MSR            Show an MSR
  peek ID.VP pending              Show the pending vectors
  explain                         Explain the last event
  help                            Show this help
";
