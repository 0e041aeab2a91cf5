//! The state at the end of a script, as a graph for Graphviz, and its run as a sequence chart: `hvpm draw`.
//!
//! [`draw_text`] runs the lines of a script in order and writes the graph. It has a cluster for each
//! partition, by rising id, with a node for the partition, for each of its virtual processors and for each of
//! its ports. An edge leads from each parent to its children, and from a partition to each port to which it
//! is connected. `specs/Graph.antt` defines what the text promises: each partition has its node, with its
//! life state, depth, mask and pages, and the title has the number of events.
//!
//! [`state_text`] also takes the events of an audit, and may draw a part: a partition, or one of its
//! processors, with the partitions above it and what connects them. `specs/Chosen.antt` says which partitions
//! these are.
//!
//! [`sequence_text`] runs the lines, or takes the events of an audit, and writes a sequence chart in SVG. It
//! has a lane for each virtual processor that acts or is reached, by partition, and a row for each event that
//! matters, from top to bottom: `charts` of `specs/Sequence.antt` says which. A [`Choice`] leaves out some of
//! them. An arrow leads from the sender of a message or a signal to the processor that it reached. Both forms
//! are this project's own.
#![tactic(auto)]

mod above;
mod arrows;
mod audit;
mod calls;
mod chart;
mod choice;
mod chosen;
mod draw;
mod events;
mod folded;
mod graph;
mod head;
mod inside;
mod lanes;
mod layout;
mod left;
mod links;
mod made;
mod notes;
mod only;
mod phases;
mod put;
mod rowed;
mod sequence;
mod shapes;
mod shown;
mod silent;
mod text;
mod ties;
mod ways;

pub use choice::{Choice, Only};
pub use draw::{draw_text, state_text};
pub use sequence::sequence_text;
