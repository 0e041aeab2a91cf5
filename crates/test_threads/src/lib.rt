//! Processors that share one history: phases in threads and their settlement, rep calls that continue hold by
//! hold, gates, and refusals by the host. Tests only.
#![tactic(auto)]

#[cfg(test)]
mod alone;
#[cfg(test)]
mod calls;
#[cfg(test)]
mod deleted;
#[cfg(test)]
mod finalized;
#[cfg(test)]
mod gated;
#[cfg(test)]
mod gates;
#[cfg(test)]
mod holds;
#[cfg(test)]
mod refuses;
#[cfg(test)]
mod settles;
