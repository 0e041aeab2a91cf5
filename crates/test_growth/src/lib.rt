//! Fault injection: every call that may take memory is refused its first block, then its second, and so on
//! until it succeeds. After each refusal, the call is made again with memory, and is served. Tests only.
#![tactic(auto)]

#[cfg(test)]
mod denials;
#[cfg(test)]
mod events;
#[cfg(test)]
mod growths;
#[cfg(test)]
mod links;
#[cfg(test)]
mod mail;
#[cfg(test)]
mod pages;
#[cfg(test)]
mod partitions;
pub mod rationed;
#[cfg(test)]
mod refusals;
#[cfg(test)]
mod rows;
#[cfg(test)]
mod runs;
#[cfg(test)]
mod texts;
#[cfg(test)]
mod trees;
#[cfg(test)]
mod trial;
#[cfg(test)]
mod wholes;
