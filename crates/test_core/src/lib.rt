//! The core's crates: public functions that no other crate calls, each run once with values from outside;
//! three trees; hostile frames, served by the whole machine and decoded one by one; ids of all kinds in each
//! field that has one; and calls stepped element by element. Tests only.
#![tactic(auto)]

#[cfg(test)]
mod blocks;
#[cfg(test)]
mod calls;
#[cfg(test)]
mod copies;
#[cfg(test)]
mod flips;
#[cfg(test)]
mod frames;
#[cfg(test)]
mod hostile;
#[cfg(test)]
mod ids;
#[cfg(test)]
mod large_tree;
#[cfg(test)]
mod mail;
#[cfg(test)]
mod pages;
#[cfg(test)]
mod small_tree;
#[cfg(test)]
mod stepped;
#[cfg(test)]
mod tables;
#[cfg(test)]
mod tree;
#[cfg(test)]
mod words;
