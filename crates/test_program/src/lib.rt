//! The program's crates: texts that are read and written, and the commands `check`, `explain`, `serve` and
//! `draw` at their edges. Tests only.
#![tactic(auto)]

#[cfg(test)]
mod audit;
#[cfg(test)]
mod checks;
#[cfg(test)]
mod cuts;
#[cfg(test)]
mod edges;
#[cfg(test)]
mod explained;
#[cfg(test)]
mod graphs;
#[cfg(test)]
mod objects;
#[cfg(test)]
mod readers;
#[cfg(test)]
mod scripts;
#[cfg(test)]
mod sessions;
#[cfg(test)]
mod words;
#[cfg(test)]
mod writers;
