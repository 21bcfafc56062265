//! The tests of the command (`widl_top`) that no page of runs can hold: a folder or a sink that fails, texts that are made of many
//! parts, limits, and scripts over sets that no run is served over. All others are runs of `widl_rows`. A helper that finds no
//! memory ends the process. Nothing stands on this crate.
#![tactic(auto)]

#[cfg(test)]
mod chains;
#[cfg(test)]
mod command;
#[cfg(test)]
mod deep_calls;
#[cfg(test)]
mod faults;
#[cfg(test)]
mod hostile_containers;
#[cfg(test)]
mod hostile_runs;
#[cfg(test)]
mod large_containers;
#[cfg(test)]
mod limits;
#[cfg(test)]
mod made;
#[cfg(test)]
mod made_sets;
#[cfg(test)]
mod scripts;
#[cfg(test)]
mod shared;
#[cfg(test)]
mod streamed;
