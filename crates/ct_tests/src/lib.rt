//! Tests of the crates below, in one place: a crate with tests of its own is proved twice.
#![tactic(auto)]

#[cfg(test)]
mod forms;
#[cfg(test)]
mod mode_data;
#[cfg(test)]
mod mode_lists;
#[cfg(test)]
mod operations;
#[cfg(test)]
mod reservations;
#[cfg(test)]
mod unmap_lists;
