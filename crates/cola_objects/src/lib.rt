//! Tests of what lies below a session, and their objects: cells of rows, runs that are put into an object of cells, made and
//! worked chains of runs.
#![tactic(auto)]

#[cfg(test)]
mod chains;
#[cfg(test)]
mod directions;
#[cfg(test)]
mod levels;
#[cfg(test)]
mod merges;
#[cfg(test)]
mod required;
#[cfg(test)]
mod rows;
#[cfg(test)]
mod runs;
#[cfg(test)]
mod searches;
#[cfg(test)]
mod stores;
