//! Small tests of what no clause says and no session shows: values and edges as worked out by hand, a table to a loop, and
//! each generic function once at a concrete type, through its bound.
#![tactic(auto)]

#[cfg(test)]
mod blocks;
#[cfg(test)]
mod cell;
#[cfg(test)]
mod clock;
#[cfg(test)]
mod devices;
#[cfg(test)]
mod example;
#[cfg(test)]
mod files;
#[cfg(test)]
mod handle;
#[cfg(test)]
mod image;
#[cfg(test)]
mod io;
#[cfg(test)]
mod journal;
#[cfg(test)]
mod journal_bytes;
#[cfg(test)]
mod kv;
#[cfg(test)]
mod layout;
#[cfg(test)]
mod line;
#[cfg(test)]
mod made;
#[cfg(test)]
mod marks;
#[cfg(test)]
mod pairs;
#[cfg(test)]
mod plain;
#[cfg(test)]
mod runs;
#[cfg(test)]
mod stores;
#[cfg(test)]
mod table;
