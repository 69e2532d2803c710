//! Tests of the crates below by their public calls, in a crate of their own so that no library is proved twice.
//!
//! They are of what no clause says: worked rows, that calls succeed up to their limits, texts for people, journals and reports
//! by their text, the numbers of refusals, and runs beside plain programs. Of shared devices they are of what ends see of each
//! other's writings, on threads too, and of what a file holds. Texts with the answers expected of them are rows of data
//! (crates/pp_test_rows).
#![tactic(auto)]

#[cfg(test)]
mod certificate;
#[cfg(test)]
mod common;
#[cfg(test)]
mod devices;
#[cfg(test)]
mod directory;
#[cfg(test)]
mod endless;
#[cfg(test)]
mod lines;
#[cfg(test)]
mod marks;
#[cfg(test)]
mod moves;
#[cfg(test)]
mod numbers;
#[cfg(test)]
mod plain_marks;
#[cfg(test)]
mod plan;
#[cfg(test)]
mod reports;
#[cfg(test)]
mod settings;
#[cfg(test)]
mod shared;
#[cfg(test)]
mod shared_files;
#[cfg(test)]
mod shared_memory;
#[cfg(test)]
mod shared_threads;
