//! A B+ tree whose queries outlive a crash, above the libraries so that they aren't proved twice.
//!
//! The tree is that of pp_btree on a pool that stands. Between the pool and the medium stands what docs/durability.md
//! puts there: a redo log, and check sums. The power of the pages' device, or of the log's, fails at each of its calls in
//! turn. Then the log's replay has to bring back each query that was answered.
//!
//! Which line that is left out fails which test stands in `planted/by-tests`.
#![tactic(auto)]

#[cfg(test)]
mod cuts;
#[cfg(test)]
mod file;
#[cfg(test)]
mod image;
#[cfg(test)]
mod logged;
#[cfg(test)]
mod queries;
#[cfg(test)]
mod recovery;
#[cfg(test)]
mod redo_log;
#[cfg(test)]
mod serving;
