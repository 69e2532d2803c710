//! Tests of runs on threads, above the library so that it isn't proved twice.
//!
//! They are of what no clause says: that a run ends and ends well, that it goes through its devices and its works, that
//! two workers are at work at once, that who waits is woken, and what comes of want of memory. Every run is watched, so
//! that a hang is a failure.
//!
//! A run is data, a `Case`: its settings and plans, what its threads wait for, what its devices do amiss, and what is counted
//! afterwards. One work, one device and one function serve them all, since each function of a test is proved as well.
#![tactic(auto)]

#[cfg(test)]
mod board;
#[cfg(test)]
mod case;
#[cfg(test)]
mod counting;
#[cfg(test)]
mod desk;
#[cfg(test)]
mod lent;
#[cfg(test)]
mod lent_rows;
#[cfg(test)]
mod lives;
#[cfg(test)]
mod player;
#[cfg(test)]
mod queries;
#[cfg(test)]
mod rows;
#[cfg(test)]
mod running;
#[cfg(test)]
mod slow;
#[cfg(test)]
mod stopping;
#[cfg(test)]
mod stress;
#[cfg(test)]
mod told;
#[cfg(test)]
mod waking;
