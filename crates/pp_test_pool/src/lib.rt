//! Tests of the pool on one thread by its public calls, in a crate of their own so that no library is proved twice.
//!
//! They are of what no clause says: that a turn does its work, which events a plan comes to, what the work is shown, and what
//! a renewed book begins with. What comes of each is noted as text, and the text is compared.
#![tactic(auto)]

#[cfg(test)]
mod bundling;
#[cfg(test)]
mod fixing;
#[cfg(test)]
mod lending;
#[cfg(test)]
mod lives;
#[cfg(test)]
mod noting;
#[cfg(test)]
mod pairs;
#[cfg(test)]
mod rooms;
#[cfg(test)]
mod rows;
#[cfg(test)]
mod site;
#[cfg(test)]
mod stand;
