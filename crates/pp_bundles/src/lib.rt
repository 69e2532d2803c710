//! The pages of bundles: for each place a stack of pages, in records that all places share.
//!
//! To a caller [`Bundles`] is a list of stacks, and each call is an equation over that list, as `specs/Bundles.antt`
//! defines it. All memory is got when it is made: a page that is pushed takes a record that is free, and one that is
//! popped gives it back.
#![tactic(auto)]

pub use bundles::Bundles;

mod bundles;
mod record;
mod stacks;
