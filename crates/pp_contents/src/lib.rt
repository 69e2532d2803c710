//! What pages hold: where the body of each page is, and that no call of a vault loses it.
//!
//! A vault tells of each call which image came, went or stayed. The laws here put that together: the content of a page
//! follows readings and writers, and nothing else. They stand apart from the vault, since a pool and its runs need none of
//! them.
#![tactic(auto)]

pub mod laws;
