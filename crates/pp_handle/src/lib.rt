//! A box in two parts, as a program in C can hold it: a pointer and an allocator.
//!
//! A value that lives between two calls of C stands in a box. C keeps the pointer, and each call puts the box together
//! again. A crate for one kind of value says what its pointer owns; this crate has what is the same for all of them.
#![tactic(auto)]

pub use parts::BoxParts;

mod parts;
