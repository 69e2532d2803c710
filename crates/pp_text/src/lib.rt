//! What the readers and writers of all texts share: names, a text cut at a separator, numbers exactly as they are printed,
//! the keys of JSON objects, and refusals as programs print them.
//!
//! The crate's definitions are for the contracts of the crates above: work in steps of which the first that fails
//! answers (`specs/Steps.antt`), what stands in a JSON object (`specs/Objects.antt`), words in quotes and lists in
//! brackets (`specs/Words.antt`), and the row that a program prints of a refusal (`specs/Refusals.antt`). Their laws
//! stand in `proofs/`, in modules that other crates may use.
#![tactic(auto)]

pub use cuts::cut;
pub use names::is_name;
pub use numbers::{number, small_number};
pub use objects::{has_only_keys, is_one_of};
pub use refusal::{About, Refusal};

mod cuts;
mod names;
mod numbers;
mod objects;
mod refusal;
