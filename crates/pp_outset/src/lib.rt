//! What a life of a pool begins with besides its settings.
//!
//! A pool has lives (docs/architecture.md, *Lives*). The first begins in the opening state of the settings, and each other with
//! what the life before left: ARC's lists and target, and of each page its frame, its mark, and whether it is dirty. That is the
//! life's [`Outset`]. Who keeps the journal of a life keeps its outset too, since the journal is true from there on.
#![tactic(auto)]

pub use outset::Outset;

pub mod laws;
mod note;
mod outset;
