//! Scripts of cues, played over a vault on one thread.
//!
//! A [`Cue`] asks one thing of a worker, of the device or of the flusher; [`play`] does it with the tokens that are in
//! the vault's [`Hands`], and tells by a [`Line`] what it came to.
#![tactic(auto)]

pub use line::{Line, Printed};
pub use playing::{PlayError, play};
pub use pp_script::Cue;
pub use pp_vault::{Device, Hands, Vault};

mod bytes;
mod devices;
mod guards;
mod line;
mod playing;
mod refusing;
mod workers;
