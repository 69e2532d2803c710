//! What is said of a text that is refused, for people: the first fault of settings, of a plan, of a certificate or of a
//! script, and the rule that it breaks.
#![tactic(auto)]

mod certificate_text;
mod names;
mod plan_text;
mod script_text;
mod settings_places;
mod settings_text;

pub use certificate_text::certificate_said;
pub use names::{region_name, region_names, slot_name, slot_names};
pub use plan_text::plan_said;
pub use script_text::script_said;
pub use settings_text::{other_life_said, settings_said};
