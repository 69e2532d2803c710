//! The settings of a page buffer pool, read exactly from a TOML text, and the layout of its pages.
#![tactic(auto)]

mod error;
mod extent;
mod extents;
mod key;
mod layout;
pub mod limits;
mod names;
mod reading;
mod regions;
mod settings;
mod span;
mod version;

pub use error::{OtherLife, SettingsError};
pub use extent::Extent;
pub use key::{RegionKey, Spot, TopKey};
pub use layout::Layout;
pub use settings::Settings;
pub use span::Span;
pub use version::TextVersion;
