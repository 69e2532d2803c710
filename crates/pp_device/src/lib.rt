//! Devices that keep pages, and what stands at the front of a page's image.
//!
//! A pool reads and writes pages by a [`Device`]. Its calls may fail, and a reading may give any bytes: what a pool
//! knows of a page it knows from the head of the image, [`image::head`]. [`SoloDevice`] keeps its pages in memory, and
//! [`Failing`] puts planted troubles before another device, for tests.
//!
//! A file that keeps the pages of a device has the images of all of them, that of page p at byte p times the bytes of a page.
//! [`format_onto`] writes one anew.
#![tactic(auto)]

pub use count::Count;
pub use device::Device;
pub use failing::{Failing, Trouble};
pub use fault::Fault;
pub use format::format_onto;
pub use solo::SoloDevice;
pub use watch::{Nobody, Watch};

mod count;
mod device;
mod failing;
mod fault;
mod format;
pub mod image;
pub mod laws;
mod solo;
mod watch;
