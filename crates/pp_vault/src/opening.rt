//! A new vault.

ghost use Rattle.std.specs.Prelude.{◌≡◌, ◌≤◌, [], IfOk};
ghost use Rattle.pp_model.specs.Pool.{opening};
ghost use Rattle.pp_core.specs.Opening.{kept_of};
ghost use Rattle.pp_vault.specs.Parts.{parts_of};
ghost use Rattle.pp_vault.specs.StandsFor.{StandsFor};
ghost use Rattle.pp_vault.specs.Opening.{opening_images};

use crate::image::Image;
use crate::store::Store;
use pp_core::{Core, CoreError};
use pp_settings::Settings;
use std::alloc::{AllocError, Global};

/// An image of zeros for each of so many frames.
fn new_images(
    alloc: Global,
    frames: u32,
    page_bytes: usize,
) -> Result<Vec<Option<Image>>, AllocError>
    requires { 12 ≤ page_bytes }
    ensures { IfOk result (λ images. images.items ≡ opening_images frames page_bytes) }
{
    let mut images = Vec::with_capacity(alloc, frames as usize)?;
    for _ in 0..frames {
        images.push_reserved(Some(Image::new(alloc, page_bytes)?));
    }
    Ok(images)
}

impl Store {
    /// What a vault keeps in which nothing was done yet.
    pub(crate) fn new(alloc: Global, settings: &Settings) -> Result<Store, CoreError>
        ensures opens { IfOk result (λ store. StandsFor (parts_of store) (opening (kept_of settings.now))) }
        ensures none_kept { IfOk result (λ store. (parts_of store).core.plans ≡ []) }
        ensures page_bytes { IfOk result (λ store. store.page_bytes ≡ settings.now.page_bytes) }
    {
        let core = Core::new(alloc, settings)?;
        let page_bytes = settings.page_bytes() as usize;
        let images = new_images(alloc, settings.frames(), page_bytes)?;
        let spare = Some(Image::new(alloc, page_bytes)?);
        Ok(Store {
            core,
            images,
            spare,
            page_bytes,
        })
    }
}
