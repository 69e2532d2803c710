//! Looking at a page that is latched S.

ghost use Rattle.std.specs.Prelude.{◌≡◌, Some, length, is_ok, IfErr, IfSome, OnOk, OnErr};
ghost use Rattle.std.specs.Option.{is_some};
ghost use Rattle.pp_model.specs.Pool.{State};
ghost use Rattle.pp_vault.specs.Parts.{parts_of};
ghost use Rattle.pp_vault.specs.StandsFor.{StandsFor, IsKept};
ghost use Rattle.pp_vault.specs.Flushes.{IsImageOf};
ghost use Rattle.pp_vault.specs.Looks.{may_see, may_look, look_error, CanSee, Shows, ShowsBody};

use crate::guards::ReadGuard;
use crate::image::Image;
use crate::store::Store;
use pp_core::Held;
use std::fmt;

/// Why a page's image isn't copied. The slice is as it was.
#[derive(Clone, Copy, Debug, PartialEq, Eq)]
pub enum LookError {
    /// The guard isn't one of this state: its worker's slot doesn't hold its page latched S.
    Stranger,
    /// The guard is one of this state, but the slice isn't as long as a page.
    Length,
}

impl fmt::Display for LookError {
    ghost use Rattle.pp_vault.specs.Words.{look_error_words};

    ghost output = { λ error. Some (look_error_words error) };

    fn fmt<W: fmt::Write>(&self, f: &mut fmt::Formatter<W>) -> fmt::Result {
        match self {
            LookError::Stranger => f.write_str("the guard is not one of this state"),
            LookError::Length => f.write_str("the slice is not as long as a page"),
        }
    }
}

impl Store {
    /// Whether the guard fits: its worker's slot has its page latched S.
    fn may_see(&self, guard: &ReadGuard) -> bool
        ensures { (s : State) → StandsFor (parts_of self.now) s → result ≡ may_see guard.now s }
    {
        self.holds_so(guard.worker, guard.slot, guard.page, Held::S)
    }

    /// The image of a page that has one in its frame.
    fn image_of(&self, page: u32) -> &Image
        requires { CanSee (parts_of self.now) page }
        ensures { (s : State) → StandsFor (parts_of self.now) s → IsImageOf (parts_of self.now) s page result.now }
    {
        let Some(frame) = self.core.frame_of(page) else {
            unreachable!()
        };
        let Some(image) = &self.images[frame as usize] else {
            unreachable!()
        };
        image
    }

    /// The body of the image of the guard's page, where the guard fits.
    pub(crate) fn see(&self, guard: &ReadGuard) -> Option<&[u8]>
        requires { IsKept (parts_of self.now) }
        ensures some { (s : State) → StandsFor (parts_of self.now) s → is_some result ≡ may_see guard.now s }
        ensures shown { IfSome result (λ body. ShowsBody (parts_of self.now) guard.now.page body.now) }
    {
        if !self.may_see(guard) {
            return None;
        }
        Some(self.image_of(guard.page).body())
    }

    /// Copies the page's image into the slice.
    fn show(&self, page: u32, bytes: &mut [u8])
        requires there { CanSee (parts_of self.now) page }
        requires long { length bytes.old ≡ (parts_of self.now).page_bytes }
        ensures { (s : State) → StandsFor (parts_of self.now) s → IsImageOf (parts_of self.now) s page bytes.new }
    {
        bytes.copy_from_slice(self.image_of(page).bytes());
    }

    /// Copies the image of the guard's page into the slice, where the guard fits and the slice is as long as a page.
    pub(crate) fn look(&self, guard: &ReadGuard, bytes: &mut [u8]) -> Result<(), LookError>
        requires { IsKept (parts_of self.now) }
        ensures ok { (s : State) → StandsFor (parts_of self.now) s
            → is_ok result ≡ may_look (parts_of self.now).page_bytes guard.now (length bytes.old) s }
        ensures error { IfErr result (λ e. (s : State) → StandsFor (parts_of self.now) s
            → look_error (parts_of self.now).page_bytes guard.now (length bytes.old) s ≡ Some e) }
        ensures shown { OnOk result (Shows (parts_of self.now) guard.now.page bytes.new) }
        ensures unchanged { OnErr result (bytes.new ≡ bytes.old) }
    {
        if !self.may_see(guard) {
            return Err(LookError::Stranger);
        }
        if bytes.len() != self.page_bytes {
            return Err(LookError::Length);
        }
        self.show(guard.page, bytes);
        Ok(())
    }
}
