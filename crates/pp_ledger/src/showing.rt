//! What a vault shows of a page.

ghost use Rattle.std.specs.Prelude.{◌≡◌, ◌≤◌, true, false, length};
ghost use Rattle.pp_device.specs.Image.{head_of};
ghost use Rattle.pp_ledger.specs.Sites.{ShowsPage};

use pp_pool::copy_front;
use pp_vault::{ReadGuard, Vault};

/// Copies the front of the image of a page that is latched S into the slice, as far as the slice goes. Tells whether it
/// did. It did not, and the slice is as it was, where the guard isn't one of this state, or the slice has fewer than 64
/// bytes or more than a page.
#[inline(always)]
pub(crate) fn show(vault: &Vault, guard: &ReadGuard, bytes: &mut [u8]) -> bool
    ensures shown { ShowsPage vault.now guard.now bytes.old result bytes.new }
    ensures head { result ≡ true → (head_of bytes.new).0 ≡ guard.now.page }
    ensures long { result ≡ true → 64 ≤ length bytes.new }
    ensures unchanged { result ≡ false → bytes.new ≡ bytes.old }
{
    match vault.see(guard) {
        Some(body) => copy_front(guard.page(), guard.mark(), body, bytes),
        None => false,
    }
}
