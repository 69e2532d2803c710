//! Guards: what a worker has of a slot that it holds.

ghost use Rattle.std.specs.Prelude.{◌≡◌};
ghost use Rattle.std.specs.Borrow.{sem};
ghost use Rattle.pp_device.specs.Image.{body_of};
ghost use Rattle.pp_vault.specs.Holding.{slot_by};

use crate::image::Image;

/// A slot that holds a page, not latched.
///
/// It is spent by latching the page or by unfixing it; the compiler refuses code that lets it fall.
#[derive(Debug)]
pub struct PinGuard {
    pub(crate) worker: u32,
    pub(crate) slot: u32,
    pub(crate) page: u32,
}

/// A slot that holds a page, latched S. Its image may be looked at.
///
/// It is spent by unlatching the page, or by giving the slot back on the way out of a plan.
#[derive(Debug)]
pub struct ReadGuard {
    pub(crate) worker: u32,
    pub(crate) slot: u32,
    pub(crate) page: u32,
    pub(crate) mark: u64,
}

/// A slot that holds a page, latched X, with the page's image in it.
///
/// Its body may be changed, but not its head: the head is written as the latch goes off the page, with a stamp of one
/// more. It is spent as a [`ReadGuard`] is.
#[derive(Debug)]
pub struct WriteGuard {
    pub(crate) worker: u32,
    pub(crate) slot: u32,
    pub(crate) page: u32,
    pub(crate) mark: u64,
    pub(crate) image: Image,
}

/// A slot that is a bundle: it pins each page that was gathered into it. They aren't latched through it.
///
/// There is one for the bundle, however many pages it holds. It is spent by scattering the bundle, or by giving it back on
/// the way out of a plan; the compiler refuses code that lets it fall.
#[derive(Debug)]
pub struct BundleGuard {
    pub(crate) worker: u32,
    pub(crate) slot: u32,
}

/// Any guard of a slot.
#[derive(Debug)]
pub enum Guard {
    Pin(PinGuard),
    Read(ReadGuard),
    Write(WriteGuard),
    Bundle(BundleGuard),
}

impl Guard {
    /// The slot's number.
    pub fn slot(&self) -> u32
        ensures { result ≡ slot_by self.now }
    {
        match self {
            Guard::Pin(guard) => guard.slot,
            Guard::Read(guard) => guard.slot,
            Guard::Write(guard) => guard.slot,
            Guard::Bundle(guard) => guard.slot,
        }
    }
}

impl BundleGuard {
    /// The slot's number.
    pub fn slot(&self) -> u32
        ensures { result ≡ self.now.slot }
    {
        self.slot
    }
}

impl PinGuard {
    /// The slot's number.
    pub fn slot(&self) -> u32
        ensures { result ≡ self.now.slot }
    {
        self.slot
    }

    /// The page that the slot holds.
    pub fn page(&self) -> u32
        ensures { result ≡ self.now.page }
    {
        self.page
    }
}

impl ReadGuard {
    /// The slot's number.
    pub fn slot(&self) -> u32
        ensures { result ≡ self.now.slot }
    {
        self.slot
    }

    /// The page that the slot holds.
    pub fn page(&self) -> u32
        ensures { result ≡ self.now.page }
    {
        self.page
    }

    /// The mark of the page as it was latched, the stamp in the head of its image.
    pub fn mark(&self) -> u64
        ensures { result ≡ self.now.mark }
    {
        self.mark
    }
}

impl WriteGuard {
    ghost use Rattle.pp_vault.specs.Lending.{LendsGuardBody};

    /// The slot's number.
    pub fn slot(&self) -> u32
        ensures { result ≡ self.now.slot }
    {
        self.slot
    }

    /// The page that the slot holds.
    pub fn page(&self) -> u32
        ensures { result ≡ self.now.page }
    {
        self.page
    }

    /// The mark of the page as it was latched, the stamp in the head of its image.
    pub fn mark(&self) -> u64
        ensures { result ≡ self.now.mark }
    {
        self.mark
    }

    /// The body of the page's image: its bytes from byte 12 on.
    pub fn body(&self) -> &[u8]
        ensures { result.now ≡ body_of self.now.image }
    {
        self.image.body()
    }

    /// The body of the page's image, to be changed: its bytes from byte 12 on. Whatever is left there is the body of
    /// the guard's image from then on; its head stays.
    pub fn body_mut(&mut self) -> &mut [u8]
        ensures* writes_back { sem 𝓛 (LendsGuardBody self.entry result) }
        ensures body { result.now ≡ body_of self.old.image }
    {
        self.image.body_mut()
    }
}
