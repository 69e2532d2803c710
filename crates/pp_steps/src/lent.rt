//! Bodies of pages that are lent to a host by their address.

ghost use Rattle.std.specs.Prelude.{◌≡◌, true, None, Some, IfSome, IfNone, IfOk, IfErr, length};
ghost use denote.RawPtr.{block_ptr};
ghost use Rattle.pp_vault.specs.Holding.{placed};
ghost use Rattle.pp_steps.specs.declared.error.PassError.TheVariants as pass_error;
ghost use Rattle.pp_steps.specs.declared.seated.Seated.{Seated};
ghost use Rattle.pp_steps.specs.Lending.{LendsShared, LendsSlot, LendsBody, CannotLend, LendFails, IsForeign};
ghost use Rattle.pp_steps.specs.Seats.{seated_at};

use crate::bytes::put;
use crate::error::PassError;
use crate::pass::Pass;
use crate::seated::Seated;
use crate::seats::Seats;
use crate::site::KeptHall;
use crate::steps::Steps;
use pp_vault::{Guard, Guards, ReadGuard};

/// Where the body of a page lies, and how many bytes it has.
///
/// A page that is latched stays where it is until the latch is taken off. That the address is still good when a host
/// comes to use it is no clause's matter (docs/assumptions.md).
#[repr(C)]
#[derive(Clone, Copy)]
pub struct Lent {
    /// The first byte.
    pub bytes: *const u8,
    pub length: usize,
}

impl Lent {
    /// These bytes are lent.
    fn of(body: &[u8]) -> Lent
        ensures at { result.bytes ≡ block_ptr body.entry.ref_ptr.0 body.entry.ref_ptr.1 }
        ensures length { result.length ≡ length body.now }
    {
        Lent {
            bytes: address(body),
            length: body.len(),
        }
    }
}

/// The address of the first of these bytes.
fn address(bytes: &[u8]) -> *const u8
    ensures { result ≡ block_ptr bytes.entry.ref_ptr.0 bytes.entry.ref_ptr.1 }
{
    bytes.as_ptr()
}

impl Steps {
    /// Tells where the body of the page in this slot lies, which is latched. It copies nothing.
    ///
    /// Until the latch is taken off a host may read there, and where the page is latched X it may write there, as by
    /// [`Steps::read`] and [`Steps::write`], with no lock.
    ///
    /// # Errors
    ///
    /// [`PassError::BadPass`]; [`PassError::WrongStep`] where the slot has no page that is latched.
    pub fn lend(&mut self, pass: Pass, slot: u32) -> Result<Lent, PassError>
        ensures ok { IfOk result (LendsBody self.old pass slot) }
        ensures error { IfErr result (LendFails (seated_at self.old.seats pass) self.old pass slot) }
        ensures unchanged { self.new ≡ self.old }
    {
        match self.seats.lend(pass, &self.hall, slot) {
            Some(lent) => lent,
            None => Err(self.no_errand(pass)),
        }
    }
}

impl Seats<Seated> {
    /// Tells where a body of the one with this pass lies. None where nobody has it.
    fn lend(&mut self, pass: Pass, hall: &KeptHall, slot: u32) -> Option<Result<Lent, PassError>>
        ensures some { IfSome result (λ lent. (s : Seated) × (seated_at self.old pass ≡ Some s)
            × IfOk lent (LendsSlot hall.now.value.seating.vault (placed s.worker.hand.guards slot))
            × IfErr lent (λ e. (e ≡ pass_error.WrongStep)
            × CannotLend hall.now.value.seating.vault (placed s.worker.hand.guards slot))) }
        ensures none { IfNone result (seated_at self.old pass ≡ None) }
        ensures unchanged { self.new ≡ self.old }
    {
        self.get(pass)?;
        let place = &mut self.places[pass.bell as usize];
        match &mut place.seated {
            Some(seated) => Some(lend_slot(hall, &mut seated.worker.hand.guards, slot)),
            None => None,
        }
    }
}

/// Tells where the slot's body lies, where it is latched.
fn lend_slot(hall: &KeptHall, guards: &mut Guards, slot: u32) -> Result<Lent, PassError>
    ensures ok { IfOk result (LendsSlot hall.now.value.seating.vault (placed guards.old slot)) }
    ensures why { IfErr result (λ e. (e ≡ pass_error.WrongStep)
        × CannotLend hall.now.value.seating.vault (placed guards.old slot)) }
    ensures guards { guards.new ≡ guards.old }
{
    let Some(guard) = guards.take(slot) else {
        return Err(PassError::WrongStep);
    };
    let lent = match &guard {
        Guard::Read(guard) => lend_shared(hall, guard),
        Guard::Write(guard) => Some(Lent::of(guard.body())),
        _ => None,
    };
    put(guards, guard);
    match lent {
        Some(lent) => Ok(lent),
        None => Err(PassError::WrongStep),
    }
}

/// Tells where the body of a page lies that is latched S. None where the guard isn't one of the hall's.
fn lend_shared(hall: &KeptHall, guard: &ReadGuard) -> Option<Lent>
    ensures some { IfSome result (LendsShared hall.now.value.seating.vault guard.now) }
    ensures none { IfNone result (IsForeign hall.now.value.seating.vault guard.now) }
{
    match hall.see(guard) {
        Some(body) => Some(Lent::of(body)),
        None => None,
    }
}
