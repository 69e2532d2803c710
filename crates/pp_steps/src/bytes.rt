//! Bytes that a host hands in, and is handed.

ghost use Rattle.std.specs.Prelude.{◌≡◌, ◌≤◌, ◌+◌, ◌-◌, ℕ, nat_le, true, false, None, Some, IfOk, IfSome, IfNone, IfErr, OnOk, OnErr, length, slice_set, ◌==◌, Err};
ghost use Rattle.pp_vault.specs.Holding.{placed, slot_by, is_free};
ghost use Rattle.pp_vault.specs.Duties.{is_reading};
ghost use Rattle.pp_steps.specs.Bytes.{CopiesImage, CopiesIf, errand_of, no_errand, Brings, lies_in, ReadsGuard, ReadsBody};
ghost use Rattle.pp_steps.specs.Bytes.{WritesSlot, WritesSeat, WritesBody, OnNoRead};
ghost use Rattle.pp_steps.specs.Bytes.{CannotRead, ReadFails, CannotWrite, WriteFails, ReadsShared, CannotSee, part_of};
ghost use Rattle.pp_steps.specs.declared.error.PassError.TheVariants as pass_error;
ghost use Rattle.pp_steps.specs.declared.seated.Seated.{Seated};
ghost use Rattle.pp_steps.specs.Parts.{is_flushers};
ghost use Rattle.pp_steps.specs.Seats.{seated_at, with_seat};

use crate::error::PassError;
use crate::pass::Pass;
use crate::seated::Seated;
use crate::seats::Seats;
use crate::site::KeptHall;
use crate::steps::Steps;
use pp_device::image::HEAD;
use pp_vault::{Errand, Flushing, Guard, Guards, ReadGuard, Stage};

impl Steps {
    /// Copies the image that the host's device is to write.
    ///
    /// # Errors
    ///
    /// [`PassError::BadPass`]; [`PassError::WrongStep`] where nothing is to be written; [`PassError::WrongLength`] where the
    /// slice isn't as long as a page.
    pub fn image(&self, pass: Pass, bytes: &mut [u8]) -> Result<(), PassError>
        ensures { CopiesImage (errand_of (is_flushers self.now pass) self.now pass) self.now pass bytes.old result bytes.new }
    {
        if self.is_flushers(pass) {
            return match &self.flusher {
                Some(away) => match &away.flusher.flushing {
                    Some(Flushing::Out(errand)) => copied(errand, bytes),
                    _ => Err(PassError::WrongStep),
                },
                None => Err(PassError::WrongStep),
            };
        }
        match self.seats.get(pass) {
            Some(seated) => match &seated.worker.hand.stage {
                Stage::Out(errand) => copied(errand, bytes),
                _ => Err(PassError::WrongStep),
            },
            None => Err(self.no_errand(pass)),
        }
    }

    /// Takes the image that the host's device has read.
    ///
    /// # Errors
    ///
    /// [`PassError::BadPass`]; [`PassError::WrongStep`] where nothing is to be read; [`PassError::WrongLength`] where there
    /// aren't as many bytes as a page has.
    pub fn came(&mut self, pass: Pass, bytes: &[u8]) -> Result<(), PassError>
        ensures some { (s : Seated) → seated_at self.old.seats pass ≡ Some s
            → (t : Seated) × Brings s bytes.now result t
            × (self.new ≡ record self.old { seats = with_seat self.old.seats pass t }) }
        ensures none { seated_at self.old.seats pass ≡ None
            → (result ≡ Err (no_errand self.old pass)) × (self.new ≡ self.old) }
    {
        match self.seats.bring(pass, bytes) {
            Some(brought) => brought,
            None => Err(self.no_errand(pass)),
        }
    }

    /// Copies bytes of the body of the page in this slot, which is latched, from this one on.
    ///
    /// # Errors
    ///
    /// [`PassError::BadPass`]; [`PassError::WrongLength`] where they don't lie in a body; [`PassError::WrongStep`] where the
    /// slot has no page that is latched. The slice stays.
    pub fn read(
        &mut self,
        pass: Pass,
        slot: u32,
        from: u32,
        bytes: &mut [u8],
    ) -> Result<(), PassError>
        ensures ok { OnOk result (ReadsBody self.old pass slot from bytes.new) }
        ensures error { IfErr result
            (λ e. ReadFails (seated_at self.old.seats pass) self.old pass slot from (length bytes.old) e) }
        ensures long { length bytes.new ≡ length bytes.old }
        ensures err { OnErr result (bytes.new ≡ bytes.old) }
        ensures unchanged { self.new ≡ self.old }
    {
        if self.seats.get(pass).is_none() {
            return Err(self.no_errand(pass));
        }
        if !lies_in(self.hall.page_bytes(), from, bytes.len()) {
            return Err(PassError::WrongLength);
        }
        match self.seats.read(pass, &self.hall, slot, from, bytes) {
            Some(read) => read,
            None => Err(self.no_errand(pass)),
        }
    }

    /// Puts bytes into the body of the page in this slot, which is latched X, from this one on.
    ///
    /// # Errors
    ///
    /// As [`Steps::read`]'s, also where the page isn't latched X. Nothing has changed.
    pub fn write(&mut self, pass: Pass, slot: u32, from: u32, bytes: &[u8]) -> Result<(), PassError>
        ensures ok { OnOk result (WritesBody self.old pass slot from bytes.now self.new) }
        ensures error { IfErr result
            (λ e. WriteFails (seated_at self.old.seats pass) self.old pass slot from (length bytes.now) e) }
        ensures unchanged { OnErr result (self.new ≡ self.old) }
    {
        if self.seats.get(pass).is_none() {
            return Err(self.no_errand(pass));
        }
        if !lies_in(self.hall.page_bytes(), from, bytes.len()) {
            return Err(PassError::WrongLength);
        }
        match self.seats.write(pass, slot, from, bytes) {
            Some(written) => written,
            None => Err(self.no_errand(pass)),
        }
    }

    /// Why a call of a device's bytes, or a page's, is refused by a pass with which nobody runs.
    pub(crate) fn no_errand(&self, pass: Pass) -> PassError
        ensures { result ≡ no_errand self.now pass }
    {
        let is_known = self.is_flushers(pass) || self.seats.get(pass).is_some();
        if is_known || self.line.get(pass).is_some() {
            PassError::WrongStep
        } else {
            PassError::BadPass
        }
    }
}

impl Seats<Seated> {
    /// Takes the image that the device of the one with this pass has read. None where nobody has it.
    fn bring(&mut self, pass: Pass, bytes: &[u8]) -> Option<Result<(), PassError>>
        ensures some { IfSome result (λ brought. (s : Seated) × (seated_at self.old pass ≡ Some s)
            × (t : Seated) × Brings s bytes.now brought t × (self.new ≡ with_seat self.old pass t)) }
        ensures none { IfNone result (seated_at self.old pass ≡ None) }
        ensures unchanged { IfNone result (self.new ≡ self.old) }
    {
        self.get(pass)?;
        let place = &mut self.places[pass.bell as usize];
        match &mut place.seated {
            Some(seated) => Some(seated.bring(bytes)),
            None => None,
        }
    }

    /// Copies bytes of a body of the one with this pass. None where nobody has it.
    fn read(
        &mut self,
        pass: Pass,
        hall: &KeptHall,
        slot: u32,
        from: u32,
        bytes: &mut [u8],
    ) -> Option<Result<(), PassError>>
        ensures some { IfSome result (λ read. (s : Seated) × (seated_at self.old pass ≡ Some s)
            × OnOk read (ReadsGuard hall.now.value.seating.vault (placed s.worker.hand.guards slot) from bytes.new)
            × IfErr read (λ e. (e ≡ pass_error.WrongStep)
            × CannotRead hall.now.value.seating.vault (placed s.worker.hand.guards slot) from (length bytes.old))) }
        ensures none { IfNone result (seated_at self.old pass ≡ None) }
        ensures bytes { length bytes.new ≡ length bytes.old }
        ensures err { OnNoRead result (bytes.new ≡ bytes.old) }
        ensures unchanged { self.new ≡ self.old }
    {
        self.get(pass)?;
        let place = &mut self.places[pass.bell as usize];
        match &mut place.seated {
            Some(seated) => Some(read_slot(
                hall,
                &mut seated.worker.hand.guards,
                slot,
                from as usize,
                bytes,
            )),
            None => None,
        }
    }

    /// Puts bytes into a body of the one with this pass. None where nobody has it.
    fn write(
        &mut self,
        pass: Pass,
        slot: u32,
        from: u32,
        bytes: &[u8],
    ) -> Option<Result<(), PassError>>
        ensures some { IfSome result (λ written. OnOk written (WritesSeat self.old pass slot from bytes.now self.new)) }
        ensures why { IfSome result (λ written. (s : Seated) × (seated_at self.old pass ≡ Some s)
            × IfErr written (λ e. CannotWrite (placed s.worker.hand.guards slot) from (length bytes.now) e)) }
        ensures none { IfNone result (seated_at self.old pass ≡ None) }
        ensures unchanged { OnNoRead result (self.new ≡ self.old) }
    {
        self.get(pass)?;
        let place = &mut self.places[pass.bell as usize];
        match &mut place.seated {
            Some(seated) => Some(write_slot(
                &mut seated.worker.hand.guards,
                slot,
                from as usize,
                bytes,
            )),
            None => None,
        }
    }
}

/// Copies the image that is to be written.
fn copied(errand: &Errand, bytes: &mut [u8]) -> Result<(), PassError>
    ensures { CopiesIf (is_reading errand.now.duty) (length bytes.old == length errand.now.image) errand.now.image bytes.old
        result bytes.new }
{
    if errand.is_reading() {
        return Err(PassError::WrongStep);
    }
    if bytes.len() != errand.bytes().len() {
        return Err(PassError::WrongLength);
    }
    bytes.copy_from_slice(errand.bytes());
    Ok(())
}

/// Whether so many bytes from this one on lie in the body of an image of this length.
pub(crate) fn lies_in(page_bytes: usize, from: u32, count: usize) -> bool
    ensures { result ≡ lies_in page_bytes from count }
{
    let body = page_bytes.saturating_sub(HEAD);
    (from as usize) <= body && count <= body - from as usize
}

/// Copies bytes of the slot's body, where it is latched.
fn read_slot(
    hall: &KeptHall,
    guards: &mut Guards,
    slot: u32,
    from: usize,
    bytes: &mut [u8],
) -> Result<(), PassError>
    ensures ok { OnOk result (ReadsGuard hall.now.value.seating.vault (placed guards.old slot) from bytes.new) }
    ensures bytes { length bytes.new ≡ length bytes.old }
    ensures err { OnErr result (bytes.new ≡ bytes.old) }
    ensures why { IfErr result (λ e. (e ≡ pass_error.WrongStep)
        × CannotRead hall.now.value.seating.vault (placed guards.old slot) from (length bytes.old)) }
    ensures guards { guards.new ≡ guards.old }
{
    let Some(guard) = guards.take(slot) else {
        return Err(PassError::WrongStep);
    };
    let is_read = match &guard {
        Guard::Read(guard) => copied_shared(hall, guard, from, bytes),
        Guard::Write(guard) => copied_part(guard.body(), from, bytes),
        _ => false,
    };
    put(guards, guard);
    if is_read {
        Ok(())
    } else {
        Err(PassError::WrongStep)
    }
}

/// Copies bytes of the body of a page that is latched S, from this one on. Tells whether it did: not, where the guard isn't one
/// of the hall's, or the body hasn't so many.
pub(crate) fn copied_shared(
    hall: &KeptHall,
    guard: &ReadGuard,
    from: usize,
    bytes: &mut [u8],
) -> bool
    ensures read { result ≡ true → ReadsShared hall.now.value.seating.vault guard.now from bytes.new }
    ensures why { result ≡ false → CannotSee hall.now.value.seating.vault guard.now from (length bytes.old) }
    ensures stays { result ≡ false → bytes.new ≡ bytes.old }
    ensures long { length bytes.new ≡ length bytes.old }
{
    match hall.see(guard) {
        Some(body) => copied_part(body, from, bytes),
        None => false,
    }
}

/// Copies bytes of a body, from this one on. Tells whether it did: not, where the body hasn't so many.
fn copied_part(body: &[u8], from: usize, bytes: &mut [u8]) -> bool
    ensures exact { result ≡ nat_le (from + length bytes.old) (length body.now) }
    ensures part { result ≡ true → bytes.new ≡ part_of body.now from (length bytes.new) }
    ensures stays { result ≡ false → bytes.new ≡ bytes.old }
    ensures long { length bytes.new ≡ length bytes.old }
{
    let fits = from <= body.len() && bytes.len() <= body.len() - from;
    if fits {
        bytes.copy_from_slice(&body[from..from + bytes.len()]);
    }
    fits
}

/// Puts bytes into the slot's body, where it is latched X.
fn write_slot(guards: &mut Guards, slot: u32, from: usize, bytes: &[u8]) -> Result<(), PassError>
    ensures ok { OnOk result (WritesSlot guards.old slot from bytes.now guards.new) }
    ensures err { OnErr result (guards.new ≡ guards.old) }
    ensures why { IfErr result (λ e. CannotWrite (placed guards.old slot) from (length bytes.now) e) }
{
    match guards.take(slot) {
        Some(Guard::Write(mut guard)) => {
            let body = guard.body_mut();
            let fits = from <= body.len() && bytes.len() <= body.len() - from;
            if fits {
                body[from..from + bytes.len()].copy_from_slice(bytes);
            }
            put(guards, Guard::Write(guard));
            if fits {
                Ok(())
            } else {
                Err(PassError::WrongLength)
            }
        }
        Some(guard) => {
            put(guards, guard);
            Err(PassError::WrongStep)
        }
        None => Err(PassError::WrongStep),
    }
}

/// Puts a guard back into its place, which is free.
pub(crate) fn put(guards: &mut Guards, guard: Guard)
    requires { is_free guards.old (slot_by guard) ≡ true }
    ensures { guards.new ≡ slice_set guards.old (slot_by guard) (Some guard) }
{
    match guards.put(guard) {
        Ok(()) => {}
        Err(_) => unreachable!(),
    }
}
