//! Readings of pages that are cached: each is begun by one call, and ended by one.

ghost use Rattle.std.specs.Prelude.{◌≡◌, true, None, Some, IfSome, IfNone, IfOk, IfErr, OnErr, length};
ghost use Rattle.pp_steps.specs.declared.seated.Seated.{Seated as Runner};
ghost use Rattle.pp_steps.specs.Bytes.{lies_in};
ghost use Rattle.pp_vault.specs.declared.stage.Stage.TheVariants.{In};
ghost use Rattle.pp_steps.specs.Reading.{Gets, CannotGet, can_get, acting, Begins, BeginsBy, CannotBegin, Puts, CannotPut, asked_off, EndsBy, CannotEnd, Ends};
ghost use Rattle.pp_steps.specs.Reading.{GetIs, PutIs};
ghost use Rattle.pp_steps.specs.Seats.{seated_at, with_seat};
ghost use Rattle.pp_steps.specs.StepsOf.{step_asked};

use crate::bytes::{copied_shared, lies_in, put};
use crate::error::{AtOnceError, PassError};
use crate::pass::Pass;
use crate::rings::Rings;
use crate::seated::Seated;
use crate::seats::Seats;
use crate::site::KeptHall;
use crate::step::Step;
use crate::steps::Steps;
use core::mem;
use pp_hall::Told;
use pp_plan::Ask;
use pp_settings::Layout;
use pp_vault::{Guard, Guards, ReadGuard, Session, Stage};

/// What came of a reading that was begun.
pub(crate) struct Begun {
    told: Told,
    // What comes next.
    step: Step,
}

/// What came of a reading that was ended.
pub(crate) struct Ended {
    told: Told,
    // What comes next.
    step: Step,
}

impl Steps {
    /// Fixes this page and latches it S, and copies bytes of its body from this one on, where the page is cached and the plan asks
    /// both moves now, one behind the other. It makes the moves of two calls of [`Steps::go`], copies as [`Steps::read`] does, and
    /// tells what comes next. The worker's log misses these two moves: a pool that stands keeps no journal, so nobody reads that log.
    ///
    /// # Errors
    ///
    /// [`AtOnceError::Pass`] with [`PassError::BadPass`] or [`PassError::WrongStep`], as of [`Steps::read`], where nobody runs with the
    /// pass; else with [`PassError::WrongLength`] where the bytes don't lie in a body; else [`AtOnceError::NotAtOnce`], where the plan asks
    /// no fix into a slot that is free, or the vault can't make both moves now. Then [`Steps::go`] makes the next step, a fix with the same
    /// page. Nothing has changed.
    pub fn get(
        &mut self,
        pass: Pass,
        page: u32,
        from: u32,
        bytes: &mut [u8],
    ) -> (Result<Step, AtOnceError>, Rings)
        ensures is { GetIs (seated_at self.old.seats pass) self.old pass page from bytes.old result.0 result.1 bytes.new self.new }
        ensures long { length bytes.new ≡ length bytes.old }
    {
        if self.seats.get(pass).is_none() {
            return (
                Err(AtOnceError::Pass(self.no_errand(pass))),
                Rings::nobody(),
            );
        }
        if !lies_in(self.hall.page_bytes(), from, bytes.len()) {
            return (
                Err(AtOnceError::Pass(PassError::WrongLength)),
                Rings::nobody(),
            );
        }
        let begun = self
            .seats
            .begin_reading(pass, &mut self.hall, page, from as usize, bytes);
        match begun {
            Some(Begun { told, step }) => (Ok(step), self.rings(told)),
            None => (Err(AtOnceError::NotAtOnce), Rings::nobody()),
        }
    }

    /// Takes the latch S off that the plan takes off next, and unfixes its page, where the plan asks both moves now, one behind
    /// the other. It makes the moves of two calls of [`Steps::go`], and tells what comes next.
    ///
    /// # Errors
    ///
    /// [`AtOnceError::Pass`] as of [`Steps::get`], where nobody runs with the pass; else [`AtOnceError::NotAtOnce`], where the plan doesn't
    /// take a latch S off next, or doesn't unfix that page behind it. Nothing has changed.
    pub fn put(&mut self, pass: Pass) -> (Result<Step, AtOnceError>, Rings)
        ensures { PutIs (seated_at self.old.seats pass) self.old pass result.0 result.1 self.new }
    {
        if self.seats.get(pass).is_none() {
            return (
                Err(AtOnceError::Pass(self.no_errand(pass))),
                Rings::nobody(),
            );
        }
        match self.seats.end_reading(pass, &mut self.hall) {
            Some(Ended { told, step }) => (Ok(step), self.rings(told)),
            None => (Err(AtOnceError::NotAtOnce), Rings::nobody()),
        }
    }
}

impl Seats<Seated> {
    /// Begins a reading of the one with this pass. None where it can't be begun at once, or nobody has the pass.
    fn begin_reading(
        &mut self,
        pass: Pass,
        hall: &mut KeptHall,
        page: u32,
        from: usize,
        bytes: &mut [u8],
    ) -> Option<Begun>
        requires { lies_in hall.old.value.seating.vault.page_bytes from (length bytes.old) ≡ true }
        ensures some { IfSome result (λ begun. (s : Runner) × (seated_at self.old pass ≡ Some s)
            × (t : Runner) × Begins s hall.old.value page from begun bytes.new hall.new.value t
            × (self.new ≡ with_seat self.old pass t)) }
        ensures none { IfNone result ((s : Runner) → seated_at self.old pass ≡ Some s
            → CannotGet s.worker.hand.stage s.worker.hand.guards hall.old.value.seating.vault page) }
        ensures unchanged { IfNone result (self.new ≡ self.old) }
        ensures hall { IfNone result (hall.new.value ≡ hall.old.value) }
        ensures bytes { IfNone result (bytes.new ≡ bytes.old) }
        ensures long { length bytes.new ≡ length bytes.old }
    {
        self.get(pass)?;
        let place = &mut self.places[pass.bell as usize];
        match &mut place.seated {
            Some(seated) => seated.begin_reading(hall, page, from, bytes),
            None => None,
        }
    }

    /// Ends a reading of the one with this pass. None where it can't be ended at once, or nobody has the pass.
    fn end_reading(&mut self, pass: Pass, hall: &mut KeptHall) -> Option<Ended>
        ensures some { IfSome result (λ ended. (s : Runner) × (seated_at self.old pass ≡ Some s)
            × (t : Runner) × Ends s hall.old.value ended hall.new.value t × (self.new ≡ with_seat self.old pass t)) }
        ensures none { IfNone result ((s : Runner) → seated_at self.old pass ≡ Some s
            → CannotPut s.worker.hand.stage s.worker.hand.guards hall.old.value.seating.vault) }
        ensures unchanged { IfNone result (self.new ≡ self.old) }
        ensures hall { IfNone result (hall.new.value ≡ hall.old.value) }
    {
        self.get(pass)?;
        let place = &mut self.places[pass.bell as usize];
        match &mut place.seated {
            Some(seated) => seated.end_reading(hall),
            None => None,
        }
    }
}

impl Seated {
    /// Begins a reading, where that is possible at once.
    fn begin_reading(
        &mut self,
        hall: &mut KeptHall,
        page: u32,
        from: usize,
        bytes: &mut [u8],
    ) -> Option<Begun>
        requires { lies_in hall.old.value.seating.vault.page_bytes from (length bytes.old) ≡ true }
        ensures some { IfSome result
            (λ begun. Begins self.old hall.old.value page from begun bytes.new hall.new.value self.new) }
        ensures none { IfNone result
            (CannotGet self.old.worker.hand.stage self.old.worker.hand.guards hall.old.value.seating.vault page) }
        ensures unchanged { IfNone result (self.new ≡ self.old) }
        ensures hall { IfNone result (hall.new.value ≡ hall.old.value) }
        ensures bytes { IfNone result (bytes.new ≡ bytes.old) }
        ensures long { length bytes.new ≡ length bytes.old }
    {
        let hand = &mut self.worker.hand;
        let layout = &self.worker.layout;
        match &mut hand.stage {
            Stage::In(session) => get(session, &mut hand.guards, layout, hall, page, from, bytes),
            _ => None,
        }
    }

    /// Ends a reading, where that is possible at once.
    fn end_reading(&mut self, hall: &mut KeptHall) -> Option<Ended>
        ensures some { IfSome result (λ ended. Ends self.old hall.old.value ended hall.new.value self.new) }
        ensures none { IfNone result
            (CannotPut self.old.worker.hand.stage self.old.worker.hand.guards hall.old.value.seating.vault) }
        ensures unchanged { IfNone result (self.new ≡ self.old) }
        ensures hall { IfNone result (hall.new.value ≡ hall.old.value) }
    {
        let hand = &mut self.worker.hand;
        let layout = &self.worker.layout;
        match &mut hand.stage {
            Stage::In(session) => put_back(session, &mut hand.guards, layout, hall),
            _ => None,
        }
    }
}

/// Begins a reading with these tokens, where that is possible at once.
#[inline(always)]
fn get(
    session: &mut Session,
    guards: &mut Guards,
    layout: &Layout,
    hall: &mut KeptHall,
    page: u32,
    from: usize,
    bytes: &mut [u8],
) -> Option<Begun>
    requires { lies_in hall.old.value.seating.vault.page_bytes from (length bytes.old) ≡ true }
    ensures some { IfSome result (λ begun. Gets (acting session.old guards.old) hall.old.value page from bytes.new begun.told
        hall.new.value (acting session.new guards.new)) }
    ensures step { IfSome result (λ begun. begun.step ≡ step_asked layout.now guards.new session.new.ask) }
    ensures none { IfNone result (CannotGet (In session.old) guards.old hall.old.value.seating.vault page) }
    ensures session { IfNone result (session.new ≡ session.old) }
    ensures guards { IfNone result (guards.new ≡ guards.old) }
    ensures hall { IfNone result (hall.new.value ≡ hall.old.value) }
    ensures bytes { IfNone result (bytes.new ≡ bytes.old) }
    ensures long { length bytes.new ≡ length bytes.old }
{
    if !may_begin(session, guards) {
        return None;
    }
    let Some((guard, told)) = begin(session, hall, page) else {
        return None;
    };
    if !copied_shared(hall, &guard, from, bytes) {
        unreachable!();
    }
    put(guards, Guard::Read(guard));
    Some(Begun {
        told,
        step: Step::asked(session.ask(), guards, layout),
    })
}

/// Whether the plan asks a fix into a slot whose place is free.
#[inline(always)]
fn may_begin(session: &Session, guards: &Guards) -> bool
    ensures { result ≡ can_get guards.now session.now.ask }
{
    match session.ask() {
        Ask::Fix { slot, region: _ } => guards.is_free(u32::from(slot)),
        _ => false,
    }
}

/// Makes both moves at a reading's begin by the hall, where it can.
#[inline(always)]
fn begin(session: &mut Session, hall: &mut KeptHall, page: u32) -> Option<(ReadGuard, Told)>
    ensures some { IfSome result
        (λ now. BeginsBy (In session.old) hall.old.value page now.0 now.1 hall.new.value (In session.new)) }
    ensures none { IfNone result (CannotBegin (In session.old) hall.old.value.seating.vault page) }
    ensures session { IfNone result (session.new ≡ session.old) }
    ensures hall { IfNone result (hall.new.value ≡ hall.old.value) }
{
    let (begun, hall) = mem::replace_with(session, hall, |session, hall| {
        let (session, begun) = begun_of(session, hall, page);
        (session, (begun, hall))
    });
    taken_back(hall);
    begun
}

/// The same with a session that is handed on.
#[inline(always)]
fn begun_of(
    session: Session,
    hall: &mut KeptHall,
    page: u32,
) -> (Session, Option<(ReadGuard, Told)>)
    ensures some { IfSome result.1
        (λ now. BeginsBy (In session) hall.old.value page now.0 now.1 hall.new.value (In result.0)) }
    ensures none { IfNone result.1 (CannotBegin (In session) hall.old.value.seating.vault page) }
    ensures session { IfNone result.1 (result.0 ≡ session) }
    ensures hall { IfNone result.1 (hall.new.value ≡ hall.old.value) }
{
    match hall.read(session, page) {
        Ok((session, guard, _, told)) => (session, Some((guard, told))),
        Err(session) => (session, None),
    }
}

/// Ends a reading with these tokens, where that is possible at once.
#[inline(always)]
fn put_back(
    session: &mut Session,
    guards: &mut Guards,
    layout: &Layout,
    hall: &mut KeptHall,
) -> Option<Ended>
    ensures some { IfSome result (λ ended. Puts (acting session.old guards.old) hall.old.value ended.told hall.new.value
        (acting session.new guards.new)) }
    ensures step { IfSome result (λ ended. ended.step ≡ step_asked layout.now guards.new session.new.ask) }
    ensures none { IfNone result (CannotPut (In session.old) guards.old hall.old.value.seating.vault) }
    ensures session { IfNone result (session.new ≡ session.old) }
    ensures guards { IfNone result (guards.new ≡ guards.old) }
    ensures hall { IfNone result (hall.new.value ≡ hall.old.value) }
{
    let Some(slot) = slot_off(session) else {
        return None;
    };
    match guards.take(slot) {
        Some(Guard::Read(guard)) => match end(session, hall, guard) {
            Ok(told) => Some(Ended {
                told,
                step: Step::asked(session.ask(), guards, layout),
            }),
            Err(guard) => {
                put(guards, Guard::Read(guard));
                None
            }
        },
        Some(guard) => {
            put(guards, guard);
            None
        }
        None => None,
    }
}

/// The slot whose latch the plan takes off next, if it does.
#[inline(always)]
fn slot_off(session: &Session) -> Option<u32>
    ensures { result ≡ asked_off session.now.ask }
{
    match session.ask() {
        Ask::Unlatch { slot } => Some(u32::from(slot)),
        _ => None,
    }
}

/// Makes both moves at a reading's end by the hall, where it can. Else the guard comes back.
#[inline(always)]
fn end(session: &mut Session, hall: &mut KeptHall, guard: ReadGuard) -> Result<Told, ReadGuard>
    ensures ok { IfOk result (λ told. EndsBy (In session.old) hall.old.value guard told hall.new.value (In session.new)) }
    ensures err { OnErr result (CannotEnd (In session.old) guard hall.old.value.seating.vault) }
    ensures back { IfErr result (λ g. g ≡ guard) }
    ensures session { OnErr result (session.new ≡ session.old) }
    ensures hall { OnErr result (hall.new.value ≡ hall.old.value) }
{
    let (ended, hall) = mem::replace_with(session, (hall, guard), |session, around| {
        let (hall, guard) = around;
        let (session, ended) = ended_of(session, hall, guard);
        (session, (ended, hall))
    });
    taken_back(hall);
    ended
}

/// The same with a session that is handed on.
#[inline(always)]
fn ended_of(
    session: Session,
    hall: &mut KeptHall,
    guard: ReadGuard,
) -> (Session, Result<Told, ReadGuard>)
    ensures ok { IfOk result.1 (λ told. EndsBy (In session) hall.old.value guard told hall.new.value (In result.0)) }
    ensures err { OnErr result.1 (CannotEnd (In session) guard hall.old.value.seating.vault) }
    ensures back { IfErr result.1 (λ g. g ≡ guard) }
    ensures session { OnErr result.1 (result.0 ≡ session) }
    ensures hall { OnErr result.1 (hall.new.value ≡ hall.old.value) }
{
    match hall.end_read(session, guard) {
        Ok((session, _, told)) => (session, Ok(told)),
        Err((session, guard)) => (session, Err(guard)),
    }
}

/// It does nothing. Where a call was lent a reference and gave it back, a use of that tells the prover that the two are
/// the same.
fn taken_back<T>(lent: &mut T)
    ensures { lent.new ≡ lent.old }
{}
