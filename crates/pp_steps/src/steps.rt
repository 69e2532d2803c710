//! The whole: a hall, who waits, and who runs.

ghost use Rattle.std.specs.Prelude.{◌≡◌, ◌+◌, ◌&&◌, ◌≤◌, ◌<◌, ℕ, true, IfOk, IfErr, OnErr, None, Some, length, vec_len};
ghost use Rattle.pp_core.specs.Submits.{PrepareFails};
ghost use Rattle.pp_steps.specs.declared.error.OpenError.TheVariants as open_error;
ghost use Rattle.pp_steps.specs.declared.error.KeepError.TheVariants as keep_error;
ghost use Rattle.pp_steps.specs.Calls.{Keeps, KeepFails};
ghost use Rattle.pp_steps.specs.Opening.{IsOpened, OpenFails};
ghost use Rattle.pp_steps.specs.Parts.{is_flushers};
ghost use Rattle.pp_steps.specs.Ringing.{AreRings};

use crate::device::HostDevice;
use crate::error::{KeepError, OpenError};
use crate::flusher::AwayFlusher;
use crate::line::Line;
use crate::pass::Pass;
use crate::plans::KeptPlan;
use crate::rings::Rings;
use crate::seated::Seated;
use crate::seats::Seats;
use crate::site::KeptHall;
use pp_cert::Accepted;
use pp_hall::{Hall, Policy, Told};
use pp_settings::Settings;
use std::alloc::{AllocError, AllocFailed, Global};
use std::marker::Model;

/// How long the queue may be. Of the 65,536 bells of passes the chairs have 32 at most, the flusher has one, and each place
/// of the queue has one; the rest is kept free.
const LONGEST_QUEUE: u32 = 65_000;

/// A pool that stands, whose host is asked for each step, and whose device is the host's.
///
/// Those that wait to start, those that run and the flusher are here with all that they have, and a host names them by their
/// passes. It has no lock and no thread: whoever shares it makes one call at a time, and rings for those whom a call has told
/// ([`Rings`]).
///
/// No call takes memory but [`Steps::open`], [`Steps::keep`], and the one that takes a plan.
///
/// The compiler refuses code that lets it fall: [`Steps::close`] gives it up, or [`Steps::abandon`].
pub struct Steps {
    pub(crate) hall: KeptHall,
    pub(crate) plans: Vec<KeptPlan>,
    pub(crate) line: Line,
    pub(crate) seats: Seats<Seated>,
    // How many had the flusher's pass, and the flusher, where it is out.
    pub(crate) flushed: u64,
    pub(crate) flusher: Option<AwayFlusher>,
}

impl Model for Steps {
    ghost use Rattle.std.specs.Coded.{codes};
    ghost use Rattle.pp_hall.specs.Coding.{coded_seating};
    ghost use Rattle.pp_steps.specs.contracts.seated.Seated as seated;
    ghost use Rattle.pp_steps.specs.contracts.flusher.AwayFlusher as away;
    ghost use Rattle.pp_steps.specs.Parts.{Parts, IsSteps};

    ghost Value = { Parts };

    ghost coded = { Prim.hlevel (codes, coded_seating, seated.the_row.coded, away.the_row.coded) };

    ghost view = { λ s. record {
      hall = s.hall.value;
      plans = s.plans.items;
      line = s.line;
      seats = s.seats;
      flushed = s.flushed;
      flusher = s.flusher;
    } };

    ghost invariant = { λ s. IsSteps (record {
      hall = s.hall.value;
      plans = s.plans.items;
      line = s.line;
      seats = s.seats;
      flushed = s.flushed;
      flusher = s.flusher;
    }) };
}

impl Steps {
    /// A pool with these settings, in which nothing was done yet and nobody waits or runs.
    ///
    /// # Errors
    ///
    /// [`OpenError::BadQueue`] where the queue isn't 1 to 65,000 long, else the settings' first fault
    /// ([`pp_hall::OpenError::of`]), else [`OpenError::OutOfMemory`].
    pub fn open(alloc: Global, settings: &Settings, policy: Policy) -> Result<Steps, OpenError>
        ensures opened { IfOk result (λ steps. IsOpened settings.now policy steps) }
        ensures error { IfErr result (OpenFails settings.now policy) }
    {
        if policy.queue == 0 || policy.queue > LONGEST_QUEUE {
            return Err(OpenError::BadQueue);
        }
        let workers = settings.workers();
        if let Some(fault) = pp_hall::OpenError::of(settings, workers as usize + 1) {
            return Err(OpenError::Hall(fault));
        }
        let (Ok(devices), Ok(line)) = (
            devices_of(alloc, settings),
            Line::new(alloc, workers, policy.queue),
        ) else {
            return Err(OpenError::OutOfMemory);
        };
        let hall = match Hall::open(alloc, settings, policy, devices) {
            Ok(hall) => hall,
            Err((_error, _devices)) => return Err(OpenError::OutOfMemory),
        };
        let hall = match Box::new(alloc, hall) {
            Ok(hall) => hall,
            Err(AllocFailed { value }) => return Err(given_up(value)),
        };
        let seats = match Seats::new(alloc, workers) {
            Ok(seats) => seats,
            Err(_) => return Err(given_up(Box::into_inner(hall))),
        };
        Ok(Steps {
            hall,
            plans: Vec::new(alloc),
            line,
            seats,
            flushed: 0,
            flusher: None,
        })
    }

    /// Keeps a plan, so that it can be run as often as wanted. The first has number 0, and each further one the next.
    ///
    /// # Errors
    ///
    /// [`KeepError::OutOfMemory`], or as [`Hall::prepare`]'s. The plan comes back, and nothing has changed.
    pub fn keep(
        &mut self,
        accepted: Accepted,
    ) -> Result<(u32, KeptPlan, Rings), (Accepted, KeepError)>
        ensures ok { IfOk result (λ now. Keeps self.old accepted now.0 now.1 now.2 self.new) }
        ensures error { IfErr result (λ e. KeepFails self.old accepted e.1) }
        ensures back { IfErr result (λ e. e.0 ≡ accepted) }
        ensures unchanged { OnErr result (self.new ≡ self.old) }
    {
        let Ok(number) = u32::try_from(self.plans.len()) else {
            return Err((accepted, KeepError::OutOfMemory));
        };
        if self.plans.reserve(1).is_err() {
            return Err((accepted, KeepError::OutOfMemory));
        }
        let (peak, cost) = (accepted.peak(), accepted.cost());
        let prepared = self.hall.prepare(accepted);
        match prepared {
            Ok((prepared, told)) => {
                self.plans.push_reserved(KeptPlan {
                    prepared,
                    peak,
                    cost,
                });
                let rings = self.rings(told);
                let plan = KeptPlan {
                    prepared,
                    peak,
                    cost,
                };
                Ok((number, plan, rings))
            }
            Err((accepted, error)) => Err((accepted, KeepError::Prepare(error))),
        }
    }

    /// How many chairs there are: so many plans run at once. Their bells are the numbers below.
    pub fn workers(&self) -> u32
        ensures { result ≡ self.now.line.first }
    {
        self.line.first()
    }

    /// The flusher's bell, the last one.
    pub fn flushers_bell(&self) -> u32
        ensures is { result ≡ self.now.line.first + length self.now.line.places }
        ensures below { result < 65536 }
    {
        self.line.end()
    }

    /// Whom the hall has told, by their bells.
    pub(crate) fn rings(&self, told: Told) -> Rings
        ensures { AreRings self.now.line told result }
    {
        rings_of(&self.line, told)
    }

    /// Whether this is the flusher's pass.
    pub(crate) fn is_flushers(&self, pass: Pass) -> bool
        ensures { result ≡ is_flushers self.now pass }
    {
        pass.bell == self.line.end() && pass.turn == self.flushed && self.flusher.is_some()
    }
}

/// Whom the hall has told, by their bells.
fn rings_of(line: &Line, told: Told) -> Rings
    ensures { AreRings line.now told result }
{
    let Told {
        workers,
        next,
        all,
        flusher,
    } = told;
    let next = match next {
        Some(ticket) => line.bell_of(ticket),
        None => None,
    };
    Rings {
        running: workers,
        next,
        all,
        flusher,
    }
}

/// A device for each worker, and one for the flusher.
fn devices_of(alloc: Global, settings: &Settings) -> Result<Vec<HostDevice>, AllocError>
    ensures { IfOk result (λ devices. vec_len devices ≡ settings.now.workers + 1) }
{
    let count = settings.workers() as usize + 1;
    let mut devices = Vec::with_capacity(alloc, count)?;
    for _ in 0..count {
        devices.push_reserved(HostDevice::new(alloc, settings.page_bytes() as usize)?);
    }
    Ok(devices)
}

/// The hall is given up, since memory ran out.
fn given_up(hall: Hall<HostDevice>) -> OpenError
    ensures { result ≡ open_error.OutOfMemory }
{
    let (_devices, _dirty) = hall.abandon();
    OpenError::OutOfMemory
}
